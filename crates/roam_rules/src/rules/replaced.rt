//! The entry that a new request of its key takes the place of.

ghost use Rattle.std.specs.Prelude.{◌≡◌, Some};
ghost use Rattle.roam_pending.specs.Shown.{shown_standing};
ghost use Rattle.roam_realm.specs.Sound.{standing_place};

use roam_conf::Link;
use roam_pending::{Entry, Standing};
use std::alloc::Allocator;

/// An entry that counts as gone while a new request is looked at.
#[derive(Clone, Copy)]
pub(crate) struct Replaced {
    pub ticket: u64,
    /// The link and the Identifier, where it waits for a reply.
    pub waits_at: Option<(Link, u8)>,
}

impl Replaced {
    /// Makes the one of an entry.
    pub(crate) fn of<A: Allocator>(entry: &Entry<A>) -> Replaced
        ensures ticket { result.ticket ≡ entry.now.ticket }
        ensures place { result.waits_at ≡ standing_place (shown_standing entry.now.standing) }
    {
        let waits_at = match &entry.standing {
            Standing::Waiting(waiting) => Some((waiting.link, waiting.id)),
            Standing::Done(_) => None,
        };
        Replaced {
            ticket: entry.ticket,
            waits_at,
        }
    }
}
