//! The round of a conversation that a request is (RFC 2865, section 5.24).
//!
//! No rule reads it, so that no packet and no answer rests on it: lines and counts tell it.

ghost use Rattle.std.specs.Prelude.{◌≡◌};
ghost use Rattle.roam_pending.specs.Courses as spec;
ghost use Rattle.roam_pending.specs.Shown.{shown, shown_standing};

use crate::entry::{Entry, Standing};
use crate::key::Requester;
use roam_wire::code::ACCESS_CHALLENGE;
use std::alloc::Allocator;

/// The place of a request in its conversation.
#[derive(Clone, Copy)]
pub struct Course {
    /// The time when the first request of the conversation came in, in milliseconds.
    pub began: u64,
    /// The number of this round among them, from 1 on.
    pub round: u32,
    /// The ticket of the last request that went on from this round, if one did.
    pub next: Option<u64>,
}

impl Course {
    /// Returns that of a request that came in now and goes on with no round.
    pub fn first(now: u64) -> Course
        ensures { result ≡ spec.first_course now }
    {
        Course {
            began: now,
            round: 1,
            next: None,
        }
    }

    /// Returns that of a request that goes on with this round.
    pub fn following(self) -> Course
        ensures { result ≡ spec.next_course self }
    {
        Course {
            began: self.began,
            round: self.round.saturating_add(1),
            next: None,
        }
    }

    /// Returns that of this round, from which the request of a ticket went on.
    pub fn gone_on(self, ticket: u64) -> Course
        ensures { result ≡ spec.gone_on ticket self }
    {
        Course {
            began: self.began,
            round: self.round,
            next: Some(ticket),
        }
    }
}

/// Returns whether a held reply begins as an Access-Challenge does. That spares reading all others.
fn holds_challenge<A: Allocator>(standing: &Standing<A>) -> bool
    ensures { result ≡ spec.holds_challenge (shown_standing standing.now) }
{
    let Standing::Done(done) = standing else {
        return false;
    };
    match done.reply.as_slice() {
        [first, ..] => *first == ACCESS_CHALLENGE,
        [] => false,
    }
}

/// Returns whether an entry keeps a peer's round of any State.
fn keeps_round<A: Allocator>(entry: &Entry<A>) -> bool
    ensures { result ≡ spec.keeps_round (shown entry.now) }
{
    match entry.request.requester {
        Requester::Home(_) => false,
        Requester::Peer(_) => entry.standing.kept_state().is_some(),
    }
}

/// Returns whether the conversation of an entry ends where the entry's time is over: it holds a Challenge with a State,
/// from which nobody went on.
pub fn is_left<A: Allocator>(entry: &Entry<A>) -> bool
    ensures { result ≡ spec.is_left entry.now.request.course (shown entry.now) }
{
    entry.request.course.next.is_none() && holds_challenge(&entry.standing) && keeps_round(entry)
}
