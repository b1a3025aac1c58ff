//! The entry that keeps a round of a conversation: a Challenge that is held, with its State.

ghost use Rattle.std.specs.Prelude.{◌≡◌, option_map};
ghost use Rattle.std.specs.Option.{option_or};
ghost use Rattle.roam_pending.specs.Conversations.{challenge_state, if_round, is_round, kept_link, kept_state};
ghost use Rattle.roam_pending.specs.Conversations.{last_round};
ghost use Rattle.roam_pending.specs.Shown.{seen, shown, shown_all, shown_standing};

use crate::entry::{Entry, Standing};
use crate::key::Requester;
use roam_conf::Link;
use roam_wire::View;
use roam_wire::attribute_type::STATE;
use roam_wire::code::ACCESS_CHALLENGE;
use std::alloc::Allocator;

/// Returns the State of a held reply: the first one of an Access-Challenge (RFC 2865, section 5.24). Takes one pass.
#[tactic(auto, unfolding(crate::specs::Conversations::challenge_state))]
pub fn challenge_state(reply: &[u8]) -> Option<&[u8]>
    ensures { option_map (λ state. state.now) result ≡ challenge_state reply.entry.now }
{
    match View::read(reply) {
        Err(_) => None,
        Ok(view) => {
            if view.code() == ACCESS_CHALLENGE {
                view.first(STATE)
            } else {
                None
            }
        }
    }
}

impl<A: Allocator> Standing<A> {
    /// Returns the State that an entry keeps which stands so: that of the Challenge that came from a link.
    pub fn kept_state(&self) -> Option<&[u8]>
        ensures { option_map (λ state. state.now) result ≡ kept_state (shown_standing self.entry.now) }
    {
        let Standing::Done(done) = self else {
            return None;
        };
        match done.from {
            None => None,
            Some(_) => challenge_state(done.reply.as_slice()),
        }
    }

    /// Returns the link from which the reply came that is held, if it came from one.
    pub fn kept_link(&self) -> Option<Link>
        ensures { result ≡ kept_link (shown_standing self.now) }
    {
        match self {
            Standing::Waiting(_) => None,
            Standing::Done(done) => done.from,
        }
    }
}

/// Returns whether an entry keeps a peer's round of this State.
pub fn is_round<A: Allocator>(entry: &Entry<A>, peer: u16, state: &[u8]) -> bool
    ensures { result ≡ is_round peer state.now (shown entry.now) }
{
    let Requester::Peer(own) = entry.request.requester else {
        return false;
    };
    match entry.standing.kept_state() {
        None => false,
        Some(kept) => own == peer && kept == state,
    }
}

/// Returns this entry, where it keeps a peer's round of this State, else the last before it.
fn later<'a, A: Allocator>(
    entry: &'a Entry<A>,
    peer: u16,
    state: &[u8],
    last: Option<&'a Entry<A>>,
) -> Option<&'a Entry<A>>
    ensures { seen result ≡ option_or (if_round peer state.now (shown entry.entry.now)) (seen last.entry) }
{
    if is_round(entry, peer, state) {
        Some(entry)
    } else {
        last
    }
}

/// Finds the last entry that keeps a peer's round of this State.
pub(crate) fn round_in<'a, A: Allocator>(
    entries: &'a [Entry<A>],
    peer: u16,
    state: &[u8],
) -> Option<&'a Entry<A>>
    ensures { seen result ≡ last_round peer state.now (shown_all entries.entry.now) }
{
    let mut last = None;
    for entry in entries {
        last = later(entry, peer, state, last);
    }
    last
}
