//! A session of a ledger, found in its bucket.

ghost use Rattle.std.specs.Prelude.{◌≡◌, is_some, option_and_then, option_map};
ghost use Rattle.roam_sessions.specs.Kept.{kept_session, shown_session};
ghost use Rattle.roam_sessions.specs.Private.Buckets.{same_at};
ghost use Rattle.roam_sessions.specs.Private.Tickets.{IsTicketOf};
ghost use Rattle.roam_sessions.specs.Sessions.{same_part, same_session};
ghost use Rattle.roam_sessions.specs.Short.{shown_short};
ghost use Rattle.roam_sessions.specs.Stands.{IsSound, session_at};

use crate::asked::SessionRef;
use crate::bucket_ends::{count_of, oldest_of};
use crate::chain::Chain;
use crate::links::{Facet, newer_in};
use crate::open_session::NewSession;
use crate::row::Row;
use crate::short::Short;
use std::alloc::Allocator;

/// Returns whether two names are one, or neither is there.
fn is_same_part(a: Option<Short<'_>>, b: Option<Short<'_>>) -> bool
    ensures { result ≡ same_part (option_map shown_short a.entry) (option_map shown_short b.entry) }
{
    match (a, b) {
        (None, None) => true,
        (Some(a), Some(b)) => a.octets == b.octets,
        _ => false,
    }
}

/// Returns whether two sessions are one.
fn is_same(a: SessionRef<'_>, b: SessionRef<'_>) -> bool
    ensures { result ≡ same_session (shown_session a.entry) (shown_session b.entry) }
{
    a.peer == b.peer
        && is_same_part(a.nas.address, b.nas.address)
        && is_same_part(a.nas.identifier, b.nas.identifier)
        && is_same_part(a.nas.ipv6, b.nas.ipv6)
        && a.id.octets == b.id.octets
}

impl<A: Allocator + Copy> Chain<A> {
    /// Returns whether the session of a ticket, if one is given, is this one.
    fn is_at(&self, ticket: Option<u64>, session: SessionRef<'_>) -> bool
        ensures { result
            ≡ is_some (option_and_then (same_at (shown_session session.entry) (session_at self.now)) ticket) }
    {
        let Some(ticket) = ticket else {
            return false;
        };
        match self.session(ticket) {
            Some(other) => is_same(session, other),
            None => false,
        }
    }

    /// Finds the ticket of a session. Looks at the sessions of one bucket.
    pub(crate) fn find(&self, session: SessionRef<'_>) -> Option<u64>
        ensures { IsSound self.now → IsTicketOf (shown_session session.entry) (session_at self.now) result }
    {
        let row = Row::of(session.asked());
        let bucket = self.of_peer.buckets.of(row.as_slice());
        let mut at = oldest_of(&self.of_peer.by_whole, bucket);
        for i in 0..count_of(&self.of_peer.by_whole, bucket) {
            if self.is_at(at, session) {
                return at;
            }
            at = newer_in(&self.by_ticket, Facet::Whole, at);
        }
        None
    }

    /// Finds the ticket of a session that is to be opened, where it is there.
    pub(crate) fn find_new(&self, new: &NewSession<A>) -> Option<u64>
        ensures { IsSound self.now → IsTicketOf (kept_session new.now.session) (session_at self.now) result }
    {
        self.find(new.session.lend())
    }
}
