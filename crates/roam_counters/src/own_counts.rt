//! The counts of one thread.

ghost use Rattle.std.specs.Prelude.{◌≡◌, [], slice_get};
ghost use Rattle.roam_counters.specs.OwnCounts as spec;

use crate::cell::{Holder, Subject};
use crate::event::CountedEvent;
use crate::increments::Increment;
use std::alloc::Allocator;
use std::marker::Model;

/// A list of counts. Contracts see the counts.
#[derive(Drop)]
pub struct CountList<A: Allocator> {
    counts: Vec<u64, A>,
}

impl<A: Allocator> Model for CountList<A> {
    ghost use Rattle.std.specs.Prelude.{ℕ, List};

    ghost Value = { List ℕ };

    ghost view = { λ s. s.counts.items };
}

impl<A: Allocator> CountList<A> {
    /// Makes the list that begins with these counts.
    pub fn new(counts: Vec<u64, A>) -> CountList<A>
        ensures { result ≡ counts.items }
    {
        CountList { counts }
    }

    /// Raises the count at a place, if there is one: it begins again at 0 after 2^64 - 1. Answers what it is then.
    fn raise(&mut self, place: usize, more: u64) -> Option<u64>
        ensures list { self.new ≡ spec.raised_at self.old place more }
        ensures count { result ≡ slice_get self.new place }
    {
        match self.counts.get_mut(place) {
            Some(count) => {
                let raised = count.wrapping_add(more);
                *count = raised;
                Some(raised)
            }
            None => None,
        }
    }
}

/// Raises the count at a place of the list of this number. Answers what it is then.
fn raise_in<A: Allocator>(
    lists: &mut Vec<CountList<A>, A>,
    number: u16,
    place: usize,
    more: u64,
) -> Option<u64>
    ensures { lists.new.items ≡ spec.raised_in lists.old.items number place more }
{
    match lists.get_mut(usize::from(number)) {
        Some(list) => list.raise(place, more),
        None => None,
    }
}

/// A count as it is.
#[derive(Clone, Copy, PartialEq, Eq)]
pub struct Counted {
    pub subject: Subject,
    pub event: CountedEvent,
    pub count: u64,
}

/// The counts of one thread: the server's list, and that of each realm and of each peer, by index.
pub struct OwnCounts<A: Allocator> {
    server: CountList<A>,
    realms: Vec<CountList<A>, A>,
    peers: Vec<CountList<A>, A>,
}

// By hand, so that a proof sees one call wherever it ends, and not each of its parts.
impl<A: Allocator> Drop for OwnCounts<A> {
    fn drop(self) {
        let Self {
            server,
            realms,
            peers,
        } = self;
        drop(server);
        drop(realms);
        drop(peers);
    }
}

impl<A: Allocator> Model for OwnCounts<A> {
    ghost use Rattle.roam_counters.specs.OwnCounts.{CountsView};

    ghost Value = { CountsView };

    ghost view = { λ s. record { server = s.server; realms = s.realms.items; peers = s.peers.items } };
}

impl<A: Allocator> OwnCounts<A> {
    /// Counts that begin so.
    pub fn new(
        server: CountList<A>,
        realms: Vec<CountList<A>, A>,
        peers: Vec<CountList<A>, A>,
    ) -> OwnCounts<A>
        ensures { result ≡ record { server = server; realms = realms.items; peers = peers.items } }
    {
        OwnCounts {
            server,
            realms,
            peers,
        }
    }

    /// Raises the count at a place of a list, if there is one. Answers what it is then.
    fn raise(&mut self, holder: Holder, place: usize, more: u64) -> Option<u64>
        ensures { self.new ≡ spec.raised self.old holder place more }
    {
        match holder {
            Holder::Server => self.server.raise(place, more),
            Holder::Realm(realm) => raise_in(&mut self.realms, realm, place, more),
            Holder::Peer(peer) => raise_in(&mut self.peers, peer, place, more),
        }
    }

    /// Raises the count of an increment's event and subject by it, if it is one. Answers what it is then, if there is
    /// such a count.
    pub fn add(&mut self, increment: &Option<Increment>) -> Option<Counted>
        ensures { self.new ≡ spec.raised_by self.old increment.now }
    {
        let Some(one) = increment else {
            return None;
        };
        let place = one.subject.cell(one.event);
        match self.raise(one.subject.holder(), place, one.count) {
            Some(count) => Some(Counted {
                subject: one.subject,
                event: one.event,
                count,
            }),
            None => None,
        }
    }
}

impl<A: Allocator + Copy> OwnCounts<A> {
    /// Makes the lists without counts.
    pub fn none(alloc: A) -> OwnCounts<A>
        ensures { result ≡ record { server = []; realms = []; peers = [] } }
    {
        OwnCounts::new(
            CountList::new(Vec::new(alloc)),
            Vec::new(alloc),
            Vec::new(alloc),
        )
    }
}
