//! The sessions of a peer by the names of their access servers: by none of them, by some, by all; and by their ids.

ghost use Rattle.std.specs.Prelude.{◌≡◌, ℕ, ◌+◌, ◌<◌, ◌≤◌, List, Option, None, Some, IsSome, OnOk, false, filter};
ghost use Rattle.std.specs.Prelude.{is_some, length, option_map};
ghost use Rattle.roam_sessions.specs.Facets.{AreFaceted, ComesIn, FacetsHaveRoom, facet_of};
ghost use Rattle.roam_sessions.specs.Private.Groups.{Goes, IsGrouped, IsLargest};
ghost use Rattle.roam_sessions.specs.Private.Row.{row_text};
ghost use Rattle.roam_sessions.specs.Private.Tickets.{IsOneOf, NoneBefore, all_listed};
ghost use Rattle.roam_sessions.specs.Sessions.{Session, agrees};
ghost use Rattle.roam_sessions.specs.Kept.{kept_session, shown_asked, shown_session};
ghost use Rattle.roam_sessions.specs.Maps.{HasRoom, ends_at, groups_of, linked_by, session_of};
ghost use Rattle.roam_sessions.specs.declared.links.Facet.{Facet};
ghost use Rattle.roam_sessions.specs.declared.neighbours.Beside.{Beside};
ghost use Rattle.indexmap.specs.IndexMap.{index_map_len, spare};
ghost use Rattle.roam_wire.specs.Numbered.{PutsAt};

use crate::asked::{AskedRef, SessionRef};
use crate::bucket_ends::{BucketEnds, reserve_buckets};
use crate::bucketed::{enter_bucket, leave_bucket};
use crate::buckets::Buckets;
use crate::ends::{GroupEnds, count_in, oldest_in, oldest_of_largest, reserve_ends};
use crate::groups::Groups;
use crate::linked::{join, part};
use crate::links::Facet;
use crate::open_session::NewSession;
use crate::row::Row;
use crate::session_map::{SessionMap, put, take};
use crate::session_rows::mask;
use indexmap::IndexMap;
use roam_crypto::HashKey;
use roam_wire::NoMemory;
use std::alloc::Allocator;

/// Tickets of sessions in groups: by the peer, by the peer and some of the access server's names, where a session has
/// them; by the bucket of the peer and the id, and by the bucket of all parts.
pub(crate) struct Facets<A: Allocator> {
    pub(crate) by_peer: GroupEnds<A>,
    pub(crate) by_address: GroupEnds<A>,
    pub(crate) by_identifier: GroupEnds<A>,
    pub(crate) by_both: GroupEnds<A>,
    pub(crate) by_ipv6: Groups<A>,
    pub(crate) by_address_ipv6: Groups<A>,
    pub(crate) by_identifier_ipv6: Groups<A>,
    pub(crate) by_all: Groups<A>,
    pub(crate) by_id: BucketEnds<A>,
    pub(crate) by_whole: BucketEnds<A>,
    pub(crate) buckets: Buckets,
}

// By hand, so that a proof sees one call wherever they end, and not each of their maps.
impl<A: Allocator> Drop for Facets<A> {
    fn drop(self) {
        let Self {
            by_peer,
            by_address,
            by_identifier,
            by_both,
            by_ipv6,
            by_address_ipv6,
            by_identifier_ipv6,
            by_all,
            by_id,
            by_whole,
            buckets: _,
        } = self;
        drop(by_peer);
        drop(by_address);
        drop(by_identifier);
        drop(by_both);
        drop(by_ipv6);
        drop(by_address_ipv6);
        drop(by_identifier_ipv6);
        drop(by_all);
        drop(by_id);
        drop(by_whole);
    }
}

impl<A: Allocator + Copy> Groups<A> {
    /// Takes a ticket out of the group of what its session is asked for, if it is in one.
    fn leave(&mut self, ticket: u64, asked: Option<AskedRef<'_>>)
        ensures grouped { (f g : ℕ → Option (List ℕ)) → IsGrouped f (groups_of self.old)
            → Goes f g ticket (option_map row_text (option_map shown_asked asked.entry))
            → IsGrouped g (groups_of self.new) }
        ensures room { (n : ℕ) → HasRoom n self.old → HasRoom n self.new }
    {
        if let Some(asked) = asked {
            self.remove(ticket, Row::of(asked).as_slice());
        }
    }
}

impl<A: Allocator + Copy> Facets<A> {
    /// Makes the groups without sessions, for at most so many. Takes no memory.
    pub(crate) fn new(alloc: A, key: HashKey, limit: u32) -> Facets<A>
        ensures { (F : ℕ → Option Session) (b : Facet → ℕ → Option Beside) → ((t : ℕ) → F t ≡ None)
            → AreFaceted F result b }
    {
        Facets {
            by_peer: IndexMap::with_hasher(alloc, key),
            by_address: IndexMap::with_hasher(alloc, key),
            by_identifier: IndexMap::with_hasher(alloc, key),
            by_both: IndexMap::with_hasher(alloc, key),
            by_ipv6: Groups::new(alloc, key),
            by_address_ipv6: Groups::new(alloc, key),
            by_identifier_ipv6: Groups::new(alloc, key),
            by_all: Groups::new(alloc, key),
            by_id: IndexMap::new(alloc),
            by_whole: IndexMap::new(alloc),
            buckets: Buckets::for_limit(key, limit),
        }
    }

    /// Makes room for one session more. Nothing changes.
    pub(crate) fn reserve(&mut self) -> Result<(), NoMemory>
        ensures ok { OnOk result (FacetsHaveRoom 1 self.new) }
        ensures room { (n : ℕ) → FacetsHaveRoom n self.old → FacetsHaveRoom n self.new }
        ensures same { (F : ℕ → Option Session) (b : Facet → ℕ → Option Beside) → AreFaceted F self.old b
            → AreFaceted F self.new b }
    {
        reserve_ends(&mut self.by_peer)?;
        reserve_ends(&mut self.by_address)?;
        reserve_ends(&mut self.by_identifier)?;
        reserve_ends(&mut self.by_both)?;
        reserve_buckets(&mut self.by_id)?;
        reserve_buckets(&mut self.by_whole)?;
        self.by_ipv6.reserve()?;
        self.by_address_ipv6.reserve()?;
        self.by_identifier_ipv6.reserve()?;
        self.by_all.reserve()
    }

    /// Puts a session with its rows and in its buckets last, where there is room. Takes no memory.
    pub(crate) fn append(&mut self, map: &mut SessionMap<A>, ticket: u64, new: NewSession<A>)
        requires facets { FacetsHaveRoom 1 self.old }
        requires room { 0 < spare map.old }
        requires free { session_of map.old ticket ≡ None }
        ensures faceted { (F G : ℕ → Option Session) → AreFaceted F self.old (linked_by map.old)
            → ComesIn F G ticket (kept_session new.session) → AreFaceted G self.new (linked_by map.new) }
        ensures sessions { PutsAt (session_of map.old) (session_of map.new) ticket (Some (kept_session new.session)) }
        ensures len { index_map_len map.new ≡ index_map_len map.old + 1 }
        ensures room { (n : ℕ) → FacetsHaveRoom (n + 1) self.old → FacetsHaveRoom n self.new }
        ensures map_room { spare map.old ≤ spare map.new + 1 }
    {
        let places = self.buckets.places(new.session.lend());
        let rows = new.of_peer;
        put(map, ticket, new.session);
        join(&mut self.by_peer, map, Facet::Peer, ticket, rows.by_peer);
        join(
            &mut self.by_address,
            map,
            Facet::Address,
            ticket,
            rows.by_address,
        );
        join(
            &mut self.by_identifier,
            map,
            Facet::Identifier,
            ticket,
            rows.by_identifier,
        );
        join(&mut self.by_both, map, Facet::Both, ticket, rows.by_both);
        enter_bucket(&mut self.by_id, map, Facet::Id, ticket, places.id);
        enter_bucket(&mut self.by_whole, map, Facet::Whole, ticket, places.whole);
        self.by_ipv6.append(ticket, rows.by_ipv6);
        self.by_address_ipv6.append(ticket, rows.by_address_ipv6);
        self.by_identifier_ipv6
            .append(ticket, rows.by_identifier_ipv6);
        self.by_all.append(ticket, rows.by_all);
    }

    /// Takes the session of a ticket out, which is this one.
    pub(crate) fn remove(&mut self, map: &mut SessionMap<A>, ticket: u64, session: SessionRef<'_>)
        requires { IsSome (session_of map.old ticket) }
        ensures faceted { (F G : ℕ → Option Session) → AreFaceted F self.old (linked_by map.old)
            → F ticket ≡ Some (shown_session session.entry) → PutsAt F G ticket None
            → AreFaceted G self.new (linked_by map.new) }
        ensures sessions { PutsAt (session_of map.old) (session_of map.new) ticket None }
        ensures len { index_map_len map.new + 1 ≡ index_map_len map.old }
        ensures room { (n : ℕ) → FacetsHaveRoom n self.old → FacetsHaveRoom n self.new }
        ensures map_room { spare map.old ≤ spare map.new }
    {
        let by_peer = session.narrowed(mask(false, false, false, false));
        part(&mut self.by_peer, map, Facet::Peer, ticket, by_peer);
        let by_address = session.narrowed(mask(true, false, false, false));
        part(
            &mut self.by_address,
            map,
            Facet::Address,
            ticket,
            by_address,
        );
        let by_identifier = session.narrowed(mask(false, true, false, false));
        part(
            &mut self.by_identifier,
            map,
            Facet::Identifier,
            ticket,
            by_identifier,
        );
        let by_both = session.narrowed(mask(true, true, false, false));
        part(&mut self.by_both, map, Facet::Both, ticket, by_both);
        let places = self.buckets.places(session);
        leave_bucket(&mut self.by_id, map, Facet::Id, ticket, places.id);
        leave_bucket(&mut self.by_whole, map, Facet::Whole, ticket, places.whole);
        self.by_ipv6
            .leave(ticket, session.narrowed(mask(false, false, true, false)));
        self.by_address_ipv6
            .leave(ticket, session.narrowed(mask(true, false, true, false)));
        self.by_identifier_ipv6
            .leave(ticket, session.narrowed(mask(false, true, true, false)));
        self.by_all
            .leave(ticket, session.narrowed(mask(true, true, true, false)));
        take(map, ticket);
    }

    /// Returns the ends of the groups in which sessions are found by the names that are asked for.
    fn ends_for(&self, asked: AskedRef<'_>) -> &GroupEnds<A>
        ensures { ends_at result.now ≡ facet_of (shown_asked asked.entry) self.now }
    {
        match (asked.nas.address, asked.nas.identifier, asked.nas.ipv6) {
            (None, None, None) => &self.by_peer,
            (Some(_), None, None) => &self.by_address,
            (None, Some(_), None) => &self.by_identifier,
            (Some(_), Some(_), None) => &self.by_both,
            (None, None, Some(_)) => &self.by_ipv6.ends,
            (Some(_), None, Some(_)) => &self.by_address_ipv6.ends,
            (None, Some(_), Some(_)) => &self.by_identifier_ipv6.ends,
            (Some(_), Some(_), Some(_)) => &self.by_all.ends,
        }
    }

    /// Returns how many sessions agree with what is asked, which names no id.
    pub(crate) fn count(&self, asked: AskedRef<'_>) -> usize
        ensures { (F : ℕ → Option Session) (b : Facet → ℕ → Option Beside) → AreFaceted F self.now b
            → is_some (shown_asked asked.entry).id ≡ false
            → result ≡ length (filter (agrees (shown_asked asked.entry)) (all_listed F)) }
    {
        count_in(self.ends_for(asked), Row::of(asked).as_slice())
    }

    /// Finds the ticket of the oldest session that agrees with what is asked, which names no id.
    pub(crate) fn oldest(&self, asked: AskedRef<'_>) -> Option<u64>
        ensures agrees { (F : ℕ → Option Session) (b : Facet → ℕ → Option Beside) → AreFaceted F self.now b
            → is_some (shown_asked asked.entry).id ≡ false
            → IsOneOf (agrees (shown_asked asked.entry)) F result }
        ensures first { (F : ℕ → Option Session) (b : Facet → ℕ → Option Beside) → AreFaceted F self.now b
            → is_some (shown_asked asked.entry).id ≡ false
            → NoneBefore (agrees (shown_asked asked.entry)) F result }
    {
        oldest_in(self.ends_for(asked), Row::of(asked).as_slice())
    }

    /// Finds the ticket of the oldest session of the peer that has most. Where several peers have most, it is the
    /// oldest of all theirs.
    pub(crate) fn oldest_of_most(&self) -> Option<u64>
        ensures { (beside : ℕ → Option Beside)
            → IsLargest (record { ends = ends_at self.now.by_peer; beside = beside }) result }
    {
        oldest_of_largest(&self.by_peer)
    }
}
