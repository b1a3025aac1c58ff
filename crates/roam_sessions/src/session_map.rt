//! Sessions by their tickets, each with its neighbours.

ghost use Rattle.std.specs.Prelude.{◌≡◌, ◌<◌, ◌≤◌, ◌+◌, None, Some, IsSome};
ghost use Rattle.indexmap.specs.IndexMap.{index_map_len, spare};
ghost use Rattle.roam_sessions.specs.Kept.{kept_session};
ghost use Rattle.roam_sessions.specs.Maps.{SessionsStay, links_at, session_of};
ghost use Rattle.roam_sessions.specs.Private.Links.{no_links};
ghost use Rattle.roam_wire.specs.Numbered.{PutsAt};

use crate::links::{Links, no_links};
use crate::packed_session::OpenSession;
use indexmap::IndexMap;
use std::alloc::Allocator;
use std::hash::{BuildHasherDefault, FoldHasher};

/// A session, and its neighbours in its groups.
#[derive(Drop)]
pub(crate) struct LinkedSession<A: Allocator> {
    pub(crate) session: OpenSession<A>,
    pub(crate) links: Links,
}

/// The session of each ticket. Nobody outside picks tickets.
pub(crate) type SessionMap<A> = IndexMap<u64, LinkedSession<A>, BuildHasherDefault<FoldHasher>, A>;

/// Puts a session without neighbours at a ticket that none has, where there is room. Takes no memory.
pub(crate) fn put<A: Allocator + Copy>(
    map: &mut SessionMap<A>,
    ticket: u64,
    session: OpenSession<A>,
)
    requires room { 0 < spare map.old }
    requires free { session_of map.old ticket ≡ None }
    ensures puts { PutsAt (session_of map.old) (session_of map.new) ticket (Some (kept_session session)) }
    ensures links { PutsAt (links_at map.old) (links_at map.new) ticket (Some no_links) }
    ensures len { index_map_len map.new ≡ index_map_len map.old + 1 }
    ensures room { spare map.old ≤ spare map.new + 1 }
{
    let links = no_links();
    let _old = map
        .insert(ticket, LinkedSession { session, links })
        .unwrap();
}

/// Takes the session of a ticket out, with its neighbours.
pub(crate) fn take<A: Allocator + Copy>(map: &mut SessionMap<A>, ticket: u64)
    requires { IsSome (session_of map.old ticket) }
    ensures puts { PutsAt (session_of map.old) (session_of map.new) ticket None }
    ensures links { PutsAt (links_at map.old) (links_at map.new) ticket None }
    ensures len { index_map_len map.new + 1 ≡ index_map_len map.old }
    ensures room { spare map.old ≤ spare map.new }
{
    let _session = map.swap_remove(&ticket).unwrap();
}

/// Returns all neighbours of a number.
pub(crate) fn links_of<A: Allocator + Copy>(map: &SessionMap<A>, number: u64) -> Option<Links>
    ensures { result ≡ links_at map.now number }
{
    match map.get(&number) {
        Some(linked) => Some(linked.links),
        None => None,
    }
}

/// Writes the neighbours of a number that has some.
pub(crate) fn write<A: Allocator + Copy>(map: &mut SessionMap<A>, number: u64, links: Links)
    ensures puts { IsSome (links_at map.old number)
        → PutsAt (links_at map.old) (links_at map.new) number (Some links) }
    ensures stay { SessionsStay map.old map.new }
{
    if let Some(linked) = map.get_mut(&number) {
        linked.links = links;
    }
}
