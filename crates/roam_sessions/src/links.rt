//! The neighbours of numbers in their groups of five facets, all of a number in one place.

ghost use Rattle.std.specs.Prelude.{◌≡◌, ◌≢◌, ℕ, None, Some, option_and_then, option_map};
ghost use Rattle.roam_sessions.specs.Private.Groups.{newer_at, with_newer_at, with_older_at};
ghost use Rattle.roam_sessions.specs.Private.Links.{link_of, no_links, no_number, with_link, written};
ghost use Rattle.roam_sessions.specs.Maps.{OthersStay, SessionsStay, linked_at};

use crate::neighbours::Beside;
use crate::session_map::{SessionMap, links_of, write};
use std::alloc::Allocator;

/// The parts by which sessions are grouped most: the peer, the peer and the address or the identifier of the access
/// server or both; and the buckets of the peer and the id, and of all parts.
#[derive(Clone, Copy)]
pub(crate) enum Facet {
    Peer,
    Address,
    Identifier,
    Both,
    Id,
    Whole,
}

/// The next older and the next newer number of a group; 2^64 - 1 where there is none.
#[derive(Clone, Copy)]
pub(crate) struct Link {
    pub(crate) older: u64,
    pub(crate) newer: u64,
}

/// The neighbours of a number in its group of each facet.
#[derive(Clone, Copy)]
pub(crate) struct Links {
    pub(crate) peer: Link,
    pub(crate) address: Link,
    pub(crate) identifier: Link,
    pub(crate) both: Link,
    pub(crate) id: Link,
    pub(crate) whole: Link,
}

/// Returns no neighbours in any group.
pub(crate) fn no_links() -> Links
    ensures { result ≡ no_links }
{
    let none = Link {
        older: u64::MAX,
        newer: u64::MAX,
    };
    Links {
        peer: none,
        address: none,
        identifier: none,
        both: none,
        id: none,
        whole: none,
    }
}

/// Writes a number, or that there is none.
fn word_of(number: Option<u64>) -> u64
    ensures { number ≢ Some no_number → written result ≡ number }
{
    match number {
        None => u64::MAX,
        Some(number) => number,
    }
}

/// Returns the number that is written so, if one is.
#[tactic(auto, unfolding(crate::specs::Private::Links::no_number))]
fn written(word: u64) -> Option<u64>
    ensures { result ≡ written word }
{
    if word == u64::MAX { None } else { Some(word) }
}

/// Returns the neighbours in the group of a facet.
fn link_of(links: Links, facet: Facet) -> Link
    ensures { result ≡ link_of facet links }
{
    match facet {
        Facet::Peer => links.peer,
        Facet::Address => links.address,
        Facet::Identifier => links.identifier,
        Facet::Both => links.both,
        Facet::Id => links.id,
        Facet::Whole => links.whole,
    }
}

/// Returns the neighbours with others in the group of a facet.
fn with_link(links: Links, facet: Facet, link: Link) -> Links
    ensures { result ≡ with_link facet link links }
{
    let mut linked = links;
    match facet {
        Facet::Peer => linked.peer = link,
        Facet::Address => linked.address = link,
        Facet::Identifier => linked.identifier = link,
        Facet::Both => linked.both = link,
        Facet::Id => linked.id = link,
        Facet::Whole => linked.whole = link,
    }
    linked
}

/// Returns the neighbours of a number in its group of a facet.
pub(crate) fn beside_in<A: Allocator + Copy>(
    map: &SessionMap<A>,
    facet: Facet,
    number: u64,
) -> Option<Beside>
    ensures { result ≡ linked_at facet map.now number }
{
    let Some(links) = links_of(map, number) else {
        return None;
    };
    let link = link_of(links, facet);
    Some(Beside {
        older: written(link.older),
        newer: written(link.newer),
    })
}

/// Gives a number, if there is one, this newer neighbour in its group of a facet from now on.
pub(crate) fn link_newer<A: Allocator + Copy>(
    map: &mut SessionMap<A>,
    facet: Facet,
    at: Option<u64>,
    newer: Option<u64>,
)
    ensures numbers { newer ≢ Some no_number → (u : ℕ) → linked_at facet map.new u
        ≡ option_map (with_newer_at at newer u) (linked_at facet map.old u) }
    ensures others { OthersStay facet map.old map.new }
    ensures stay { SessionsStay map.old map.new }
{
    let Some(number) = at else {
        return;
    };
    let Some(links) = links_of(map, number) else {
        return;
    };
    let link = Link {
        older: link_of(links, facet).older,
        newer: word_of(newer),
    };
    write(map, number, with_link(links, facet, link));
}

/// Gives a number, if there is one, this older neighbour in its group of a facet from now on.
pub(crate) fn link_older<A: Allocator + Copy>(
    map: &mut SessionMap<A>,
    facet: Facet,
    at: Option<u64>,
    older: Option<u64>,
)
    ensures numbers { older ≢ Some no_number → (u : ℕ) → linked_at facet map.new u
        ≡ option_map (with_older_at at older u) (linked_at facet map.old u) }
    ensures others { OthersStay facet map.old map.new }
    ensures stay { SessionsStay map.old map.new }
{
    let Some(number) = at else {
        return;
    };
    let Some(links) = links_of(map, number) else {
        return;
    };
    let link = Link {
        older: word_of(older),
        newer: link_of(links, facet).newer,
    };
    write(map, number, with_link(links, facet, link));
}

/// Returns the next newer number of the group of a facet, of a number that may not be given.
pub(crate) fn newer_in<A: Allocator + Copy>(
    map: &SessionMap<A>,
    facet: Facet,
    number: Option<u64>,
) -> Option<u64>
    ensures { result ≡ option_and_then (newer_at (linked_at facet map.now)) number }
{
    let Some(number) = number else {
        return None;
    };
    match beside_in(map, facet, number) {
        Some(beside) => beside.newer,
        None => None,
    }
}
