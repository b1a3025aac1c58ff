//! The peer of an address, by the longest prefix.

ghost use Rattle.std.specs.Prelude.{◌≡◌, ◌≤◌, ◌^◌, ◌++◌, IfOk, MatchOption, OnOk, length, map, false, true, replicate};
ghost use Rattle.std.specs.Prelude.{slice_get};
ghost use Rattle.roam_address.specs.Stands.{StandsFor};
ghost use Rattle.roam_conf.specs.Duplicates.{has_duplicate_peer, has_duplicate_prefix};
ghost use Rattle.roam_conf.specs.Parts.{shown_peer};
ghost use Rattle.roam_conf.specs.PeerIndex.{FindsPeers, prefixes_in, places_in};

use crate::{Address, Peer, Prefix};
use roam_address::PrefixIndex;
use std::alloc::{AllocError, Global};

/// The prefixes of the peers that are here, in their order, and for each the index of its peer.
#[derive(Drop)]
pub(crate) struct PeerIndex {
    pub(crate) prefixes: PrefixIndex<Global>,
    pub(crate) places: Vec<u16>,
}

/// Lists the prefixes of the peers that aren't gone, in their order.
fn prefixes_of(alloc: Global, peers: &[Peer]) -> Result<Vec<Prefix>, AllocError>
    ensures { IfOk result (λ prefixes. prefixes.items ≡ prefixes_in peers.now) }
{
    let mut prefixes = Vec::new(alloc);
    for peer in peers {
        if !peer.gone {
            prefixes.extend_from_slice(peer.ips.as_slice())?;
        }
    }
    Ok(prefixes)
}

/// Adds an index so many times.
fn push_each(places: &mut Vec<u16>, place: u16, count: usize) -> Result<(), AllocError>
    ensures { OnOk result (places.new.items ≡ places.old.items ++ replicate count place) }
{
    for _ in 0..count {
        places.push(place)?;
    }
    Ok(())
}

/// Returns the index of its peer for each prefix of the peers that are here.
fn places_of(alloc: Global, peers: &[Peer]) -> Result<Vec<u16>, AllocError>
    requires { length peers.now ≤ 2 ^ 16 }
    ensures { IfOk result (λ places. places.items ≡ places_in 0 peers.now) }
{
    let mut places = Vec::new(alloc);
    for (place, peer) in peers.iter().enumerate() {
        if !peer.gone {
            push_each(&mut places, place as u16, peer.ips.len())?;
        }
    }
    Ok(places)
}

/// Returns the index of the prefixes of the peers that are here; none where two of them are the same.
fn index_if_distinct(
    alloc: Global,
    peers: &[Peer],
) -> Result<Option<PrefixIndex<Global>>, AllocError>
    ensures { IfOk result (λ made. MatchOption made (has_duplicate_prefix (map shown_peer peers.now) ≡ true)
        (λ index. StandsFor index (prefixes_in peers.now)
        × (has_duplicate_prefix (map shown_peer peers.now) ≡ false))) }
{
    let prefixes = prefixes_of(alloc, peers)?;
    PrefixIndex::new(alloc, prefixes.as_slice())
}

/// Returns whether two prefixes of the peers that are here are the same, at a cost that grows with their number alone.
pub fn has_duplicate_prefix(alloc: Global, peers: &[Peer]) -> Result<bool, AllocError>
    ensures { IfOk result (λ b. b ≡ has_duplicate_prefix (map shown_peer peers.now)) }
{
    match index_if_distinct(alloc, peers)? {
        Some(_) => Ok(false),
        None => Ok(true),
    }
}

/// Makes the index of the prefixes of the peers that aren't gone, of which no two are the same.
#[tactic(auto, using(crate::proofs::PrefixLemmas::not_twice))]
fn index_of(alloc: Global, peers: &[Peer]) -> Result<PrefixIndex<Global>, AllocError>
    requires { has_duplicate_peer (map shown_peer peers.now) ≡ false }
    ensures { IfOk result (λ index. StandsFor index (prefixes_in peers.now)) }
{
    match index_if_distinct(alloc, peers)? {
        Some(index) => Ok(index),
        None => unreachable!(),
    }
}

/// Returns the index at a place, where there is one.
fn index_at(indexes: &[u16], place: usize) -> Option<u16>
    ensures { result ≡ slice_get indexes.now place }
{
    match indexes.get(place) {
        Some(index) => Some(*index),
        None => None,
    }
}

impl PeerIndex {
    ghost use Rattle.std.specs.Prelude.{List};
    ghost use Rattle.roam_conf.specs.Lookup.{peer_with_ip};
    ghost use Rattle.roam_conf.specs.declared.peer.Peer.{Peer};

    /// Makes the index of these peers.
    pub(crate) fn new(alloc: Global, peers: &[Peer]) -> Result<PeerIndex, AllocError>
        requires few { length peers.now ≤ 2 ^ 16 }
        requires distinct { has_duplicate_peer (map shown_peer peers.now) ≡ false }
        ensures { IfOk result (λ index. FindsPeers index peers.now) }
    {
        let prefixes = index_of(alloc, peers)?;
        let places = places_of(alloc, peers)?;
        Ok(PeerIndex { prefixes, places })
    }

    /// Returns the index of the peer that has the longest of the prefixes that have the address.
    pub(crate) fn longest(&self, ip: Address) -> Option<u16>
        ensures { (peers : List Peer) → FindsPeers self.now peers → has_duplicate_peer (map shown_peer peers) ≡ false
            → result ≡ peer_with_ip (map shown_peer peers) ip }
    {
        match self.prefixes.longest(ip) {
            Some(place) => index_at(self.places.as_slice(), place),
            None => None,
        }
    }
}
