//! The index of what Disconnect- and CoA-Requests name a peer by, as it is made from the list of peers.

ghost use Rattle.std.specs.Prelude.{◌≡◌, ℕ, List, ◌≤◌, ◌^◌, IfOk, OnOk, Some, None, if◌then◌else◌, length, map};
ghost use Rattle.std.specs.Option.{option_or};
ghost use Rattle.roam_conf.specs.Duplicates.{same_if_there};
ghost use Rattle.roam_conf.specs.Index.{owners, owner_of};
ghost use Rattle.roam_conf.specs.Operators.{operator_key, same_operator_if_there};
ghost use Rattle.roam_conf.specs.Parts.{shown_peer};
ghost use Rattle.roam_conf.specs.TargetIndex.{FindsTargets};
ghost use Rattle.roam_conf.specs.Targets.{peer_with_nas_ip, peer_with_nas_ipv6, peer_with_operator, some_nas_ipv6};
ghost use Rattle.roam_conf.specs.Targets.{some_operator};

use crate::Peer;
use crate::index::{Index, note_key, row_of};
use crate::nas_index::{lengths_of, nas_of};
use crate::operators::operator_row;
use crate::target_index::TargetIndex;
use indexmap::IndexMap;
use std::alloc::{AllocError, Global};

/// Notes a peer for its NAS-IP-Address, where it has one.
fn note_nas_ip(index: &mut Index, alloc: Global, peer: &Peer, place: u16) -> Result<(), AllocError>
    ensures { OnOk result ((ip : List ℕ) → owner_of (owners index.new) ip ≡ option_or (owner_of (owners index.old) ip)
        (if same_if_there peer.now.nas_ip (Some ip) then Some place else None)) }
{
    match peer.nas_ip {
        Some(ip) => {
            let key = row_of(alloc, ip.as_slice())?;
            note_key(index, key, place)
        }
        None => Ok(()),
    }
}

/// Lists the first peer of each NAS-IP-Address.
fn nas_ips_of(alloc: Global, peers: &[Peer]) -> Result<Index, AllocError>
    requires { length peers.now ≤ 2 ^ 16 }
    ensures { IfOk result (λ index. (ip : List ℕ)
        → owner_of (owners index) ip ≡ peer_with_nas_ip (map shown_peer peers.now) ip) }
{
    let mut index = IndexMap::new(alloc);
    for (place, peer) in peers.iter().enumerate() {
        note_nas_ip(&mut index, alloc, peer, place as u16)?;
    }
    Ok(index)
}

/// Notes a peer for its NAS-IPv6-Address, where it has one.
fn note_nas_ipv6(
    index: &mut Index,
    alloc: Global,
    peer: &Peer,
    place: u16,
) -> Result<(), AllocError>
    ensures { OnOk result ((ip : List ℕ) → owner_of (owners index.new) ip ≡ option_or (owner_of (owners index.old) ip)
        (if same_if_there peer.now.nas_ipv6 (Some ip) then Some place else None)) }
{
    match peer.nas_ipv6 {
        Some(ip) => {
            let key = row_of(alloc, ip.as_slice())?;
            note_key(index, key, place)
        }
        None => Ok(()),
    }
}

/// Lists the first peer of each NAS-IPv6-Address.
fn nas_ipv6s_of(alloc: Global, peers: &[Peer]) -> Result<Index, AllocError>
    requires { length peers.now ≤ 2 ^ 16 }
    ensures { IfOk result (λ index. (ip : List ℕ)
        → owner_of (owners index) ip ≡ peer_with_nas_ipv6 (map shown_peer peers.now) ip) }
{
    let mut index = IndexMap::new(alloc);
    for (place, peer) in peers.iter().enumerate() {
        note_nas_ipv6(&mut index, alloc, peer, place as u16)?;
    }
    Ok(index)
}

/// Returns whether one of the peers has a `nas_ipv6`.
fn some_nas_ipv6(peers: &[Peer]) -> bool
    ensures { result ≡ some_nas_ipv6 (map shown_peer peers.now) }
{
    for peer in peers {
        if peer.nas_ipv6.is_some() {
            return true;
        }
    }
    false
}

/// Notes a peer for its Operator-Name, where it has one.
fn note_operator(
    index: &mut Index,
    alloc: Global,
    peer: &Peer,
    place: u16,
) -> Result<(), AllocError>
    ensures { OnOk result ((value : List ℕ) → owner_of (owners index.new) (operator_key value)
        ≡ option_or (owner_of (owners index.old) (operator_key value))
        (if same_operator_if_there (shown_peer peer.now).operator_name (Some value) then Some place else None)) }
{
    match &peer.operator_name {
        Some(value) => note_key(index, operator_row(alloc, value.as_bytes())?, place),
        None => Ok(()),
    }
}

/// Lists the first peer of each Operator-Name.
fn operators_of(alloc: Global, peers: &[Peer]) -> Result<Index, AllocError>
    requires { length peers.now ≤ 2 ^ 16 }
    ensures { IfOk result (λ index. (value : List ℕ) → owner_of (owners index) (operator_key value)
        ≡ peer_with_operator (map shown_peer peers.now) value) }
{
    let mut index = IndexMap::new(alloc);
    for (place, peer) in peers.iter().enumerate() {
        note_operator(&mut index, alloc, peer, place as u16)?;
    }
    Ok(index)
}

/// Returns whether one of the peers has an `operator_name`.
fn some_operator(peers: &[Peer]) -> bool
    ensures { result ≡ some_operator (map shown_peer peers.now) }
{
    for peer in peers {
        if peer.operator_name.is_some() {
            return true;
        }
    }
    false
}

impl TargetIndex {
    /// Makes the index of these peers.
    pub(crate) fn new(alloc: Global, peers: &[Peer]) -> Result<TargetIndex, AllocError>
        requires { length peers.now ≤ 1024 }
        ensures { IfOk result (λ index. FindsTargets index (map shown_peer peers.now)) }
    {
        let nas = nas_of(alloc, peers)?;
        let nas_ips = nas_ips_of(alloc, peers)?;
        let nas_ipv6s = nas_ipv6s_of(alloc, peers)?;
        let operators = operators_of(alloc, peers)?;
        let front_lengths = lengths_of(&nas.fronts);
        Ok(TargetIndex {
            nas,
            front_lengths,
            nas_ips,
            nas_ipv6s,
            some_nas_ipv6: some_nas_ipv6(peers),
            operators,
            some_operator: some_operator(peers),
        })
    }
}
