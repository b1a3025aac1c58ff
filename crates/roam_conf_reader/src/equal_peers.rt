//! The peers that may not stand beside each other in a configuration.

ghost use Rattle.std.specs.Prelude.{◌≡◌, IfOk, map};
ghost use Rattle.std.specs.List.{list_any};
ghost use Rattle.roam_conf.specs.Duplicates.{has_pair, same_if_there, same_peer, has_duplicate_peer};
ghost use Rattle.roam_conf.specs.Operators.{same_operator_if_there};
ghost use Rattle.roam_conf.specs.Parts.{shown_peer};
ghost use Rattle.roam_conf_reader.specs.Reading.{IsMemoryFault};

use crate::ConfFault;
use crate::duplicates::from_place;
use roam_conf::{Peer, has_duplicate_nas_text, has_duplicate_prefix, is_same_operator};
use std::alloc::Global;

fn have_same_ipv6(a: Option<[u8; 16]>, b: Option<[u8; 16]>) -> bool
    ensures { result ≡ same_if_there a b }
{
    match (a, b) {
        (Some(a), Some(b)) => a == b,
        _ => false,
    }
}

fn have_same_ip(a: Option<[u8; 4]>, b: Option<[u8; 4]>) -> bool
    ensures { result ≡ same_if_there a b }
{
    match (a, b) {
        (Some(a), Some(b)) => a == b,
        _ => false,
    }
}

fn have_same_operator(a: &Peer, b: &Peer) -> bool
    ensures { result ≡ same_operator_if_there (shown_peer a.now).operator_name (shown_peer b.now).operator_name }
{
    match (&a.operator_name, &b.operator_name) {
        (Some(a), Some(b)) => is_same_operator(a.as_bytes(), b.as_bytes()),
        _ => false,
    }
}

fn is_same_peer(a: &Peer, b: &Peer) -> bool
    ensures { result ≡ same_peer (shown_peer a.now) (shown_peer b.now) }
{
    !a.gone
        && !b.gone
        && (a.name.as_str() == b.name.as_str()
            || have_same_ip(a.nas_ip, b.nas_ip)
            || have_same_ipv6(a.nas_ipv6, b.nas_ipv6)
            || have_same_operator(a, b))
}

fn is_among_peers(peer: &Peer, others: &[Peer]) -> bool
    ensures { result ≡ list_any (same_peer (shown_peer peer.now)) (map shown_peer others.now) }
{
    for other in others {
        if is_same_peer(peer, other) {
            return true;
        }
    }
    false
}

/// Returns whether two peers that are here are equal in their name, NAS-IP-Address or NAS-IPv6-Address, or have
/// Operator-Names that mean the same.
fn has_equal_peers(peers: &[Peer]) -> bool
    ensures { result ≡ has_pair same_peer (map shown_peer peers.now) }
{
    for i in 0..peers.len() {
        if is_among_peers(&peers[i], from_place(peers, i + 1)) {
            return true;
        }
    }
    false
}

/// Returns whether two peers are, or two of their prefixes or of the texts among their NAS-Identifiers are equal.
#[tactic(auto, unfolding(roam_conf::specs::Duplicates::has_duplicate_peer))]
pub(crate) fn has_duplicate_peer(alloc: Global, peers: &[Peer]) -> Result<bool, ConfFault>
    ensures ok { IfOk result (λ b. b ≡ has_duplicate_peer (map shown_peer peers.now)) }
    ensures causes { IsMemoryFault result }
{
    if has_equal_peers(peers) {
        return Ok(true);
    }
    if has_duplicate_prefix(alloc, peers)? {
        return Ok(true);
    }
    Ok(has_duplicate_nas_text(alloc, peers)?)
}
