//! The peers that aren't the same in two configurations, and in which key.

ghost use Rattle.std.specs.Prelude.{IfNone, IfSome, map};
ghost use Rattle.roam_conf.specs.Parts.{shown_peer};
ghost use Rattle.roam_reload.specs.Differences.{IsOtherPeer, PeersDiffer};
ghost use Rattle.roam_reload.specs.Reload.{IsSamePeer, KeepsPeers};

use crate::keys::PeerKey;
use crate::prefixes::has_same_prefixes;
use roam_conf::Peer;

/// Returns the first key in which two tables of a peer differ, its `require_seal` and `limit_proxy_state` and the order of its
/// addresses aside.
pub fn peer_difference(old: &Peer, new: &Peer) -> Option<PeerKey>
    ensures none { IfNone result (IsSamePeer (shown_peer old.now) (shown_peer new.now)) }
    ensures some { IfSome result (PeersDiffer (shown_peer old.now) (shown_peer new.now)) }
{
    if old.gone != new.gone {
        Some(PeerKey::Gone)
    } else if old.name != new.name {
        Some(PeerKey::Name)
    } else if !has_same_prefixes(old, new) {
        Some(PeerKey::Ip)
    } else if old.secret != new.secret {
        Some(PeerKey::Secret)
    } else if old.coa != new.coa {
        Some(PeerKey::Coa)
    } else if old.nas_ip != new.nas_ip {
        Some(PeerKey::NasIp)
    } else if old.nas_ipv6 != new.nas_ipv6 {
        Some(PeerKey::NasIpv6)
    } else if old.nas_id != new.nas_id {
        Some(PeerKey::NasId)
    } else if old.nas_ids != new.nas_ids {
        Some(PeerKey::NasIds)
    } else if old.operator_name != new.operator_name {
        Some(PeerKey::OperatorName)
    } else if old.ask_cui != new.ask_cui {
        Some(PeerKey::AskCui)
    } else if old.request_without != new.request_without {
        Some(PeerKey::RequestWithout)
    } else if old.reply_without != new.reply_without {
        Some(PeerKey::ReplyWithout)
    } else {
        None
    }
}

/// Finds the first of the old peers that the new ones don't have at its index, or have there with another table. A
/// different `require_seal` or `limit_proxy_state` doesn't count.
pub fn other_peer(old: &[Peer], new: &[Peer]) -> Option<usize>
    ensures none { IfNone result (KeepsPeers (map shown_peer old.now) (map shown_peer new.now)) }
    ensures some { IfSome result (IsOtherPeer (map shown_peer old.now) (map shown_peer new.now)) }
{
    for i in 0..old.len() {
        if i >= new.len() || peer_difference(&old[i], &new[i]).is_some() {
            return Some(i);
        }
    }
    None
}
