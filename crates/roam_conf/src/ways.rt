//! The endpoints that a realm's sockets send to. None of this takes memory.

ghost use Rattle.std.specs.Prelude.{◌≡◌, ◌≤◌, map};
ghost use Rattle.std.specs.List.{count_by, list_all};
ghost use Rattle.roam_conf.specs.Parts.{shown_peer, shown_realm, shown_server};
ghost use Rattle.roam_conf.specs.Ways.{same_kind, is_reached_at, is_reached_if_there, is_reached, is_way, is_coa_reached};
ghost use Rattle.roam_conf.specs.Ways.{has_no_way_out};

use crate::{Endpoint, Peer, Realm, Server};

/// Returns whether both are at addresses of IPv4, or both of IPv6.
pub fn is_same_kind(a: Endpoint, b: Endpoint) -> bool
    ensures { result ≡ same_kind a b }
{
    if a.ip.is_ipv6() {
        b.ip.is_ipv6()
    } else {
        !b.ip.is_ipv6()
    }
}

/// Returns whether one of the sockets sends to the endpoint.
fn is_reached_at(outs: &[Endpoint], endpoint: Endpoint) -> bool
    ensures { result ≡ is_reached_at outs.now endpoint }
{
    for out in outs {
        if is_same_kind(*out, endpoint) {
            return true;
        }
    }
    false
}

/// Returns whether one of them does to what is there.
fn is_reached_if_there(outs: &[Endpoint], endpoint: Option<Endpoint>) -> bool
    ensures { result ≡ is_reached_if_there outs.now endpoint }
{
    match endpoint {
        Some(endpoint) => is_reached_at(outs, endpoint),
        None => true,
    }
}

/// Returns whether the sockets send to all endpoints of these servers.
fn are_reached(outs: &[Endpoint], servers: &[Server]) -> bool
    ensures { result ≡ list_all (is_reached outs.now) (map shown_server servers.now) }
{
    for server in servers {
        if !(is_reached_if_there(outs, server.auth) && is_reached_if_there(outs, server.acct)) {
            return false;
        }
    }
    true
}

/// Returns whether some realm has a server to which none of its `out` sends.
#[tactic(auto, unfolding(crate::specs::Ways::has_no_way_out))]
pub fn has_no_way_out(realms: &[Realm]) -> bool
    ensures { result ≡ has_no_way_out (map shown_realm realms.now) }
{
    for realm in realms {
        if !are_reached(realm.out.as_slice(), realm.servers.as_slice()) {
            return true;
        }
    }
    false
}

impl Realm {
    /// Returns whether one of the realm's `out` sends to where the peer takes reverse requests, if it does anywhere.
    pub(crate) fn is_coa_reached(&self, peer: &Peer) -> bool
        ensures { result ≡ is_coa_reached (shown_realm self.now) (shown_peer peer.now) }
    {
        is_reached_if_there(self.out.as_slice(), peer.coa)
    }

    /// Returns whether the realm's `out` of this place is there, and sends to the endpoint.
    pub fn is_way(&self, out: usize, endpoint: Endpoint) -> bool
        ensures { result ≡ is_way (shown_realm self.now).out out endpoint }
    {
        match self.out.get(out) {
            Some(out) => is_same_kind(*out, endpoint),
            None => false,
        }
    }

    /// Returns how many of the realm's `out` send to the endpoint.
    pub fn way_count(&self, endpoint: Endpoint) -> usize
        ensures count { result ≡ count_by (λ out. same_kind out endpoint) (shown_realm self.now).out }
        ensures few { result ≤ 16 }
    {
        let mut count = 0;
        for out in &self.out {
            if is_same_kind(*out, endpoint) {
                count += 1;
            }
        }
        count
    }
}
