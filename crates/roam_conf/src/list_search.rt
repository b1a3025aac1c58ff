//! The place of what is looked for, in a list of the configuration.

ghost use Rattle.std.specs.Prelude.{◌≡◌, ◌<◌, ◌^◌, IfSome, false, length, map, option_map};
ghost use Rattle.std.specs.Option.{option_map_or};
ghost use Rattle.roam_address.specs.Same.{same_address};
ghost use Rattle.roam_conf.specs.Lookup.{client_with_ip, server_with_ip, first_place, is_there, is_coa};
ghost use Rattle.roam_conf.specs.Parts.{shown_client, shown_server, shown_peer};

use crate::comparison::is_same_endpoint;
use crate::{Address, CoaClient, Endpoint, Link, Peer, Server};

/// Returns whether the endpoint is there, and at the address.
fn is_at(ip: Address, endpoint: Option<Endpoint>) -> bool
    ensures { result ≡ option_map_or (λ e. same_address e.ip ip) endpoint false }
{
    match endpoint {
        Some(endpoint) => endpoint.ip == ip,
        None => false,
    }
}

/// Finds the first server that has the address in one of its endpoints.
#[tactic(auto, unfolding(crate::specs::Lookup::server_with_ip))]
pub(crate) fn server_with_ip(servers: &[Server], ip: Address) -> Option<usize>
    ensures value { result ≡ server_with_ip (map shown_server servers.now) ip }
    ensures bound { IfSome result (λ i. i < length servers.now) }
{
    for place in 0..servers.len() {
        if is_at(ip, servers[place].auth) || is_at(ip, servers[place].acct) {
            return Some(place);
        }
    }
    None
}

/// Finds the first `coa_client` that has the address.
#[tactic(auto, unfolding(crate::specs::Lookup::client_with_ip))]
pub(crate) fn client_with_ip(clients: &[CoaClient], ip: Address) -> Option<usize>
    ensures value { result ≡ client_with_ip (map shown_client clients.now) ip }
    ensures bound { IfSome result (λ i. i < length clients.now) }
{
    for (i, client) in clients.iter().enumerate() {
        if client.ip == ip {
            return Some(i);
        }
    }
    None
}

fn is_there(endpoint: Endpoint, other: Option<Endpoint>) -> bool
    ensures { result ≡ is_there endpoint other }
{
    match other {
        Some(other) => is_same_endpoint(other, endpoint),
        None => false,
    }
}

/// Finds the first server that takes Access-Requests at the endpoint.
pub(crate) fn auth_at(servers: &[Server], endpoint: Endpoint) -> Option<usize>
    ensures value { result ≡ first_place (λ server. is_there endpoint server.auth)
        (map shown_server servers.now) }
    ensures bound { IfSome result (λ i. i < length servers.now) }
{
    for (i, server) in servers.iter().enumerate() {
        if is_there(endpoint, server.auth) {
            return Some(i);
        }
    }
    None
}

/// Finds the first server that takes Accounting-Requests at the endpoint.
pub(crate) fn acct_at(servers: &[Server], endpoint: Endpoint) -> Option<usize>
    ensures value { result ≡ first_place (λ server. is_there endpoint server.acct)
        (map shown_server servers.now) }
    ensures bound { IfSome result (λ i. i < length servers.now) }
{
    for (i, server) in servers.iter().enumerate() {
        if is_there(endpoint, server.acct) {
            return Some(i);
        }
    }
    None
}

/// Finds the first peer that takes Disconnect- and CoA-Requests at the endpoint.
pub(crate) fn coa_at(peers: &[Peer], endpoint: Endpoint) -> Option<usize>
    ensures value { result ≡ first_place (is_coa endpoint) (map shown_peer peers.now) }
    ensures bound { IfSome result (λ i. i < length peers.now) }
{
    for (i, peer) in peers.iter().enumerate() {
        if is_there(endpoint, peer.coa) {
            return Some(i);
        }
    }
    None
}

/// Returns the link to the peer of this index, by the `out` of this place, if there is a peer.
pub(crate) fn link_to_peer(peer: Option<usize>, out: u8) -> Option<Link>
    requires { IfSome peer (λ i. i < 2 ^ 16) }
    ensures { result ≡ option_map (λ i. Link.Coa i out) peer }
{
    match peer {
        Some(peer) => Some(Link::Coa(peer as u16, out)),
        None => None,
    }
}
