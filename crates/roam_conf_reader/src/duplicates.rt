//! The values that may not stand twice in a configuration.
//!
//! What may be many is found by an index: names and patterns of realms, prefixes of peers, NAS-Identifiers, the sockets
//! of the broker, and the endpoints of peers among those of all servers. The other searches compare all pairs: of at
//! most 1024 peers, 8 `coa_client`s of a realm, and 16 endpoints of one realm's servers.

ghost use Rattle.std.specs.Prelude.{◌≡◌, ◌≤◌, ◌+◌, ◌++◌, ◌||◌, Some, None, IfOk, OnOk, false, length, map, drop};
ghost use Rattle.std.specs.List.{list_any};
ghost use Rattle.roam_conf.specs.Duplicates.{has_pair, same_endpoint, is_among, is_there_among, same_client, has_pair_of_servers};
ghost use Rattle.roam_conf.specs.Duplicates.{own_endpoints, realm_endpoints, server_endpoints, coa_endpoints, some_server_at};
ghost use Rattle.roam_conf.specs.Duplicates.{has_duplicate_endpoint, has_duplicate_server};
ghost use Rattle.roam_conf.specs.Duplicates.{has_duplicate_link};
ghost use Rattle.roam_conf.specs.Parts.{shown_server, shown_client, shown_peer, shown_realm};
ghost use Rattle.roam_conf.specs.Shown.{shown_parts};
ghost use Rattle.roam_conf_reader.specs.Faults.{first_duplicate};
ghost use Rattle.roam_conf_reader.specs.Reading.{IsMemoryFault};

use crate::ConfFault;
use crate::endpoint_set::{EndpointSet, is_in, set_of};
use crate::equal_peers::has_duplicate_peer;
use roam_conf::{
    CoaClient, ConfigParts, Endpoint, Peer, Realm, Server, has_duplicate_realm, has_no_way_out,
    has_unknown_peer, is_same_endpoint,
};
use std::alloc::Global;

/// Returns the items from a place on.
pub(crate) fn from_place<T>(items: &[T], place: usize) -> &[T]
    requires { place ≤ length items.now }
    ensures { result.now ≡ drop place items.now }
{
    items.split_at(place).1
}

/// Returns whether the endpoint is one of these.
fn is_among(endpoints: &[Endpoint], endpoint: Endpoint) -> bool
    ensures { result ≡ is_among endpoints.now endpoint }
{
    endpoints
        .iter()
        .any(|other| is_same_endpoint(endpoint, *other))
}

/// Returns whether two of the endpoints are equal.
fn has_equal_endpoints(endpoints: &[Endpoint]) -> bool
    ensures { result ≡ has_pair same_endpoint endpoints.now }
{
    for i in 0..endpoints.len() {
        if is_among(from_place(endpoints, i + 1), endpoints[i]) {
            return true;
        }
    }
    false
}

/// Adds endpoints.
fn push_all(endpoints: &mut Vec<Endpoint>, more: &[Endpoint]) -> Result<(), ConfFault>
    ensures ok { OnOk result (endpoints.new.items ≡ endpoints.old.items ++ more.now) }
    ensures causes { IsMemoryFault result }
{
    endpoints.extend_from_slice(more)?;
    Ok(())
}

/// Pushes the endpoints of a realm's sockets, if it is here.
fn push_realm(endpoints: &mut Vec<Endpoint>, realm: &Realm) -> Result<(), ConfFault>
    ensures ok { OnOk result (endpoints.new.items
        ≡ endpoints.old.items ++ realm_endpoints (shown_realm realm.now)) }
    ensures causes { IsMemoryFault result }
{
    if realm.gone {
        return Ok(());
    }
    push_all(endpoints, realm.out.as_slice())?;
    push_all(endpoints, realm.reverse.as_slice())
}

/// Lists the endpoints of the broker's own sockets.
fn own_endpoints(
    alloc: Global,
    auth: &[Endpoint],
    acct: &[Endpoint],
    realms: &[Realm],
) -> Result<Vec<Endpoint>, ConfFault>
    ensures ok { IfOk result (λ v. v.items ≡ own_endpoints auth.now acct.now (map shown_realm realms.now)) }
    ensures causes { IsMemoryFault result }
{
    let mut endpoints = Vec::new(alloc);
    push_all(&mut endpoints, auth)?;
    push_all(&mut endpoints, acct)?;
    for realm in realms {
        push_realm(&mut endpoints, realm)?;
    }
    Ok(endpoints)
}

/// Lists the endpoints of a realm's servers.
fn server_endpoints(alloc: Global, servers: &[Server]) -> Result<Vec<Endpoint>, ConfFault>
    ensures ok { IfOk result (λ v. v.items ≡ server_endpoints (map shown_server servers.now)) }
    ensures causes { IsMemoryFault result }
{
    let mut endpoints = Vec::new(alloc);
    for server in servers {
        if let Some(auth) = server.auth {
            endpoints.push(auth)?;
        }
        if let Some(acct) = server.acct {
            endpoints.push(acct)?;
        }
    }
    Ok(endpoints)
}

/// Lists the endpoints of those peers that take Disconnect- and CoA-Requests.
fn coa_endpoints(alloc: Global, peers: &[Peer]) -> Result<Vec<Endpoint>, ConfFault>
    ensures ok { IfOk result (λ v. v.items ≡ coa_endpoints (map shown_peer peers.now)) }
    ensures causes { IsMemoryFault result }
{
    let mut endpoints = Vec::new(alloc);
    for peer in peers {
        if let Some(coa) = peer.coa {
            endpoints.push(coa)?;
        }
    }
    Ok(endpoints)
}

/// Returns whether an endpoint is there, and one of these.
fn is_there_in(endpoints: &EndpointSet, endpoint: Option<Endpoint>) -> bool
    ensures { result ≡ is_there_among endpoints.now.keys endpoint }
{
    match endpoint {
        Some(endpoint) => is_in(endpoints, endpoint),
        None => false,
    }
}

/// Returns whether one of the servers is at one of the endpoints.
fn some_server_at(endpoints: &EndpointSet, servers: &[Server]) -> bool
    ensures { result ≡ some_server_at endpoints.now.keys (map shown_server servers.now) }
{
    for server in servers {
        if is_there_in(endpoints, server.auth) || is_there_in(endpoints, server.acct) {
            return true;
        }
    }
    false
}

/// Returns whether one of the realms has a server at one of the endpoints.
fn some_realm_at(endpoints: &EndpointSet, realms: &[Realm]) -> bool
    ensures { result ≡ list_any (λ realm. some_server_at endpoints.now.keys realm.servers)
        (map shown_realm realms.now) }
{
    for realm in realms {
        if some_server_at(endpoints, realm.servers.as_slice()) {
            return true;
        }
    }
    false
}

/// Returns whether two of the broker's own sockets are at one endpoint.
#[tactic(auto, unfolding(roam_conf::specs::Duplicates::has_duplicate_endpoint))]
fn has_duplicate_endpoint(
    alloc: Global,
    auth: &[Endpoint],
    acct: &[Endpoint],
    realms: &[Realm],
) -> Result<bool, ConfFault>
    ensures ok { IfOk result (λ b. b ≡ has_duplicate_endpoint auth.now acct.now (map shown_realm realms.now)) }
    ensures causes { IsMemoryFault result }
{
    let endpoints = own_endpoints(alloc, auth, acct, realms)?;
    let set = set_of(alloc, endpoints.as_slice())?;
    Ok(set.is_none())
}

fn is_among_clients(client: &CoaClient, others: &[CoaClient]) -> bool
    ensures { result ≡ list_any (same_client (shown_client client.now)) (map shown_client others.now) }
{
    for other in others {
        if client.ip == other.ip {
            return true;
        }
    }
    false
}

/// Returns whether two of the `coa_client`s have one address.
fn has_equal_clients(clients: &[CoaClient]) -> bool
    ensures { result ≡ has_pair same_client (map shown_client clients.now) }
{
    for i in 0..clients.len() {
        if is_among_clients(&clients[i], from_place(clients, i + 1)) {
            return true;
        }
    }
    false
}

/// Returns whether two endpoints of a realm's servers are equal, or two addresses of its `coa_client`s.
fn has_pair_of_servers(alloc: Global, realm: &Realm) -> Result<bool, ConfFault>
    ensures ok { IfOk result (λ b. b ≡ has_pair_of_servers (shown_realm realm.now)) }
    ensures causes { IsMemoryFault result }
{
    let endpoints = server_endpoints(alloc, realm.servers.as_slice())?;
    let clients = realm.coa_clients.as_slice();
    Ok(has_equal_endpoints(endpoints.as_slice()) || has_equal_clients(clients))
}

/// Returns whether that is so of one of the realms.
#[tactic(auto, unfolding(roam_conf::specs::Duplicates::has_duplicate_server))]
fn has_duplicate_server(alloc: Global, realms: &[Realm]) -> Result<bool, ConfFault>
    ensures ok { IfOk result (λ b. b ≡ has_duplicate_server (map shown_realm realms.now)) }
    ensures causes { IsMemoryFault result }
{
    for realm in realms {
        if has_pair_of_servers(alloc, realm)? {
            return Ok(true);
        }
    }
    Ok(false)
}

/// Returns whether two peers take reverse requests at one endpoint, or a peer at a server's.
#[tactic(auto, unfolding(roam_conf::specs::Duplicates::has_duplicate_link))]
fn has_duplicate_link(alloc: Global, peers: &[Peer], realms: &[Realm]) -> Result<bool, ConfFault>
    ensures ok { IfOk result
        (λ b. b ≡ has_duplicate_link (map shown_peer peers.now) (map shown_realm realms.now)) }
    ensures causes { IsMemoryFault result }
{
    let coas = coa_endpoints(alloc, peers)?;
    match set_of(alloc, coas.as_slice())? {
        Some(set) => Ok(some_realm_at(&set, realms)),
        None => Ok(true),
    }
}

/// Finds the first duplicate that is there, in the order of the faults, or else that a server is where its realm's
/// `out` sends nothing, or that a peer is named that isn't there.
#[tactic(auto, unfolding(crate::specs::Faults::first_duplicate))]
pub(crate) fn first_duplicate(
    alloc: Global,
    parts: &ConfigParts,
) -> Result<Option<ConfFault>, ConfFault>
    ensures ok { IfOk result (λ f. f ≡ first_duplicate (shown_parts parts.now)) }
    ensures causes { IsMemoryFault result }
{
    let peers = parts.peers.as_slice();
    let realms = parts.realms.as_slice();
    if has_duplicate_realm(alloc, realms, parts.reject.as_slice())? {
        return Ok(Some(ConfFault::DuplicateRealm));
    }
    if has_duplicate_peer(alloc, peers)? {
        return Ok(Some(ConfFault::DuplicatePeer));
    }
    if has_duplicate_endpoint(alloc, parts.auth.as_slice(), parts.acct.as_slice(), realms)? {
        return Ok(Some(ConfFault::DuplicateEndpoint));
    }
    if has_duplicate_server(alloc, realms)? {
        return Ok(Some(ConfFault::DuplicateServer));
    }
    if has_duplicate_link(alloc, peers, realms)? {
        return Ok(Some(ConfFault::DuplicateLink));
    }
    if has_no_way_out(realms) {
        return Ok(Some(ConfFault::NoWayOut));
    }
    if has_unknown_peer(alloc, peers, realms)? {
        return Ok(Some(ConfFault::UnknownPeer));
    }
    Ok(None)
}
