//! The parts that stay the same between two tables, as far as what waits, what is held and what is open depends on it.

ghost use Rattle.std.specs.Prelude.{◌≡◌, ◌≤◌, length, map, option_map, slice_get};
ghost use Rattle.roam_conf.specs.Duplicates.{same_endpoint};
ghost use Rattle.roam_conf.specs.Lookup.{first_place};
ghost use Rattle.roam_conf.specs.Parts.{shown_peer, shown_realm, shown_server};
ghost use Rattle.roam_reload.specs.Kept.{both_or_none, keeps_coa, keeps_secret, keeps_sessions, of_peer};
ghost use Rattle.roam_reload.specs.Kept.{same_out, same_outs, same_server, same_servers, server_then, stays};

use roam_conf::{Endpoint, Peer, Realm, Server, is_same_endpoint};

/// Returns whether one that was here still is.
fn stays(old: &Peer, new: &Peer) -> bool
    ensures { result ≡ stays (shown_peer old.now).gone (shown_peer new.now).gone }
{
    old.gone || !new.gone
}

/// Returns whether both are equal, or neither is there.
fn is_same_if_any(a: Option<Endpoint>, b: Option<Endpoint>) -> bool
    ensures { result ≡ both_or_none same_endpoint a b }
{
    match (a, b) {
        (Some(a), Some(b)) => is_same_endpoint(a, b),
        (None, None) => true,
        _ => false,
    }
}

/// Returns whether a peer that was here still is, with the same secret.
fn keeps_secret(old: &Peer, new: &Peer) -> bool
    ensures { result ≡ keeps_secret (shown_peer old.now) (shown_peer new.now) }
{
    stays(old, new) && old.secret == new.secret
}

/// Returns whether what waits at a peer's `coa` stays.
fn keeps_coa(old: &Peer, new: &Peer) -> bool
    ensures { result ≡ keeps_coa (shown_peer old.now) (shown_peer new.now) }
{
    stays(old, new) && is_same_if_any(old.coa, new.coa) && old.secret == new.secret
}

/// Returns the peer of an index, where there is one.
fn peer_at(peers: &[Peer], peer: u16) -> Option<&Peer>
    ensures { option_map (λ p. shown_peer p.now) result ≡ slice_get (map shown_peer peers.now) peer }
{
    peers.get(usize::from(peer))
}

/// Returns whether the peer of an index still is here, with the same secret: without that none of its requests stays.
pub fn peer_keeps_secret(old: &[Peer], new: &[Peer], peer: u16) -> bool
    ensures { result ≡ of_peer keeps_secret (map shown_peer old.now) (map shown_peer new.now) peer }
{
    match (peer_at(old, peer), peer_at(new, peer)) {
        (Some(old), Some(new)) => keeps_secret(old, new),
        (None, _) => true,
        (Some(_), None) => false,
    }
}

/// Returns whether what waits at the `coa` of the peer of an index stays.
pub fn peer_keeps_coa(old: &[Peer], new: &[Peer], peer: u16) -> bool
    ensures { result ≡ of_peer keeps_coa (map shown_peer old.now) (map shown_peer new.now) peer }
{
    match (peer_at(old, peer), peer_at(new, peer)) {
        (Some(old), Some(new)) => keeps_coa(old, new),
        (None, _) => true,
        (Some(_), None) => false,
    }
}

/// Returns whether the sessions of the peer of an index stay.
pub fn peer_keeps_sessions(old: &[Peer], new: &[Peer], peer: u16) -> bool
    ensures { result ≡ of_peer keeps_sessions (map shown_peer old.now) (map shown_peer new.now) peer }
{
    match (peer_at(old, peer), peer_at(new, peer)) {
        (Some(old), Some(new)) => stays(old, new),
        (None, _) => true,
        (Some(_), None) => false,
    }
}

/// Returns whether two tables are of the same server.
fn is_same_server(a: &Server, b: &Server) -> bool
    ensures { result ≡ same_server (shown_server a.now) (shown_server b.now) }
{
    is_same_if_any(a.auth, b.auth) && is_same_if_any(a.acct, b.acct) && a.secret == b.secret
}

/// Returns the server of a place, where there is one.
fn server_at(servers: &[Server], server: u8) -> Option<&Server>
    ensures { option_map (λ s. shown_server s.now) result ≡ slice_get (map shown_server servers.now) server }
{
    servers.get(usize::from(server))
}

/// Returns whether the same server, or none, stands at a place in both.
fn stands_there(old: &[Server], new: &[Server], server: u8) -> bool
    ensures { result ≡ both_or_none same_server (slice_get (map shown_server old.now) server)
        (slice_get (map shown_server new.now) server) }
{
    match (server_at(old, server), server_at(new, server)) {
        (Some(old), Some(new)) => is_same_server(old, new),
        (None, None) => true,
        _ => false,
    }
}

/// Returns whether all servers stand where they stood.
pub fn has_same_servers(old: &Realm, new: &Realm) -> bool
    ensures { result ≡ same_servers (shown_realm old.now).servers (shown_realm new.now).servers }
{
    if old.servers.len() != new.servers.len() {
        return false;
    }
    for place in 0..old.servers.len() {
        if !is_same_server(&old.servers[place], &new.servers[place]) {
            return false;
        }
    }
    true
}

/// Finds the first place of a server.
fn place_of(server: &Server, servers: &[Server]) -> Option<u8>
    requires { length servers.now ≤ 8 }
    ensures { result ≡ first_place (same_server (shown_server server.now)) (map shown_server servers.now) }
{
    for (place, other) in servers.iter().enumerate() {
        if is_same_server(server, other) {
            return Some(place as u8);
        }
    }
    None
}

/// Returns the place where a server of the old realm stands in the new one, if it does.
pub fn server_then(old: &Realm, new: &Realm, server: u8) -> Option<u8>
    ensures { result ≡ server_then (shown_realm old.now).servers (shown_realm new.now).servers server }
{
    if stands_there(old.servers.as_slice(), new.servers.as_slice(), server) {
        return Some(server);
    }
    match server_at(old.servers.as_slice(), server) {
        Some(server) => place_of(server, new.servers.as_slice()),
        None => None,
    }
}

/// Returns the `out` of a place, where there is one.
fn out_at(realm: &Realm, out: u8) -> Option<Endpoint>
    ensures { result ≡ slice_get (shown_realm realm.now).out out }
{
    match realm.out.get(usize::from(out)) {
        Some(endpoint) => Some(*endpoint),
        None => None,
    }
}

/// Returns whether what a realm forwards by the `out` of this place leaves from the same endpoint.
pub fn is_same_out(old: &Realm, new: &Realm, out: u8) -> bool
    ensures { result ≡ same_out (shown_realm old.now) (shown_realm new.now) out }
{
    match (out_at(old, out), out_at(new, out)) {
        (Some(old), Some(new)) => is_same_endpoint(old, new),
        (None, None) => true,
        _ => false,
    }
}

/// Returns whether it does by each of them.
pub fn has_same_outs(old: &Realm, new: &Realm) -> bool
    ensures { result ≡ same_outs (shown_realm old.now) (shown_realm new.now) }
{
    if old.out.len() != new.out.len() {
        return false;
    }
    for place in 0..old.out.len() {
        if !is_same_endpoint(old.out[place], new.out[place]) {
            return false;
        }
    }
    true
}
