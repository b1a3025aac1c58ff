//! Home servers, among all others and beside the broker's own sockets.

use crate::document::{Document, Located};
use crate::keys::Keys;
use crate::place::{TableKind, TablePlace};
use indexmap::{IndexMap, IndexSet};
use roam_conf::{Address, Endpoint};
use std::alloc::{AllocError, Global};
use std::hash::{BuildHasherDefault, FoldHasher};
use toml::Value;

/// Returns the endpoint that a value is, if it is one.
pub(crate) fn endpoint_in(value: &Value) -> Option<Endpoint> {
    match value {
        Value::String(text) => Endpoint::from_text(text.as_str()),
        _ => None,
    }
}

/// Returns the endpoint that stands under the key, if one does.
pub(crate) fn endpoint_under(keys: Keys<'_>, key: &str) -> Option<Endpoint> {
    endpoint_in(keys.value(key)?)
}

/// Endpoints, each once.
pub(crate) type Endpoints = IndexSet<Endpoint, BuildHasherDefault<FoldHasher>, Global>;

/// Adds the endpoints that stand under the key.
fn add_under(endpoints: &mut Endpoints, keys: Keys<'_>, key: &str) -> Result<(), AllocError> {
    for value in keys.values(key) {
        if let Some(endpoint) = endpoint_in(value) {
            endpoints.insert(endpoint)?;
        }
    }
    Ok(())
}

/// Adds the broker's own endpoints that a table states.
fn add_own(endpoints: &mut Endpoints, at: Located<'_>) -> Result<(), AllocError> {
    match at.place.kind {
        TableKind::Top => {
            add_under(endpoints, at.keys, "auth")?;
            add_under(endpoints, at.keys, "acct")
        }
        TableKind::Realm => {
            add_under(endpoints, at.keys, "out")?;
            add_under(endpoints, at.keys, "reverse")
        }
        _ => Ok(()),
    }
}

/// Returns the broker's own endpoints.
pub(crate) fn own_endpoints(document: &Document<'_>) -> Result<Endpoints, AllocError> {
    let mut endpoints = IndexSet::new(document.alloc);
    for at in document.tables.as_slice() {
        add_own(&mut endpoints, *at)?;
    }
    Ok(endpoints)
}

/// Returns whether a server's endpoint under the key is one of the broker's own.
pub(crate) fn is_own(own: &Endpoints, server: Located<'_>, key: &str) -> bool {
    match endpoint_under(server.keys, key) {
        Some(endpoint) => own.contains(&endpoint),
        None => false,
    }
}

/// The addresses and secret by which a server and the proxy know each other.
#[derive(Clone, Copy, PartialEq, Eq, Hash)]
pub(crate) struct Way {
    /// The endpoint where the server takes Access-Requests.
    auth: Endpoint,
    /// The address that the broker asks it from.
    out: Address,
}

/// The tables of servers that have one way.
#[derive(Clone, Copy)]
pub(crate) struct Known<'a> {
    first: Located<'a>,
    /// The first one that has another secret.
    other: Option<Located<'a>>,
}

/// The servers of all realms, by their ways.
pub(crate) type KnownServers<'a> = IndexMap<Way, Known<'a>, BuildHasherDefault<FoldHasher>, Global>;

/// Returns the way to a server from one of the endpoints under `out`.
fn way_from(server: Located<'_>, out: &Value) -> Option<Way> {
    let auth = endpoint_under(server.keys, "auth")?;
    Some(Way {
        auth,
        out: endpoint_in(out)?.ip,
    })
}

/// Returns what is known of a way once a server that has it was met.
fn with_server<'a>(known: Option<Known<'a>>, server: Located<'a>) -> Known<'a> {
    let Some(known) = known else {
        return Known {
            first: server,
            other: None,
        };
    };
    match known.other {
        None if !server.keys.has_secret_of(known.first.keys) => Known {
            first: known.first,
            other: Some(server),
        },
        _ => known,
    }
}

/// Notes a server, by each of its ways.
fn note_server<'a>(servers: &mut KnownServers<'a>, server: Located<'a>) -> Result<(), AllocError> {
    for out in server.named.values("out") {
        if let Some(way) = way_from(server, out) {
            let known = with_server(servers.get(&way).copied(), server);
            servers.insert(way, known)?;
        }
    }
    Ok(())
}

/// Returns the servers of all realms.
pub(crate) fn known_servers<'a>(document: &Document<'a>) -> Result<KnownServers<'a>, AllocError> {
    let mut servers = IndexMap::new(document.alloc);
    for at in document.tables.as_slice() {
        if at.place.kind == TableKind::Server {
            note_server(&mut servers, *at)?;
        }
    }
    Ok(servers)
}

/// Returns whether a server's table stands before another one's.
fn is_before(server: TablePlace, other: TablePlace) -> bool {
    server.index < other.index || (server.index == other.index && server.server < other.server)
}

/// Returns whether an earlier one of the tables has another secret than the server's.
fn has_other(known: Known<'_>, server: Located<'_>) -> bool {
    if known.first.place == server.place {
        return false;
    }
    if !server.keys.has_secret_of(known.first.keys) {
        return true;
    }
    match known.other {
        Some(other) => is_before(other.place, server.place),
        None => false,
    }
}

/// Returns whether an earlier table is of the same server, asked from the same address, with another secret.
pub(crate) fn has_other_secret(servers: &KnownServers<'_>, server: Located<'_>) -> bool {
    for out in server.named.values("out") {
        if let Some(way) = way_from(server, out) {
            if let Some(known) = servers.get(&way) {
                if has_other(*known, server) {
                    return true;
                }
            }
        }
    }
    false
}
