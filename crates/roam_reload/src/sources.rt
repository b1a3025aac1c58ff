//! The sources of a realm's Disconnect- and CoA-Requests that are the same in two tables.

ghost use Rattle.std.specs.Prelude.{◌≡◌, option_map};
ghost use Rattle.roam_conf.specs.Parts.{shown_client, shown_realm, shown_server};
ghost use Rattle.roam_conf.specs.Secrets.{home_secret};
ghost use Rattle.roam_reload.specs.Kept.{both_or_none, client_source, closes_reverse, home_at, home_then, same_source};
ghost use Rattle.roam_reload.specs.Kept.{ip_of, server_source, source, takes_reverse};
ghost use Rattle.roam_reload.specs.Sources.{shown_source};

use roam_conf::{Address, CoaClient, Endpoint, Realm, Server};

/// A source of reverse requests: its address or those of its `auth` and of its `acct`, and the secret shared with it.
#[derive(Clone, Copy)]
struct SourceRef<'a> {
    ip: Option<Address>,
    other_ip: Option<Address>,
    secret: &'a [u8],
}

/// Returns the address of an endpoint that may be there.
fn ip_of(endpoint: Option<Endpoint>) -> Option<Address>
    ensures { result ≡ ip_of endpoint }
{
    match endpoint {
        Some(endpoint) => Some(endpoint.ip),
        None => None,
    }
}

fn server_source(server: &Server) -> SourceRef<'_>
    ensures { shown_source result ≡ server_source (shown_server server.now) }
{
    SourceRef {
        ip: ip_of(server.auth),
        other_ip: ip_of(server.acct),
        secret: server.secret().octets(),
    }
}

fn client_source(client: &CoaClient) -> SourceRef<'_>
    ensures { shown_source result ≡ client_source (shown_client client.now) }
{
    SourceRef {
        ip: Some(client.ip),
        other_ip: None,
        secret: client.secret().octets(),
    }
}

/// Returns the source of a number: a server or, behind the servers, a `coa_client`.
fn source_of(realm: &Realm, home: u8) -> Option<SourceRef<'_>>
    ensures { option_map shown_source result ≡ source (shown_realm realm.now) home }
{
    let home = usize::from(home);
    if home < realm.servers.len() {
        return Some(server_source(&realm.servers[home]));
    }
    match realm.coa_clients.get(home - realm.servers.len()) {
        Some(client) => Some(client_source(client)),
        None => None,
    }
}

/// Returns whether both sources are there and the same, or neither is.
fn is_same_source(old: Option<SourceRef<'_>>, new: Option<SourceRef<'_>>) -> bool
    ensures { result
        ≡ both_or_none same_source (option_map shown_source old.entry) (option_map shown_source new.entry) }
{
    match (old, new) {
        (Some(old), Some(new)) => {
            old.ip == new.ip && old.other_ip == new.other_ip && old.secret == new.secret
        }
        (None, None) => true,
        _ => false,
    }
}

/// Returns whether a realm takes reverse requests.
fn takes_reverse(realm: &Realm) -> bool
    ensures { result ≡ takes_reverse (shown_realm realm.now) }
{
    !realm.reverse.is_empty()
}

/// Returns whether a realm takes reverse requests no more.
fn closes_reverse(old: &Realm, new: &Realm) -> bool
    ensures { result ≡ closes_reverse (shown_realm old.now) (shown_realm new.now) }
{
    takes_reverse(old) && !takes_reverse(new)
}

/// Returns the secret shared with the source of a number, and no octets where there is no such source.
fn secret_of(realm: &Realm, home: u8) -> &[u8]
    ensures { result.now ≡ home_secret (shown_realm realm.now) home }
{
    match source_of(realm, home) {
        Some(source) => source.secret,
        None => b"",
    }
}

/// Finds the source at an address, if the secret shared with it is that of a source of the old realm.
fn home_at(old: &Realm, new: &Realm, ip: Address, home: u8) -> Option<u8>
    ensures { result ≡ home_at (shown_realm new.now) ip (home_secret (shown_realm old.now) home) }
{
    let there = new.home_with_ip(ip)?;
    if secret_of(new, there) == secret_of(old, home) {
        Some(there)
    } else {
        None
    }
}

/// Finds the source of the new realm that a source of the old one is, whose request came from this address. Returns
/// `None` where its requests don't stay.
pub fn home_then(old: &Realm, new: &Realm, ip: Address, home: u8) -> Option<u8>
    ensures { result ≡ home_then (shown_realm old.now) (shown_realm new.now) ip home }
{
    if closes_reverse(old, new) {
        return None;
    }
    if is_same_source(source_of(old, home), source_of(new, home)) {
        return Some(home);
    }
    home_at(old, new, ip, home)
}
