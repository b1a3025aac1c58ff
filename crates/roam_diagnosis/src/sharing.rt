//! The peers that may ask a realm, and the shares that keep one of them from taking what all of them need.

use crate::document::Located;
use crate::keys::Keys;
use crate::servers::endpoint_under;
use crate::survey::Survey;
use roam_conf::Prefix;
use toml::Value;

/// Returns whether an endpoint stands under the key, at an address of the prefix.
fn is_at(prefix: Prefix, server: Keys<'_>, key: &str) -> bool {
    match endpoint_under(server, key) {
        Some(endpoint) => prefix.has(endpoint.ip),
        None => false,
    }
}

/// Returns whether one of the realm's servers is at an address of the prefix.
fn has_server_in(realm: Keys<'_>, prefix: Prefix) -> bool {
    for item in realm.items("server") {
        if let Value::Table(server) = item {
            let server = Keys::new(server);
            if is_at(prefix, server, "auth") || is_at(prefix, server, "acct") {
                return true;
            }
        }
    }
    false
}

/// Returns whether one of the realm's servers is at an address of the prefix that a value states.
fn has_server_at(realm: Keys<'_>, value: &Value) -> bool {
    match value {
        Value::String(text) => match Prefix::from_text(text.as_str()) {
            Some(prefix) => has_server_in(realm, prefix),
            None => false,
        },
        _ => false,
    }
}

/// Returns whether one of the realm's servers is at an address of the peer.
fn is_at_server(realm: Located<'_>, peer: Located<'_>) -> bool {
    for value in peer.keys.values("ip") {
        if has_server_at(realm.keys, value) {
            return true;
        }
    }
    false
}

/// Returns whether the realm takes requests of a peer that it doesn't leave out by `peers`.
fn may_ask(realm: Located<'_>, peer: Located<'_>) -> bool {
    !realm.keys.is_set("loop_prevention") || !is_at_server(realm, peer)
}

/// The peers that were found to ask a realm, up to two of them.
#[derive(Clone, Copy)]
struct Askers<'a> {
    realm: Located<'a>,
    first: Option<Located<'a>>,
    are_several: bool,
}

impl<'a> Askers<'a> {
    fn of(realm: Located<'a>) -> Askers<'a> {
        Askers {
            realm,
            first: None,
            are_several: false,
        }
    }

    /// Counts a peer, unless it was counted or may not ask.
    fn count(&mut self, peer: Located<'a>) {
        if !may_ask(self.realm, peer) {
            return;
        }
        match self.first {
            None => self.first = Some(peer),
            Some(first) => self.are_several |= first.place != peer.place,
        }
    }

    /// Counts the peers of these names, until there are two.
    fn count_named(&mut self, survey: &Survey<'a>, names: &[Value]) {
        for name in names {
            if self.are_several {
                return;
            }
            if let Value::String(name) = name {
                if let Some(peer) = survey.names.peer(name.as_str()) {
                    self.count(peer);
                }
            }
        }
    }

    /// Counts these peers, until there are two.
    fn count_all(&mut self, peers: &[Located<'a>]) {
        for peer in peers {
            if self.are_several {
                return;
            }
            self.count(*peer);
        }
    }
}

/// Returns whether more than one peer may ask the realm.
fn may_several_ask<'a>(survey: &Survey<'a>, peers: &[Located<'a>], realm: Located<'a>) -> bool {
    let mut askers = Askers::of(realm);
    if realm.keys.has("peers") {
        askers.count_named(survey, realm.keys.items("peers"));
    } else {
        askers.count_all(peers);
    }
    askers.are_several
}

/// Returns whether one peer may take all of a realm's Identifiers from others that may ask it too.
pub(crate) fn is_unshared<'a>(
    survey: &Survey<'a>,
    peers: &[Located<'a>],
    realm: Located<'a>,
) -> bool {
    !realm.keys.has("peer_share") && may_several_ask(survey, peers, realm)
}

/// Returns whether one peer may take all of a name's share from others that may ask the realm too.
pub(crate) fn is_name_unshared<'a>(
    survey: &Survey<'a>,
    peers: &[Located<'a>],
    realm: Located<'a>,
) -> bool {
    realm.keys.has("share")
        && realm.keys.has("peer_share")
        && realm.keys.number_or("share", 0) <= realm.keys.number_or("peer_share", 0)
        && may_several_ask(survey, peers, realm)
}
