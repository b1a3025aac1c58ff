//! The secret that everybody knows, at addresses from which others may send.

use crate::document::Located;
use roam_conf::{Address, Endpoint, Prefix};
use toml::Value;

/// Returns whether an address is of this machine: of 127.0.0.0/8, or ::1.
fn is_local(address: Address) -> bool {
    match address.ipv4_octets() {
        Some(octets) => octets[0] == 127,
        None => address.number() == 1,
    }
}

/// Returns whether another machine may have an address that the text states: a prefix, or an endpoint.
fn is_elsewhere(text: &str) -> bool {
    if let Some(endpoint) = Endpoint::from_text(text) {
        return !is_local(endpoint.ip);
    }
    match Prefix::from_text(text) {
        Some(prefix) => prefix.length() < 8 || !is_local(prefix.network()),
        None => false,
    }
}

/// Returns whether a value is such a text.
fn says_elsewhere(value: &Value) -> bool {
    match value {
        Value::String(text) => is_elsewhere(text.as_str()),
        _ => false,
    }
}

/// Returns whether a table has the secret that everybody knows beside an address that another machine may have.
pub(crate) fn is_known_elsewhere(at: Located<'_>) -> bool {
    for key in ["ip", "auth", "acct"] {
        for value in at.keys.values(key) {
            if says_elsewhere(value) {
                return at.keys.has_known_secret();
            }
        }
    }
    false
}
