//! Values that are legal, and most likely a slip: seconds for milliseconds, ports that are turned round.

use crate::document::Located;
use crate::lines::Lines;
use crate::quoted::quote_rest;
use crate::servers::endpoint_in;
use toml::Value;

/// Returns the number under the key, where it is so small that seconds are meant.
pub(crate) fn seconds_under(at: Located<'_>, key: &str) -> Option<u64> {
    match at.keys.number_or(key, 0) {
        0 => None,
        number if number < 100 => Some(number),
        _ => None,
    }
}

/// Says the number of milliseconds that is meant.
pub(crate) fn say_milliseconds(at: Located<'_>, key: &str, lines: &mut Lines) {
    if let Some(number) = seconds_under(at, key) {
        lines.put(": did you mean ", number.saturating_mul(1000), "?");
    }
}

/// Returns the first text under the key that begins with a dot.
pub(crate) fn dotted_under<'a>(at: Located<'a>, key: &str) -> Option<&'a str> {
    for item in at.keys.items(key) {
        if let Value::String(text) = item {
            if text.as_str().starts_with('.') {
                return Some(text.as_str());
            }
        }
    }
    None
}

/// Says the text that begins with a dot, with a `*` in front.
pub(crate) fn say_starred(at: Located<'_>, key: &str, lines: &mut Lines) {
    if let Some(text) = dotted_under(at, key) {
        lines.say(": did you mean \"*");
        quote_rest(text, "?", lines);
    }
}

/// Returns whether an endpoint under the key has the port.
pub(crate) fn has_port(at: Located<'_>, key: &str, port: u16) -> bool {
    for value in at.keys.values(key) {
        if let Some(endpoint) = endpoint_in(value) {
            if endpoint.port == port {
                return true;
            }
        }
    }
    false
}

/// Returns whether a path that isn't absolute stands under the key.
pub(crate) fn is_relative(at: Located<'_>, key: &str) -> bool {
    match at.keys.text(key) {
        Some(path) => !path.starts_with('/'),
        None => false,
    }
}
