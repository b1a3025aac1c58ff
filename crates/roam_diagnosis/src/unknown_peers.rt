//! The peers that a realm names and that aren't there.

use crate::document::{Document, Located};
use crate::lines::Lines;
use crate::peer_names::PeerNames;
use crate::place::TableKind;
use crate::quoted::quote;
use toml::Value;

/// Says that a realm names a peer that isn't there, and the peer that differs from it in case only.
fn say(
    document: &Document<'_>,
    at: Located<'_>,
    name: &str,
    nearest: Option<&str>,
    lines: &mut Lines,
) {
    document.begin_line(at, "peers", lines);
    quote(": ", name, " is no peer's name", lines);
    if let Some(other) = nearest {
        quote(", but ", other, " is", lines);
    }
    lines.end_line();
}

/// Says that a realm names a peer that isn't there, unless it is.
fn say_unless_there(
    document: &Document<'_>,
    names: &PeerNames<'_>,
    at: Located<'_>,
    name: &str,
    lines: &mut Lines,
) {
    match names.nearest(name) {
        Ok(nearest) if nearest == Some(name) || lines.is_full() => {}
        Ok(nearest) => say(document, at, name, nearest, lines),
        Err(_) => lines.fail(),
    }
}

/// Says which peers a realm names that aren't there.
fn say_of_realm(
    document: &Document<'_>,
    names: &PeerNames<'_>,
    at: Located<'_>,
    lines: &mut Lines,
) {
    for item in at.keys.items("peers") {
        if let Value::String(name) = item {
            say_unless_there(document, names, at, name.as_str(), lines);
        }
    }
}

/// Says which peers the realms name that aren't there.
fn say_of_realms(document: &Document<'_>, names: &PeerNames<'_>, lines: &mut Lines) {
    for at in document.tables.as_slice() {
        if at.place.kind == TableKind::Realm && !lines.is_full() {
            say_of_realm(document, names, *at, lines);
        }
    }
}

/// Says which peers are named that aren't there.
pub(crate) fn say_unknown_peers(document: &Document<'_>, lines: &mut Lines) {
    match PeerNames::new(document) {
        Ok(names) => say_of_realms(document, &names, lines),
        Err(_) => lines.fail(),
    }
}
