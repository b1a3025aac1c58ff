//! The sessions that a realm's Disconnect- and CoA-Requests may name, and what of that is unwise.

use crate::document::Located;

/// Returns whether a realm remembers sessions: so many as it says, or some where it says nothing and takes reverse
/// requests.
fn remembers(at: Located<'_>) -> bool {
    let default = match at.keys.has("reverse") {
        true => 20000,
        false => 0,
    };
    let is_forwarded = match at.keys.text("accounting") {
        Some(accounting) => accounting == "forward",
        None => true,
    };
    is_forwarded && at.keys.number_or("max_sessions", default) > 0
}

/// Returns whether reverse requests have to name a session of the realm's own, and none is ever there.
pub(crate) fn are_never_there(at: Located<'_>) -> bool {
    at.keys.is_set("own_sessions") && !remembers(at)
}

/// Returns whether reverse requests that come may name a session of another realm.
pub(crate) fn may_be_others(at: Located<'_>) -> bool {
    at.keys.has("reverse") && !at.keys.is_set("own_sessions") && remembers(at)
}
