//! The servers of a kind that none of their realm's `out` has.

use crate::document::{Document, Located};
use crate::lines::Lines;
use crate::servers::{endpoint_in, endpoint_under};
use roam_conf::Endpoint;

/// Returns the word for a kind of addresses.
fn kind(is_ipv6: bool) -> &'static str {
    if is_ipv6 { "IPv6" } else { "IPv4" }
}

/// Returns whether one of the endpoints under `out` is of the kind of this one.
fn is_reached(at: Located<'_>, endpoint: Endpoint) -> bool {
    for value in at.named.values("out") {
        if let Some(out) = endpoint_in(value) {
            if out.ip.is_ipv6() == endpoint.ip.is_ipv6() {
                return true;
            }
        }
    }
    false
}

/// Says that a server's endpoint is of a kind that none of the realm's `out` has, where it is.
fn say_in_server(document: &Document<'_>, at: Located<'_>, key: &str, lines: &mut Lines) {
    match endpoint_under(at.keys, key) {
        Some(endpoint) if !is_reached(at, endpoint) && !lines.is_full() => {
            let is_ipv6 = endpoint.ip.is_ipv6();
            document.begin_line(at, key, lines);
            lines.put(": \"", endpoint, "\" is ");
            lines.put("", kind(is_ipv6), ", but out is ");
            lines.say(kind(!is_ipv6));
            lines.end_line();
        }
        _ => {}
    }
}

/// Says whether a server is where its realm's `out` sends nothing.
pub(crate) fn say_no_way_out(document: &Document<'_>, at: Located<'_>, lines: &mut Lines) {
    say_in_server(document, at, "auth", lines);
    say_in_server(document, at, "acct", lines);
}
