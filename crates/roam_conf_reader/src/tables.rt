//! The keys of the tables of a document.

ghost use Rattle.std.specs.Prelude.{◌≡◌, codes, true};
ghost use Rattle.toml.specs.Data.{get_member};
ghost use Rattle.toml.specs.View.{table_view, array_view};
ghost use Rattle.roam_conf_reader.specs.Document as spec;
ghost use Rattle.roam_conf_reader.specs.Document.{has_key, is_nowhere, lacks_service, misses, none_has, servers_lack};
ghost use Rattle.roam_conf_reader.specs.Document.{some_table, within};
ghost use Rattle.roam_conf_reader.specs.Tables.{shown_keys};

use crate::values::value;
use toml::value::Array;
use toml::{Table, Value};

/// The keys that a home server's table must have.
pub(crate) const SERVER_KEYS: [&str; 1] = ["secret"];

/// The keys that a home server's table may have besides: one at least of the first two.
pub(crate) const SERVER_OPTIONAL_KEYS: [&str; 3] = ["auth", "acct", "require_seal"];

/// The keys that a `coa_client` of a realm must have; it may have no other.
pub(crate) const CLIENT_KEYS: [&str; 2] = ["ip", "secret"];

/// The keys that a peer's table must have.
pub(crate) const PEER_KEYS: [&str; 3] = ["name", "ip", "secret"];

/// The keys that a peer's table may have besides.
pub(crate) const PEER_OPTIONAL_KEYS: [&str; 12] = [
    "coa",
    "nas_ip",
    "nas_ipv6",
    "nas_id",
    "nas_ids",
    "require_seal",
    "limit_proxy_state",
    "operator_name",
    "operator_namespace",
    "ask_cui",
    "request_without",
    "reply_without",
];

/// The keys that a realm's table must have.
pub(crate) const REALM_KEYS: [&str; 3] = ["name", "out", "server"];

/// The keys that a realm's table may have besides.
pub(crate) const REALM_OPTIONAL_KEYS: [&str; 21] = [
    "also",
    "peers",
    "loop_prevention",
    "accounting",
    "request_without",
    "reply_without",
    "share",
    "peer_share",
    "own_names",
    "conversations",
    "balance",
    "own_sessions",
    "coa_client",
    "reverse",
    "tries",
    "wait",
    "hold",
    "max_pending",
    "max_sessions",
    "rest",
    "rest_after",
];

/// The keys that the document itself must have.
pub(crate) const TOP_KEYS: [&str; 4] = ["auth", "acct", "peer", "realm"];

/// The keys that the document itself may have besides.
pub(crate) const TOP_OPTIONAL_KEYS: [&str; 18] = [
    "shards",
    "seed",
    "trace_limit",
    "max_hops",
    "max_attributes",
    "status_server",
    "trace_octets",
    "spread",
    "metrics",
    "control",
    "log_exchanges",
    "log_station",
    "state",
    "state_every",
    "reject",
    "well_formed",
    "answer_unnamed",
    "fresh",
];

fn is_one_of(keys: &[&str], key: &str) -> bool
    ensures { result ≡ spec.is_one_of (shown_keys keys.now) key.now }
{
    for known in keys {
        if key == *known {
            return true;
        }
    }
    false
}

/// Returns whether each key of the table is one of these.
pub(crate) fn has_only(table: &Table, required: &[&str], optional: &[&str]) -> bool
    ensures { result ≡ spec.has_only (shown_keys required.now) (shown_keys optional.now)
        (table_view table.now) }
{
    for key in table.keys() {
        if !is_one_of(required, key.as_str()) && !is_one_of(optional, key.as_str()) {
            return false;
        }
    }
    true
}

/// Returns whether the table has each of these keys.
fn has_all(table: &Table, keys: &[&str]) -> bool
    ensures { result ≡ spec.has_all (shown_keys keys.now) (table_view table.now) }
{
    for key in keys {
        if value(table, key).is_none() {
            return false;
        }
    }
    true
}

/// Returns whether one of the items is a table that misses one of these keys.
fn some_misses(items: &Array, keys: &[&str]) -> bool
    ensures { result ≡ some_table (misses (shown_keys keys.now)) (array_view items.now) }
{
    for value in items {
        if let Some(table) = value.as_table() {
            if !has_all(table, keys) {
                return true;
            }
        }
    }
    false
}

/// Returns whether a key of a table has an array with a table that misses one of these keys.
fn some_misses_within(table: &Table, key: &str, keys: &[&str]) -> bool
    ensures { result ≡ within (misses (shown_keys keys.now)) (get_member key.now (table_view table.now)) }
{
    match value(table, key) {
        Some(value) => match value.as_array() {
            Some(items) => some_misses(items, keys),
            None => false,
        },
        None => false,
    }
}

/// Returns whether a realm's accounting is forwarded, as far as its table says.
#[tactic(auto, unfolding(crate::specs::Document::forwards))]
fn forwards(table: &Table) -> bool
    ensures { result ≡ spec.forwards (get_member (codes "accounting") (table_view table.now)) }
{
    match value(table, "accounting") {
        Some(Value::String(text)) => text.as_str() == "forward",
        Some(_) => false,
        None => true,
    }
}

/// Returns whether the table has a key.
fn has_key(table: &Table, key: &str) -> bool
    ensures { result ≡ has_key key.now (table_view table.now) }
{
    value(table, key).is_some()
}

/// Returns whether one of the items is a table.
fn has_table(items: &Array) -> bool
    ensures { result ≡ some_table (λ members. true) (array_view items.now) }
{
    for value in items {
        if value.as_table().is_some() {
            return true;
        }
    }
    false
}

/// Returns whether one of the items is a table that has the key.
fn some_has(items: &Array, key: &str) -> bool
    ensures { result ≡ some_table (has_key key.now) (array_view items.now) }
{
    for value in items {
        if let Some(table) = value.as_table() {
            if has_key(table, key) {
                return true;
            }
        }
    }
    false
}

/// Returns whether one of the items is the table of a server that takes no requests.
fn some_is_nowhere(items: &Array) -> bool
    ensures { result ≡ some_table is_nowhere (array_view items.now) }
{
    for value in items {
        if let Some(table) = value.as_table() {
            if !has_key(table, "auth") && !has_key(table, "acct") {
                return true;
            }
        }
    }
    false
}

/// Returns whether some items are tables, and none of these has the key.
fn none_has(items: &Array, key: &str) -> bool
    ensures { result ≡ none_has key.now (array_view items.now) }
{
    has_table(items) && !some_has(items, key)
}

/// Returns whether some server takes no requests, or none of them those of a service that is forwarded to them.
fn lacks_service(forwarded: bool, items: &Array) -> bool
    ensures { result ≡ lacks_service forwarded (array_view items.now) }
{
    some_is_nowhere(items) || none_has(items, "auth") || forwarded && none_has(items, "acct")
}

/// Returns the same of what a realm has as `server`, if that is an array.
fn servers_lack(table: &Table, forwarded: bool) -> bool
    ensures { result ≡ servers_lack forwarded (get_member (codes "server") (table_view table.now)) }
{
    match value(table, "server") {
        Some(value) => match value.as_array() {
            Some(items) => lacks_service(forwarded, items),
            None => false,
        },
        None => false,
    }
}

/// Returns whether a realm's table, or the table of one of its servers or of its `coa_client`s, misses a key, or its
/// servers miss a service.
#[tactic(auto, unfolding(crate::specs::Document::realm_misses))]
fn realm_misses(table: &Table) -> bool
    ensures { result ≡ spec.realm_misses (table_view table.now) }
{
    !has_all(table, &REALM_KEYS)
        || some_misses_within(table, "server", &SERVER_KEYS)
        || some_misses_within(table, "coa_client", &CLIENT_KEYS)
        || servers_lack(table, forwards(table))
}

/// Returns whether one of the items is a realm's table that misses a key.
fn some_realm_misses(items: &Array) -> bool
    ensures { result ≡ some_table spec.realm_misses (array_view items.now) }
{
    for value in items {
        if let Some(table) = value.as_table() {
            if realm_misses(table) {
                return true;
            }
        }
    }
    false
}

/// Returns whether the document's realms are an array with a realm's table that misses a key.
fn realms_miss(table: &Table) -> bool
    ensures { result ≡ within spec.realm_misses (get_member (codes "realm") (table_view table.now)) }
{
    match value(table, "realm") {
        Some(value) => match value.as_array() {
            Some(items) => some_realm_misses(items),
            None => false,
        },
        None => false,
    }
}

/// Returns whether a required key is absent anywhere in the document.
#[tactic(auto, unfolding(crate::specs::Document::document_misses))]
pub(crate) fn document_misses(table: &Table) -> bool
    ensures { result ≡ spec.document_misses (table_view table.now) }
{
    !has_all(table, &TOP_KEYS)
        || some_misses_within(table, "peer", &PEER_KEYS)
        || realms_miss(table)
}
