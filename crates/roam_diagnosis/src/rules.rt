//! The keys of the tables of a configuration, and the form of each.

use crate::forms::ValueForm;
use crate::network_forms::NetworkForm;
use crate::place::TableKind;

/// A key of a table: its name, whether it is required, and what stands under it.
#[derive(Clone, Copy)]
pub(crate) struct Rule(pub &'static str, pub bool, pub ValueForm);

const TOP: [Rule; 22] = [
    Rule("shards", false, ValueForm::Number(1, 64)),
    Rule("seed", false, ValueForm::Seed),
    Rule("auth", true, ValueForm::Endpoints(8)),
    Rule("acct", true, ValueForm::Endpoints(8)),
    Rule("trace_limit", false, ValueForm::Number(1, 1000000)),
    Rule("trace_octets", false, ValueForm::Number(1, 1073741824)),
    Rule("max_hops", false, ValueForm::Number(1, 100)),
    Rule("max_attributes", false, ValueForm::Number(1, 2000)),
    Rule("status_server", false, ValueForm::Flag),
    Rule("spread", false, ValueForm::Flag),
    Rule("metrics", false, ValueForm::Network(NetworkForm::Endpoint)),
    Rule("control", false, ValueForm::Path(107)),
    Rule("log_exchanges", false, ValueForm::ExchangeLines),
    Rule("log_station", false, ValueForm::StationWord),
    Rule("state", false, ValueForm::Path(1024)),
    Rule("state_every", false, ValueForm::Number(1, 86400)),
    Rule("reject", false, ValueForm::Rejects),
    Rule("well_formed", false, ValueForm::Flag),
    Rule("answer_unnamed", false, ValueForm::Flag),
    Rule("fresh", false, ValueForm::Number(10, 3600)),
    Rule("peer", true, ValueForm::Tables(1, 1024)),
    Rule("realm", true, ValueForm::Tables(1, 1024)),
];

const PEER: [Rule; 15] = [
    Rule("name", true, ValueForm::PeerName),
    Rule("ip", true, ValueForm::Prefixes(8)),
    Rule("secret", true, ValueForm::Secret),
    Rule("coa", false, ValueForm::Network(NetworkForm::Endpoint)),
    Rule("nas_ip", false, ValueForm::Network(NetworkForm::Ipv4)),
    Rule("nas_ipv6", false, ValueForm::Network(NetworkForm::Ipv6)),
    Rule("nas_id", false, ValueForm::Text(253)),
    Rule("nas_ids", false, ValueForm::NasIds),
    Rule("require_seal", false, ValueForm::Flag),
    Rule("limit_proxy_state", false, ValueForm::Flag),
    Rule("operator_name", false, ValueForm::Text(252)),
    Rule("operator_namespace", false, ValueForm::Digit),
    Rule("ask_cui", false, ValueForm::Flag),
    Rule("request_without", false, ValueForm::RequestRemovals),
    Rule("reply_without", false, ValueForm::ReplyRemovals),
];

const REALM: [Rule; 24] = [
    Rule("name", true, ValueForm::RealmName),
    Rule("also", false, ValueForm::Names),
    Rule("peers", false, ValueForm::PeerNames),
    Rule("loop_prevention", false, ValueForm::Flag),
    Rule("accounting", false, ValueForm::Accounting),
    Rule("request_without", false, ValueForm::RequestRemovals),
    Rule("reply_without", false, ValueForm::ReplyRemovals),
    Rule("share", false, ValueForm::Number(1, 4096)),
    Rule("peer_share", false, ValueForm::Number(1, 4096)),
    Rule("own_names", false, ValueForm::Flag),
    Rule("conversations", false, ValueForm::Flag),
    Rule("balance", false, ValueForm::Balance),
    Rule("own_sessions", false, ValueForm::Flag),
    Rule("out", true, ValueForm::Endpoints(16)),
    Rule("reverse", false, ValueForm::Endpoints(8)),
    Rule("tries", false, ValueForm::Number(1, 10)),
    Rule("wait", false, ValueForm::Number(1, 60000)),
    Rule("rest", false, ValueForm::Number(0, 3600000)),
    Rule("rest_after", false, ValueForm::Number(1, 256)),
    Rule("hold", false, ValueForm::Number(0, 60000)),
    Rule("max_pending", false, ValueForm::Number(1, 4096)),
    Rule("max_sessions", false, ValueForm::Number(0, 65536)),
    Rule("server", true, ValueForm::Tables(1, 8)),
    Rule("coa_client", false, ValueForm::Tables(0, 8)),
];

const SERVER: [Rule; 4] = [
    Rule("auth", false, ValueForm::Network(NetworkForm::Endpoint)),
    Rule("acct", false, ValueForm::Network(NetworkForm::Endpoint)),
    Rule("secret", true, ValueForm::Secret),
    Rule("require_seal", false, ValueForm::Flag),
];

const CLIENT: [Rule; 2] = [
    Rule("ip", true, ValueForm::Network(NetworkForm::Address)),
    Rule("secret", true, ValueForm::Secret),
];

const STREAMS: [Rule; 7] = [
    Rule("take", false, ValueForm::LocalEndpoints(0, 8)),
    Rule("auth", true, ValueForm::Network(NetworkForm::Ipv4Endpoint)),
    Rule("acct", true, ValueForm::Network(NetworkForm::Ipv4Endpoint)),
    Rule("most", false, ValueForm::Number(1, 4096)),
    Rule("most_of_one", false, ValueForm::Number(1, 256)),
    Rule("idle", false, ValueForm::Number(60, 86400)),
    Rule("server", false, ValueForm::Tables(0, 1024)),
];

const STREAM_SERVER: [Rule; 3] = [
    Rule("at", true, ValueForm::LocalEndpoints(1, 2)),
    Rule(
        "reverse",
        false,
        ValueForm::Network(NetworkForm::Ipv4Endpoint),
    ),
    Rule("silence", false, ValueForm::Number(1000, 3600000)),
];

/// The kinds of tables that a file of `roam streams` has.
const STREAM_KINDS: [TableKind; 2] = [TableKind::Streams, TableKind::StreamServer];

/// The kinds of tables that a configuration has.
const KINDS: [TableKind; 5] = [
    TableKind::Top,
    TableKind::Peer,
    TableKind::Realm,
    TableKind::Server,
    TableKind::Client,
];

/// Returns the keys of the tables of a kind.
pub(crate) fn rules_of(kind: TableKind) -> &'static [Rule] {
    match kind {
        TableKind::Top => &TOP,
        TableKind::Peer => &PEER,
        TableKind::Realm => &REALM,
        TableKind::Server => &SERVER,
        TableKind::Client => &CLIENT,
        TableKind::Streams => &STREAMS,
        TableKind::StreamServer => &STREAM_SERVER,
        TableKind::Other => &[],
    }
}

/// Returns whether tables of the kind have the key.
pub(crate) fn has_rule(kind: TableKind, key: &str) -> bool {
    for rule in rules_of(kind) {
        if rule.0 == key {
            return true;
        }
    }
    false
}

/// Returns the kinds of tables that stand in one file with a kind.
fn kinds_beside(here: TableKind) -> &'static [TableKind] {
    match here {
        TableKind::Streams | TableKind::StreamServer => &STREAM_KINDS,
        _ => &KINDS,
    }
}

/// Finds the kind of tables, other than this, that have the key; the first where several have it.
pub(crate) fn owner_of(here: TableKind, key: &str) -> Option<TableKind> {
    for kind in kinds_beside(here) {
        if *kind != here && has_rule(*kind, key) {
            return Some(*kind);
        }
    }
    None
}

/// Returns the form of what stands under a key, in the first kind of tables that has it, of a file with this top.
pub(crate) fn form_of(top: TableKind, key: &str) -> Option<ValueForm> {
    for kind in kinds_beside(top) {
        for rule in rules_of(*kind) {
            if rule.0 == key {
                return Some(rule.2);
            }
        }
    }
    None
}

/// Returns what stands in the double brackets before the tables of a key of such a table.
pub(crate) fn header_of(here: TableKind, key: &str) -> &'static str {
    if here == TableKind::Streams {
        return "server";
    }
    match key {
        "peer" => "peer",
        "realm" => "realm",
        "coa_client" => "realm.coa_client",
        _ => "realm.server",
    }
}
