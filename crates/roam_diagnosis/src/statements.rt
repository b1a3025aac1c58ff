//! On which lines of a document its tables and their keys stand.
//!
//! The document was read already. A line that begins a statement is a header, as `[[realm]]`, or a key with its value;
//! what stands in inline tables has the line of the statement.

use crate::place::{TableKind, TablePlace};
use crate::scan::Scan;

/// The tables that came so far.
#[derive(Clone, Copy)]
struct Cursor {
    peers: u32,
    realms: u32,
    stream_servers: u32,
    /// Of the last realm.
    servers: u32,
    clients: u32,
    /// The one to which the next keys belong.
    here: TablePlace,
}

/// Returns a key without blanks and quotation marks round it.
fn bare(key: &str) -> &str {
    key.trim().trim_matches(|c: char| c == '"' || c == '\'')
}

/// Returns the first key of a dotted one, and what comes after the dot.
fn first_key(dotted: &str) -> (&str, Option<&str>) {
    match dotted.split_once('.') {
        Some((first, rest)) => (bare(first), Some(rest)),
        None => (bare(dotted), None),
    }
}

/// Returns what stands in a header's brackets, if the line is one.
fn header_of(line: &str) -> Option<&str> {
    let path = match line.strip_prefix("[[") {
        Some(path) => path,
        None => line.strip_prefix('[')?,
    };
    match path.split_once(']') {
        Some((path, _)) => Some(path),
        None => None,
    }
}

/// Returns the first key of a line `key = value`.
pub(crate) fn key_of(line: &str) -> Option<&str> {
    match line.split_once('=') {
        Some((key, _)) => Some(first_key(key).0),
        None => None,
    }
}

impl Cursor {
    const START: Cursor = Cursor {
        peers: 0,
        realms: 0,
        stream_servers: 0,
        servers: 0,
        clients: 0,
        here: TablePlace::TOP,
    };

    /// Passes a header below `realm`, and says under which key of which table it is.
    fn enter_below_realm<'a>(&mut self, path: &'a str) -> (TablePlace, &'a str) {
        let (key, rest) = first_key(path);
        match (key, rest) {
            ("server", Some(rest)) => {
                let last = TablePlace::new(TableKind::Server, self.realms, self.servers);
                return (last, first_key(rest).0);
            }
            ("server", None) => {
                self.servers = self.servers.saturating_add(1);
                self.here = TablePlace::new(TableKind::Server, self.realms, self.servers);
            }
            ("coa_client", Some(rest)) => {
                let last = TablePlace::new(TableKind::Client, self.realms, self.clients);
                return (last, first_key(rest).0);
            }
            ("coa_client", None) => {
                self.clients = self.clients.saturating_add(1);
                self.here = TablePlace::new(TableKind::Client, self.realms, self.clients);
            }
            _ => {}
        }
        (TablePlace::new(TableKind::Realm, self.realms, 0), key)
    }

    /// Passes a header, and says under which key of which table it is.
    fn enter<'a>(&mut self, path: &'a str) -> (TablePlace, &'a str) {
        self.here = TablePlace::OTHER;
        let (key, rest) = first_key(path);
        match (key, rest) {
            ("peer", None) => {
                self.peers = self.peers.saturating_add(1);
                self.here = TablePlace::new(TableKind::Peer, self.peers, 0);
            }
            ("peer", Some(rest)) => {
                let last = TablePlace::new(TableKind::Peer, self.peers, 0);
                return (last, first_key(rest).0);
            }
            ("realm", None) => {
                self.realms = self.realms.saturating_add(1);
                self.servers = 0;
                self.clients = 0;
                self.here = TablePlace::new(TableKind::Realm, self.realms, 0);
            }
            ("realm", Some(rest)) => return self.enter_below_realm(rest),
            ("server", None) => {
                self.stream_servers = self.stream_servers.saturating_add(1);
                self.here = TablePlace::new(TableKind::StreamServer, self.stream_servers, 0);
            }
            _ => {}
        }
        (TablePlace::TOP, key)
    }

    /// Passes a line that begins a statement, and says whether that is the key of the table; the empty key is the
    /// table's header.
    fn is_it(&mut self, line: &str, place: TablePlace, key: &str) -> bool {
        match header_of(line) {
            Some(path) => {
                let (table, name) = self.enter(path);
                (table == place && name == key) || (key.is_empty() && self.here == place)
            }
            None => self.here == place && key_of(line) == Some(key),
        }
    }
}

/// Finds the number of the line, from 1, on which the key of the table stands, or its header for the empty key.
/// Returns 0 where there is none.
fn line_of(text: &str, place: TablePlace, key: &str) -> u32 {
    let mut cursor = Cursor::START;
    let mut scan = Scan::START;
    let mut number = 0u32;
    for line in text.trim_start_matches('\u{feff}').lines() {
        number = number.saturating_add(1);
        if scan.is_at_rest() && cursor.is_it(line.trim_start(), place, key) {
            return number;
        }
        scan = scan.after(line);
    }
    0
}

/// Returns the number of the line, from 1, on which the key of the table stands, or else the table; 0 where there is
/// none.
pub(crate) fn nearest_line(text: &str, place: TablePlace, key: &str) -> u32 {
    let realm = TablePlace::new(TableKind::Realm, place.index, 0);
    let (above, name) = match place.kind {
        TableKind::Peer => (TablePlace::TOP, "peer"),
        TableKind::Realm => (TablePlace::TOP, "realm"),
        TableKind::StreamServer => (TablePlace::TOP, "server"),
        TableKind::Server => (realm, "server"),
        TableKind::Client => (realm, "coa_client"),
        _ => return line_of(text, TablePlace::TOP, key),
    };
    let exact = line_of(text, place, key);
    if exact > 0 {
        return exact;
    }
    let header = line_of(text, place, "");
    if header > 0 {
        return header;
    }
    line_of(text, above, name)
}
