//! The tables of a document, and how a line names one.

use crate::keys::Keys;
use crate::lines::Lines;
use crate::place::{TableKind, TablePlace};
use crate::quoted::quote;
use crate::statements::nearest_line;
use std::alloc::Global;
use toml::{Table, Value};

/// A table of the document, and where it stands.
#[derive(Clone, Copy)]
pub(crate) struct Located<'a> {
    pub place: TablePlace,
    pub keys: Keys<'a>,
    /// The table that has its name: the realm's table for a server's and a `coa_client`'s, else itself.
    pub named: Keys<'a>,
}

/// A document: its path, its text, and its tables that a configuration may have, in the order of the text.
#[derive(Drop)]
pub(crate) struct Document<'a> {
    pub alloc: Global,
    pub path: &'a str,
    pub text: &'a str,
    pub tables: Vec<Located<'a>>,
    /// The number of peers. They stand behind the top table, before all others.
    peers: usize,
    /// True where a growth of memory was refused.
    pub has_failed: bool,
}

impl<'a> Document<'a> {
    /// Returns the document of a text that has this table, with a top of this kind.
    pub(crate) fn new(
        alloc: Global,
        path: &'a str,
        text: &'a str,
        table: &'a Table,
        top: TableKind,
    ) -> Document<'a> {
        let mut document = Document {
            alloc,
            path,
            text,
            tables: Vec::new(alloc),
            peers: 0,
            has_failed: false,
        };
        document.add_tables(TablePlace::new(top, 0, 0), Keys::new(table));
        document
    }

    /// Adds the top table and all below it, in their order.
    fn add_tables(&mut self, place: TablePlace, top: Keys<'a>) {
        self.add(place, top, top);
        if place.kind == TableKind::Streams {
            self.add_all(TableKind::StreamServer, top, "server");
            return;
        }
        self.add_all(TableKind::Peer, top, "peer");
        self.peers = self.tables.len().saturating_sub(1);
        self.add_all(TableKind::Realm, top, "realm");
    }

    fn add(&mut self, place: TablePlace, keys: Keys<'a>, named: Keys<'a>) {
        if self.tables.push(Located { place, keys, named }).is_err() {
            self.has_failed = true;
        }
    }

    /// Adds the tables under a key of the document, which are of this kind, and those below them.
    fn add_all(&mut self, kind: TableKind, top: Keys<'a>, key: &str) {
        let mut place = TablePlace::new(kind, 0, 0);
        for item in top.items(key) {
            place.index = place.index.saturating_add(1);
            if let Value::Table(table) = item {
                let keys = Keys::new(table);
                self.add(place, keys, keys);
                if kind == TableKind::Realm {
                    self.add_below(place, TableKind::Server, keys, "server");
                    self.add_below(place, TableKind::Client, keys, "coa_client");
                }
            }
        }
    }

    /// Adds the tables under a key of a realm at a place, which are of this kind.
    fn add_below(&mut self, at: TablePlace, kind: TableKind, realm: Keys<'a>, key: &str) {
        let mut place = TablePlace::new(kind, at.index, 0);
        for item in realm.items(key) {
            place.server = place.server.saturating_add(1);
            if let Value::Table(table) = item {
                self.add(place, Keys::new(table), realm);
            }
        }
    }

    /// Returns the tables of the peers.
    pub(crate) fn peers(&self) -> &[Located<'a>] {
        let tables = self.tables.as_slice();
        let behind_top = tables.get(1..).unwrap_or(tables);
        behind_top.get(..self.peers).unwrap_or(behind_top)
    }

    /// Returns the top table, which has a place in each document.
    pub(crate) fn top(&self) -> Option<Keys<'a>> {
        match self.tables.first() {
            Some(at) => Some(at.keys),
            None => None,
        }
    }

    /// Begins a line with the place of a key, as `PATH:LINE:`, its table and its name.
    pub(crate) fn begin_line(&self, at: Located<'_>, key: &str, lines: &mut Lines) {
        lines.put("", self.path, ":");
        self.say_place("", at, key, " ", lines);
    }

    /// Begins a line of advice, as `PATH:LINE: advice:`, with the table of a key and its name.
    pub(crate) fn begin_advice(&self, at: Located<'_>, key: &str, lines: &mut Lines) {
        lines.put("", self.path, ":");
        self.say_number("", at, key, " ", lines);
        lines.say("advice: ");
        say_key(at, key, lines);
    }

    /// Says the place of a key, within a line: a word and the number of its line, its table and its name. Where there
    /// is no such line, another word stands in place of that and the number.
    pub(crate) fn say_place(
        &self,
        word: &str,
        at: Located<'_>,
        key: &str,
        without: &str,
        lines: &mut Lines,
    ) {
        self.say_number(word, at, key, without, lines);
        say_key(at, key, lines);
    }

    /// Says a word and the number of a key's line, or another word where there is no such line.
    fn say_number(&self, word: &str, at: Located<'_>, key: &str, without: &str, lines: &mut Lines) {
        match nearest_line(self.text, at.place, key) {
            0 => lines.say(without),
            number => lines.put(word, number, ": "),
        }
    }
}

/// Says a word for a table and its name, or its count where it has no text for a name.
fn say_named(word: &str, at: Located<'_>, behind: &str, lines: &mut Lines) {
    lines.say(word);
    match at.named.text("name") {
        Some(name) => quote(" ", name, behind, lines),
        None => lines.put(" ", at.place.index, behind),
    }
}

/// Says which table it is, and a key of it. The document itself isn't named.
fn say_key(at: Located<'_>, key: &str, lines: &mut Lines) {
    match at.place.kind {
        TableKind::Peer => say_named("peer", at, ": ", lines),
        TableKind::Realm => say_named("realm", at, ": ", lines),
        TableKind::StreamServer => say_named("server", at, ": ", lines),
        TableKind::Server => {
            say_named("realm", at, ", server ", lines);
            lines.put("", at.place.server, ": ");
        }
        TableKind::Client => {
            say_named("realm", at, ", coa_client ", lines);
            lines.put("", at.place.server, ": ");
        }
        _ => {}
    }
    lines.say(key);
}
