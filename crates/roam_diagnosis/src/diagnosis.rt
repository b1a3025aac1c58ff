//! The lines about a configuration.

use crate::advice::say_advice;
use crate::bad_values::say_bad_values;
use crate::document::{Document, Located};
use crate::duplicates::say_duplicates;
use crate::lines::Lines;
use crate::missing::say_missing;
use crate::place::TableKind;
use crate::syntax::say_syntax;
use crate::unknown_peers::say_unknown_peers;
use crate::ways::say_no_way_out;
use roam_conf_reader::ConfFault;
use std::alloc::Global;

/// Says where the fault of a document stands in a table.
fn say_in_table(document: &Document<'_>, at: Located<'_>, fault: ConfFault, lines: &mut Lines) {
    match (fault, at.place.kind) {
        (ConfFault::Missing, _) => say_missing(document, at, lines),
        (ConfFault::BadValue, _) => say_bad_values(document, at, lines),
        (ConfFault::NoWayOut, TableKind::Server) => say_no_way_out(document, at, lines),
        _ => {}
    }
}

/// Says where the fault of a document stands.
fn say_fault(document: &Document<'_>, fault: ConfFault, lines: &mut Lines) {
    for at in document.tables.as_slice() {
        say_in_table(document, *at, fault, lines);
    }
    match fault {
        ConfFault::UnknownPeer => say_unknown_peers(document, lines),
        _ => say_duplicates(document, fault, lines),
    }
}

/// Says where the fault of a document stands, or what is unwise in one that has none.
fn say(document: &Document<'_>, fault: Option<ConfFault>, lines: &mut Lines) {
    if document.has_failed {
        lines.fail();
    }
    match fault {
        Some(fault) => say_fault(document, fault, lines),
        None => say_advice(document, lines),
    }
}

/// Returns where the fault stands for which a file with a top of this kind is refused.
fn diagnose_as(top: TableKind, alloc: Global, path: &str, text: &str, fault: ConfFault) -> Lines {
    let mut lines = Lines::new(alloc);
    match toml::table_from_str(alloc, text) {
        Ok(table) => {
            let document = Document::new(alloc, path, text, &table, top);
            say(&document, Some(fault), &mut lines);
        }
        Err(error) => say_syntax(top, path, text, &error, &mut lines),
    }
    lines.unless_failed()
}

/// Returns where the fault stands for which a configuration is refused: a line for each place, ten at most. There are
/// none where memory is wanting.
///
/// Each begins with the path of the file and the line in it. `fault` is what `read_config` answered for the text.
pub fn diagnose(alloc: Global, path: &str, text: &str, fault: ConfFault) -> Lines {
    diagnose_as(TableKind::Top, alloc, path, text, fault)
}

/// Returns where the fault stands for which a file of `roam streams` is refused, as `diagnose` does for a
/// configuration.
pub fn diagnose_streams(alloc: Global, path: &str, text: &str, fault: ConfFault) -> Lines {
    diagnose_as(TableKind::Streams, alloc, path, text, fault)
}

/// Returns what is unwise in a configuration that was accepted: a line for each advice, with the first place that it
/// is for, ten at most. There are none where memory is wanting.
pub fn advise(alloc: Global, path: &str, text: &str) -> Lines {
    let mut lines = Lines::new(alloc);
    if let Ok(table) = toml::table_from_str(alloc, text) {
        let document = Document::new(alloc, path, text, &table, TableKind::Top);
        say(&document, None, &mut lines);
    }
    lines.unless_failed()
}
