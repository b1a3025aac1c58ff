//! The values that stand twice.

use crate::document::{Document, Located};
use crate::keys::Keys;
use crate::lines::Lines;
use crate::place::TableKind;
use crate::quoted::quote;
use roam_conf::{Endpoint, Prefix};
use roam_conf_reader::ConfFault;
use std::alloc::AllocError;
use std::collections::BTreeMap;
use std::fmt::Write;
use toml::Value;

/// A key whose values are compared.
#[derive(Clone, Copy)]
struct ComparedKey(TableKind, &'static str);

/// The way in which values are compared.
#[derive(Clone, Copy, PartialEq, Eq)]
enum Compared {
    /// As they stand.
    AsText,
    /// Without ASCII case.
    WithoutCase,
    /// As Operator-Names, each behind the `operator_namespace` of its table.
    AsOperator,
    /// As addresses, prefixes or endpoints, by the one text of each.
    AsAddress,
}

/// Keys of which no two values may be equal.
#[derive(Clone, Copy)]
struct Group {
    fault: ConfFault,
    keys: &'static [ComparedKey],
    /// Keys whose values may be equal to each other, but to none of those.
    others: &'static [ComparedKey],
    /// True where the values of each realm are compared apart.
    is_apart: bool,
    compared: Compared,
}

const GROUPS: [Group; 12] = [
    Group {
        fault: ConfFault::DuplicateRealm,
        keys: &[
            ComparedKey(TableKind::Realm, "name"),
            ComparedKey(TableKind::Realm, "also"),
            ComparedKey(TableKind::Top, "reject"),
        ],
        others: &[],
        is_apart: false,
        compared: Compared::WithoutCase,
    },
    Group {
        fault: ConfFault::DuplicatePeer,
        keys: &[ComparedKey(TableKind::Peer, "name")],
        others: &[],
        is_apart: false,
        compared: Compared::AsText,
    },
    Group {
        fault: ConfFault::DuplicatePeer,
        keys: &[ComparedKey(TableKind::Peer, "ip")],
        others: &[],
        is_apart: false,
        compared: Compared::AsAddress,
    },
    Group {
        fault: ConfFault::DuplicatePeer,
        keys: &[ComparedKey(TableKind::Peer, "nas_ip")],
        others: &[],
        is_apart: false,
        compared: Compared::AsAddress,
    },
    Group {
        fault: ConfFault::DuplicatePeer,
        keys: &[ComparedKey(TableKind::Peer, "nas_ipv6")],
        others: &[],
        is_apart: false,
        compared: Compared::AsAddress,
    },
    Group {
        fault: ConfFault::DuplicatePeer,
        keys: &[
            ComparedKey(TableKind::Peer, "nas_id"),
            ComparedKey(TableKind::Peer, "nas_ids"),
        ],
        others: &[],
        is_apart: false,
        compared: Compared::AsText,
    },
    Group {
        fault: ConfFault::DuplicatePeer,
        keys: &[ComparedKey(TableKind::Peer, "operator_name")],
        others: &[],
        is_apart: false,
        compared: Compared::AsOperator,
    },
    Group {
        fault: ConfFault::DuplicateEndpoint,
        keys: &[
            ComparedKey(TableKind::Top, "auth"),
            ComparedKey(TableKind::Top, "acct"),
            ComparedKey(TableKind::Realm, "out"),
            ComparedKey(TableKind::Realm, "reverse"),
        ],
        others: &[],
        is_apart: false,
        compared: Compared::AsAddress,
    },
    Group {
        fault: ConfFault::DuplicateServer,
        keys: &[
            ComparedKey(TableKind::Server, "auth"),
            ComparedKey(TableKind::Server, "acct"),
        ],
        others: &[],
        is_apart: true,
        compared: Compared::AsAddress,
    },
    Group {
        fault: ConfFault::DuplicateServer,
        keys: &[ComparedKey(TableKind::Client, "ip")],
        others: &[],
        is_apart: true,
        compared: Compared::AsAddress,
    },
    Group {
        fault: ConfFault::DuplicateLink,
        keys: &[ComparedKey(TableKind::Peer, "coa")],
        others: &[
            ComparedKey(TableKind::Server, "auth"),
            ComparedKey(TableKind::Server, "acct"),
        ],
        is_apart: false,
        compared: Compared::AsAddress,
    },
    Group {
        fault: ConfFault::DuplicateEndpoint,
        keys: &[
            ComparedKey(TableKind::Streams, "take"),
            ComparedKey(TableKind::Streams, "auth"),
            ComparedKey(TableKind::Streams, "acct"),
            ComparedKey(TableKind::StreamServer, "at"),
        ],
        others: &[ComparedKey(TableKind::StreamServer, "reverse")],
        is_apart: false,
        compared: Compared::AsAddress,
    },
];

/// The place of a value.
#[derive(Clone, Copy)]
struct Spot<'a> {
    at: Located<'a>,
    key: &'static str,
}

/// The values of a group that came so far, and where each came first.
#[derive(Drop)]
struct Seen<'a> {
    group: Group,
    /// True where a value is only compared with those before it.
    is_looking: bool,
    spots: BTreeMap<String, Spot<'a>>,
}

/// Appends the one text of what a text states: an endpoint, an address or a prefix.
fn write_one_text(compared: &mut String, text: &str) -> Result<(), AllocError> {
    if let Some(endpoint) = Endpoint::from_text(text) {
        return write!(compared, "{endpoint}");
    }
    match Prefix::from_text(text) {
        Some(prefix) => write!(compared, "{prefix}"),
        None => compared.push_str(text),
    }
}

/// Appends an Operator-Name: its namespace, which is that of realms where none is stated, and its name, without ASCII
/// case where it is a realm's.
fn write_operator(compared: &mut String, keys: Keys<'_>, name: &str) -> Result<(), AllocError> {
    let namespace = keys.text("operator_namespace").unwrap_or("1");
    compared.push_str(namespace)?;
    compared.push_str(name)?;
    if namespace == "1" {
        compared.make_ascii_lowercase();
    }
    Ok(())
}

/// Appends what is compared of a text in a table.
fn write_compared(
    compared: &mut String,
    how: Compared,
    keys: Keys<'_>,
    text: &str,
) -> Result<(), AllocError> {
    match how {
        Compared::AsAddress => write_one_text(compared, text),
        Compared::AsText => compared.push_str(text),
        Compared::AsOperator => write_operator(compared, keys, text),
        Compared::WithoutCase => {
            compared.push_str(text)?;
            compared.make_ascii_lowercase();
            Ok(())
        }
    }
}

impl<'a> Seen<'a> {
    /// Appends what is compared of a text: of a realm's names it is without case, and of some the realm counts.
    fn write(&self, compared: &mut String, spot: Spot<'_>, text: &str) -> Result<(), AllocError> {
        write_compared(compared, self.group.compared, spot.at.keys, text)?;
        if self.group.is_apart {
            return write!(compared, " {}", spot.at.place.index);
        }
        Ok(())
    }

    /// Takes a text down, or says that it came before.
    fn take(&mut self, document: &Document<'_>, spot: Spot<'a>, text: &str, lines: &mut Lines) {
        let mut compared = String::new(document.alloc);
        if self.write(&mut compared, spot, text).is_err() {
            lines.fail();
        }
        match self.spots.get(compared.as_str()) {
            Some(first) => say(document, *first, spot, text, lines),
            None if self.is_looking => {}
            None => {
                if self.spots.insert(compared, spot).is_err() {
                    lines.fail();
                }
            }
        }
    }

    /// Takes down the texts under a key.
    fn take_all(&mut self, document: &Document<'_>, spot: Spot<'a>, lines: &mut Lines) {
        for value in spot.at.keys.values(spot.key) {
            if let Value::String(text) = value {
                self.take(document, spot, text.as_str(), lines);
            }
        }
    }

    /// Takes down the texts of a table under those of the keys that its kind has.
    fn take_table(
        &mut self,
        document: &Document<'_>,
        at: Located<'a>,
        keys: &[ComparedKey],
        lines: &mut Lines,
    ) {
        for ComparedKey(kind, key) in keys {
            if at.place.kind == *kind {
                self.take_all(document, Spot { at, key }, lines);
            }
        }
    }
}

/// Says that a text stands in two places.
fn say(document: &Document<'_>, first: Spot<'_>, second: Spot<'_>, text: &str, lines: &mut Lines) {
    if lines.is_full() {
        return;
    }
    document.begin_line(second.at, second.key, lines);
    quote(": ", text, " is also in ", lines);
    document.say_place("line ", first.at, first.key, "", lines);
    lines.end_line();
}

/// Says what of a group stands twice.
fn say_group(document: &Document<'_>, group: Group, lines: &mut Lines) {
    let mut seen = Seen {
        group,
        is_looking: false,
        spots: BTreeMap::new(document.alloc),
    };
    for at in document.tables.as_slice() {
        seen.take_table(document, *at, group.keys, lines);
    }
    seen.is_looking = true;
    for at in document.tables.as_slice() {
        seen.take_table(document, *at, group.others, lines);
    }
}

/// Says what stands twice, by this fault.
pub(crate) fn say_duplicates(document: &Document<'_>, fault: ConfFault, lines: &mut Lines) {
    for group in &GROUPS {
        if group.fault == fault {
            say_group(document, *group, lines);
        }
    }
}
