//! The place of a table in a configuration.

/// The kind of a table.
#[derive(Clone, Copy, PartialEq, Eq)]
pub(crate) enum TableKind {
    /// The document itself.
    Top,
    /// A `[[peer]]`.
    Peer,
    /// A `[[realm]]`.
    Realm,
    /// A `[[realm.server]]`.
    Server,
    /// A `[[realm.coa_client]]`.
    Client,
    /// The document of `roam streams`.
    Streams,
    /// A `[[server]]` of that.
    StreamServer,
    /// None that a configuration has.
    Other,
}

/// The table that is meant. Tables are counted from 1; a count that tells nothing of its kind is 0.
#[derive(Clone, Copy, PartialEq, Eq)]
pub(crate) struct TablePlace {
    pub kind: TableKind,
    /// The index among the peers, realms or streams' servers.
    pub index: u32,
    /// The index among the realm's servers, or its `coa_client`s.
    pub server: u32,
}

impl TablePlace {
    /// The document itself.
    pub(crate) const TOP: TablePlace = TablePlace {
        kind: TableKind::Top,
        index: 0,
        server: 0,
    };

    /// A table that no configuration has.
    pub(crate) const OTHER: TablePlace = TablePlace {
        kind: TableKind::Other,
        index: 0,
        server: 0,
    };

    /// Returns the place of a table of this kind with these counts.
    pub(crate) fn new(kind: TableKind, index: u32, server: u32) -> TablePlace {
        TablePlace {
            kind,
            index,
            server,
        }
    }
}

/// Returns the name of a kind, with its article.
pub(crate) fn name_of(kind: TableKind) -> &'static str {
    match kind {
        TableKind::Peer => "a peer",
        TableKind::Realm => "a realm",
        TableKind::Server | TableKind::StreamServer => "a server",
        TableKind::Client => "a coa_client",
        _ => "the top table",
    }
}
