//! The peers to which Disconnect- and CoA-Requests can be delivered, and of which realms.

use crate::document::{Document, Located};
use crate::peer_names::PeerNames;
use crate::place::TableKind;
use crate::sessions;
use indexmap::IndexSet;
use std::alloc::{AllocError, Global};
use std::hash::{BuildHasherDefault, FoldHasher};
use toml::Value;

/// The peers that Disconnect- and CoA-Requests may be for.
#[derive(Drop)]
pub(crate) struct Deliveries {
    /// True where some peer takes them.
    some_take: bool,
    /// True where some realm sends them to any peer.
    reach_all: bool,
    /// The counts of the peers that realms with `peers` send them to.
    reached: IndexSet<u32, BuildHasherDefault<FoldHasher>, Global>,
}

impl Deliveries {
    /// Returns which peers such requests may be for in a document.
    pub(crate) fn new(
        document: &Document<'_>,
        names: &PeerNames<'_>,
    ) -> Result<Deliveries, AllocError> {
        let mut deliveries = Deliveries {
            some_take: false,
            reach_all: false,
            reached: IndexSet::new(document.alloc),
        };
        for at in document.tables.as_slice() {
            match at.place.kind {
                TableKind::Peer => deliveries.some_take |= at.keys.has("coa"),
                TableKind::Realm => deliveries.note_realm(names, *at)?,
                _ => {}
            }
        }
        Ok(deliveries)
    }

    /// Notes the peers that a realm sends such requests to.
    fn note_realm(&mut self, names: &PeerNames<'_>, realm: Located<'_>) -> Result<(), AllocError> {
        if !realm.keys.has("reverse") {
            return Ok(());
        }
        self.reach_all |= !realm.keys.has("peers");
        for name in realm.keys.items("peers") {
            if let Some(peer) = named_by(names, name) {
                self.reached.insert(peer.place.index)?;
            }
        }
        Ok(())
    }

    /// Returns whether no peer of the realm takes such requests.
    fn have_no_peer(&self, names: &PeerNames<'_>, realm: Located<'_>) -> bool {
        if !realm.keys.has("peers") {
            return !self.some_take;
        }
        for name in realm.keys.items("peers") {
            if let Some(peer) = named_by(names, name) {
                if peer.keys.has("coa") {
                    return false;
                }
            }
        }
        true
    }

    /// Returns whether the realm takes such requests, and can deliver none.
    pub(crate) fn are_taken_in_vain(&self, names: &PeerNames<'_>, realm: Located<'_>) -> bool {
        realm.keys.has("reverse") && self.have_no_peer(names, realm)
    }

    /// Returns whether the realm remembers sessions for such requests, takes none, and could deliver none.
    pub(crate) fn are_remembered_in_vain(&self, names: &PeerNames<'_>, realm: Located<'_>) -> bool {
        realm.keys.is_set("own_sessions")
            && !realm.keys.has("reverse")
            && !sessions::are_never_there(realm)
            && self.have_no_peer(names, realm)
    }

    /// Returns whether the peer takes such requests, and no realm sends it any.
    pub(crate) fn never_reach(&self, peer: Located<'_>) -> bool {
        peer.keys.has("coa") && !self.reach_all && !self.reached.contains(&peer.place.index)
    }
}

/// Returns the peer that a text names.
fn named_by<'a>(names: &PeerNames<'a>, name: &Value) -> Option<Located<'a>> {
    match name {
        Value::String(name) => names.peer(name.as_str()),
        _ => None,
    }
}

/// Returns whether the peer takes such requests, and nothing in one can name it.
pub(crate) fn is_never_named(peer: Located<'_>) -> bool {
    peer.keys.has("coa")
        && !peer.keys.has("nas_ip")
        && !peer.keys.has("nas_ipv6")
        && !peer.keys.has("nas_id")
        && !peer.keys.has("operator_name")
        && peer.keys.items("nas_ids").is_empty()
}
