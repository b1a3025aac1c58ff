//! The peers of a document by their names.

use crate::document::{Document, Located};
use indexmap::IndexMap;
use std::alloc::{AllocError, Global};
use std::hash::{BuildHasherDefault, FoldHasher};

/// The tables of peers, each by a name.
type ByName<'a> = IndexMap<String, Located<'a>, BuildHasherDefault<FoldHasher>, Global>;

/// The peers of a document by their names, each found in a few steps.
#[derive(Drop)]
pub(crate) struct PeerNames<'a> {
    alloc: Global,
    /// By the name as it stands.
    exact: ByName<'a>,
    /// By the name in lower case: of several that differ in case only, the last.
    lowered: ByName<'a>,
}

/// Returns the text in lower case.
pub(crate) fn lower(alloc: Global, text: &str) -> Result<String, AllocError> {
    let mut lowered = String::from_str(alloc, text)?;
    lowered.make_ascii_lowercase();
    Ok(lowered)
}

impl<'a> PeerNames<'a> {
    /// Returns the index of a document's peers.
    pub(crate) fn new(document: &Document<'a>) -> Result<PeerNames<'a>, AllocError> {
        let alloc = document.alloc;
        let mut names = PeerNames {
            alloc,
            exact: IndexMap::new(alloc),
            lowered: IndexMap::new(alloc),
        };
        for peer in document.peers() {
            if let Some(name) = peer.keys.text("name") {
                names.exact.insert(String::from_str(alloc, name)?, *peer)?;
                names.lowered.insert(lower(alloc, name)?, *peer)?;
            }
        }
        Ok(names)
    }

    /// Returns the peer of the name.
    pub(crate) fn peer(&self, name: &str) -> Option<Located<'a>> {
        self.exact.get(name).copied()
    }

    /// Returns the name of the peer that has it without ASCII case: with it, where one has.
    pub(crate) fn nearest(&self, name: &str) -> Result<Option<&'a str>, AllocError> {
        let lowered = lower(self.alloc, name)?;
        let found = match self.exact.get(name) {
            Some(peer) => Some(*peer),
            None => self.lowered.get(lowered.as_str()).copied(),
        };
        match found {
            Some(peer) => Ok(peer.keys.text("name")),
            None => Ok(None),
        }
    }
}
