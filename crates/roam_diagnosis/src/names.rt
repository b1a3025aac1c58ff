//! The names of a realm, and what of them is unwise.

use crate::document::{Document, Located};
use crate::peer_names::lower;
use crate::place::TableKind;
use indexmap::IndexSet;
use std::alloc::{AllocError, Global};
use std::hash::{BuildHasherDefault, FoldHasher};
use toml::Value;

/// Returns whether this text stands under the key, without ASCII case: alone, or among others.
pub(crate) fn has_text(at: Located<'_>, key: &str, text: &str) -> bool {
    for value in at.keys.values(key) {
        if let Value::String(found) = value {
            if found.as_str().eq_ignore_ascii_case(text) {
                return true;
            }
        }
    }
    false
}

/// Returns whether the realm takes any name.
pub(crate) fn takes_any(realm: Located<'_>) -> bool {
    has_text(realm, "also", "*")
}

/// Returns whether a name has to be well formed to fit a pattern.
pub(crate) fn are_well_formed(document: &Document<'_>) -> bool {
    match document.top() {
        Some(top) => top.is_set("well_formed"),
        None => false,
    }
}

/// The patterns of all realms together.
#[derive(Drop)]
pub(crate) struct Patterns {
    /// True where some realm takes any name.
    take_any: bool,
    /// The text behind each `*.`, in lower case.
    endings: IndexSet<String, BuildHasherDefault<FoldHasher>, Global>,
    /// The counts of the realms whose names would go to the realm of `*` with a label in front.
    open_below: IndexSet<u32, BuildHasherDefault<FoldHasher>, Global>,
}

impl Patterns {
    /// Returns what the patterns of a document's realms take.
    pub(crate) fn new(document: &Document<'_>) -> Result<Patterns, AllocError> {
        let alloc = document.alloc;
        let mut patterns = Patterns {
            take_any: false,
            endings: IndexSet::new(alloc),
            open_below: IndexSet::new(alloc),
        };
        for at in document.tables.as_slice() {
            if at.place.kind == TableKind::Realm {
                patterns.note_all(alloc, at.keys.items("also"))?;
            }
        }
        patterns.note_open(document)?;
        Ok(patterns)
    }

    /// Notes the patterns of a realm.
    fn note_all(&mut self, alloc: Global, items: &[Value]) -> Result<(), AllocError> {
        for item in items {
            if let Value::String(pattern) = item {
                self.note(alloc, pattern.as_str())?;
            }
        }
        Ok(())
    }

    /// Notes a pattern.
    fn note(&mut self, alloc: Global, pattern: &str) -> Result<(), AllocError> {
        self.take_any |= pattern == "*";
        if let Some(ending) = pattern.strip_prefix("*.") {
            self.endings.insert(lower(alloc, ending)?)?;
        }
        Ok(())
    }

    /// Notes the realms whose names are open below.
    fn note_open(&mut self, document: &Document<'_>) -> Result<(), AllocError> {
        if !self.take_any {
            return Ok(());
        }
        for at in document.tables.as_slice() {
            if at.place.kind == TableKind::Realm && self.leave_open(document.alloc, *at)? {
                self.open_below.insert(at.place.index)?;
            }
        }
        Ok(())
    }

    /// Returns whether no pattern but `*` of another realm takes the names below a realm's.
    fn leave_open(&self, alloc: Global, at: Located<'_>) -> Result<bool, AllocError> {
        match at.keys.text("name") {
            Some(name) if !takes_any(at) => {
                let lowered = lower(alloc, name)?;
                Ok(!self.take_below(lowered.as_str()))
            }
            _ => Ok(false),
        }
    }

    /// Returns whether a pattern takes all names below the name, which is in lower case.
    fn take_below(&self, name: &str) -> bool {
        let mut rest = name;
        for _ in 0..name.len().saturating_add(1) {
            if self.endings.contains(rest) {
                return true;
            }
            match rest.split_once('.') {
                Some((_, behind)) => rest = behind,
                None => return false,
            }
        }
        false
    }

    /// Returns whether names below a realm's go to another realm, which takes any.
    pub(crate) fn are_open_below(&self, at: Located<'_>) -> bool {
        self.open_below.contains(&at.place.index)
    }
}
