//! The deadline of an entry.

/// The deadline of an entry, and its ticket: dues are ordered by deadline, and at one deadline by ticket.
#[derive(Clone, Copy, PartialEq, Eq, PartialOrd, Ord)]
pub struct Due {
    /// In milliseconds.
    pub deadline: u64,
    pub ticket: u64,
}
