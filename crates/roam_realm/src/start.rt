//! The start of a realm.

/// The start of a realm: its place in the stream of random words, and its next ticket.
#[derive(Clone, Copy, Debug, PartialEq, Eq)]
pub struct Start {
    /// In 32-bit words, below 2^68.
    pub place: u128,
    /// At most 2^63.
    pub ticket: u64,
}
