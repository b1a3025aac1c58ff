//! The counts of one caller of one shard.

/// The counts of one caller's recorded calls in one shard.
#[derive(Clone, Copy, PartialEq, Eq)]
pub struct Tally {
    /// The number of calls. At 2^64 - 1 it stays.
    pub calls: u64,
    /// The number after that of the last one; 0 before the first.
    pub next: u64,
    /// A call's number was below `next`, or `calls` could rise no further.
    pub is_marked: bool,
}
