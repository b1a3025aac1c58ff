//! The fate of a realm's accounting.

/// The fate of the Accounting-Requests for a realm (the key `accounting`).
#[derive(Clone, Copy, Debug, PartialEq, Eq)]
pub enum Accounting {
    /// `"forward"`: they are forwarded to its servers.
    Forwarded,
    /// `"answer"`: the broker answers them itself.
    Answered,
    /// `"drop"`: they are refused.
    Dropped,
}
