//! Of which exchanges a server's log tells.

/// Of which of the exchanges that end a line tells (the key `log_exchanges`).
#[derive(Clone, Copy, Debug, PartialEq, Eq)]
pub enum ExchangeLines {
    /// `"all"`, or true: of each.
    OfAll,
    /// `"final"`: of those that an accept, a reject or no reply ends, and of session control; not of rounds of
    /// EAP, nor of accounting.
    OfFinal,
    /// `"none"`, or false: of none.
    OfNone,
}
