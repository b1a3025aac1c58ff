//! The faults that an audit finds.

ghost use Rattle.std.specs.Prelude.{Some};
ghost use Rattle.roam_history.specs.AuditTexts.{text_of};

use std::error::Error;
use std::fmt;

/// A fault that an audit finds. A fault of seats comes before any of a receipt.
#[derive(Clone, Copy, Debug, PartialEq, Eq)]
pub enum AuditFault {
    /// The least shard whose steps aren't as many as the seats counted, or whose stored steps were let go of more often
    /// or less than they say, or where a seat is marked.
    Seats { shard: u16 },
    /// The first receipt that isn't in the report, or is there a second time: its shard and number.
    Receipt { shard: u16, number: u64 },
}

impl fmt::Display for AuditFault {
    ghost output = { λ fault. Some (text_of fault) };

    fn fmt<W: fmt::Write>(&self, f: &mut fmt::Formatter<W>) -> fmt::Result {
        match self {
            AuditFault::Seats { shard } => write!(f, "seats of shard {shard}"),
            AuditFault::Receipt { shard, number } => write!(f, "receipt {number} of shard {shard}"),
        }
    }
}

impl Error for AuditFault {}
