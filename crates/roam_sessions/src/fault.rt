//! The causes why octets aren't read as sessions.

ghost use Rattle.std.specs.Prelude.{◌≡◌};
ghost use Rattle.roam_sessions.specs.declared.fault.ReadError.TheVariants.{Memory};

use std::alloc::{AllocError, AllocFailed};

/// A fault of the octets: the first one from left to right.
#[derive(Clone, Copy, Debug, PartialEq, Eq)]
pub enum LedgerFault {
    /// They don't begin as a file of ledgers does.
    Foreign,
    /// They are a file of ledgers in another form.
    Version,
    /// They end before their end.
    Cut,
    /// An octet stands where it says nothing.
    Malformed,
    /// Octets stand behind the end.
    Trailing,
}

impl LedgerFault {
    /// Returns what is said of it.
    pub fn text(self) -> &'static str {
        match self {
            LedgerFault::Foreign => "no file of sessions",
            LedgerFault::Version => "another version's file of sessions",
            LedgerFault::Cut => "cut",
            LedgerFault::Malformed => "malformed",
            LedgerFault::Trailing => "octets behind the end",
        }
    }
}

/// The cause why reading gave nothing.
#[derive(Debug, Drop)]
pub enum ReadError {
    Memory,
    Fault(LedgerFault),
}

impl From<AllocError> for ReadError {
    ghost from_gives = { λ _ e. e ≡ Memory };

    fn from(_e: AllocError) -> ReadError {
        ReadError::Memory
    }
}

impl<T: Drop> From<AllocFailed<T>> for ReadError {
    ghost from_gives = { λ _ e. e ≡ Memory };

    fn from(_e: AllocFailed<T>) -> ReadError {
        ReadError::Memory
    }
}
