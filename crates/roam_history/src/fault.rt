//! The causes why a hub's call isn't recorded.

ghost use Rattle.std.specs.Prelude.{Some};
ghost use Rattle.roam_history.specs.Texts.{text_of};

use roam_shard::TraceFault;
use roam_wire::{NoMemory, Refusal};
use std::{error, fmt};

/// The cause why a call of a hub isn't recorded: nothing changes then. They are looked at in this order, but for
/// `NoMemory`, which comes wherever a growth was refused, and where a history has 2^64 - 1 entries.
#[derive(Clone, Copy, Debug, PartialEq, Eq)]
pub enum HubFault {
    /// A tick names no shard (refusal 20).
    NoShard,
    /// The lock holds another shard's trace, or one that doesn't go on from what the seat has seen
    /// (refusal 23).
    Misplaced,
    /// As many steps of the shard are stored as its trace can hold (refusal 22).
    TraceFull,
    /// A growth was refused (refusal 21).
    NoMemory,
}

impl HubFault {
    ghost use Rattle.std.specs.Prelude.{◌≡◌};
    ghost use Rattle.roam_history.specs.Faults.{refusal_of};

    /// Returns the refusal that the fault is told as.
    pub fn refusal(self) -> Refusal
        ensures { result ≡ refusal_of self }
    {
        match self {
            HubFault::NoShard => Refusal::NoShard,
            HubFault::Misplaced => Refusal::Misplaced,
            HubFault::TraceFull => Refusal::TraceFull,
            HubFault::NoMemory => Refusal::NoMemory,
        }
    }
}

impl fmt::Display for HubFault {
    ghost output = { λ fault. Some (text_of fault) };

    fn fmt<W: fmt::Write>(&self, f: &mut fmt::Formatter<W>) -> fmt::Result {
        f.write_str(match self {
            HubFault::NoShard => "no such shard",
            HubFault::Misplaced => "another shard's trace",
            HubFault::TraceFull => "the trace is full",
            HubFault::NoMemory => "out of memory",
        })
    }
}

impl error::Error for HubFault {}

impl From<NoMemory> for HubFault {
    ghost use Rattle.std.specs.Prelude.{◌≡◌};
    ghost use Rattle.roam_history.specs.declared.fault.HubFault.TheVariants.{NoMemory};

    ghost from_gives = { λ _ given. given ≡ NoMemory };

    fn from(_: NoMemory) -> HubFault {
        HubFault::NoMemory
    }
}

impl From<TraceFault> for HubFault {
    ghost use Rattle.std.specs.Prelude.{◌≡◌};
    ghost use Rattle.roam_history.specs.Faults.{of_trace};

    ghost from_gives = { λ fault given. given ≡ of_trace fault };

    fn from(fault: TraceFault) -> HubFault {
        match fault {
            TraceFault::TraceFull => HubFault::TraceFull,
            TraceFault::NoMemory => HubFault::NoMemory,
        }
    }
}
