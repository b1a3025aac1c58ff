//! The causes why a step isn't recorded.

ghost use Rattle.std.specs.Prelude.{Some};
ghost use Rattle.roam_shard.specs.Texts.{text_of};

use roam_wire::NoMemory;
use std::{error, fmt};

/// The cause why a step isn't recorded: nothing changes then. `TraceFull` is looked at first.
#[derive(Clone, Copy, Debug, PartialEq, Eq)]
pub enum TraceFault {
    /// The trace holds as many steps as its limit (refusal 22).
    TraceFull,
    /// A growth was refused (refusal 21).
    NoMemory,
}

impl fmt::Display for TraceFault {
    ghost output = { λ fault. Some (text_of fault) };

    fn fmt<W: fmt::Write>(&self, f: &mut fmt::Formatter<W>) -> fmt::Result {
        f.write_str(match self {
            TraceFault::TraceFull => "the trace is full",
            TraceFault::NoMemory => "out of memory",
        })
    }
}

impl error::Error for TraceFault {}

impl From<NoMemory> for TraceFault {
    ghost use Rattle.std.specs.Prelude.{◌≡◌};
    ghost use Rattle.roam_shard.specs.declared.fault.TraceFault.TheVariants.{NoMemory};

    ghost from_gives = { λ _ given. given ≡ NoMemory };

    fn from(_: NoMemory) -> TraceFault {
        TraceFault::NoMemory
    }
}
