//! The causes why a simulation ends early.

ghost use Rattle.std.specs.Prelude.{Some};
ghost use Rattle.roam_sim.specs.Faults.{text_of};

use crate::script::ScriptFault;
use roam_conf_reader::ConfFault;
use roam_wire::NoMemory;
use std::{error, fmt, io};

/// The cause why a simulation ends early. Its text is what is printed of it.
///
/// The configuration is judged before the script, and both before anything is written.
#[derive(Clone, Copy, Debug, PartialEq, Eq)]
pub enum SimFault {
    /// The first fault of the configuration's text. Never `ConfFault::Memory`.
    Config(ConfFault),
    /// The script's first faulty line. Lines are counted from 1, those that are skipped too.
    Line(u64),
    /// A write was refused; what was written before it stands.
    Write,
    /// Want of memory: nothing was written; or some events were lost, and the lines of the packets that
    /// the others sent were written.
    Memory,
}

impl fmt::Display for SimFault {
    ghost output = { λ fault. Some (text_of fault) };

    fn fmt<W: fmt::Write>(&self, f: &mut fmt::Formatter<W>) -> fmt::Result {
        match *self {
            SimFault::Config(fault) => write!(f, "{fault}"),
            SimFault::Line(number) => write!(f, "line {number}"),
            SimFault::Write => f.write_str("write failed"),
            SimFault::Memory => f.write_str("out of memory"),
        }
    }
}

impl error::Error for SimFault {}

impl From<NoMemory> for SimFault {
    ghost use Rattle.std.specs.Prelude.{◌≡◌};
    ghost use Rattle.roam_sim.specs.declared.fault.SimFault.TheVariants.{Memory};

    ghost from_gives = { λ _ given. given ≡ Memory };

    fn from(_: NoMemory) -> SimFault {
        SimFault::Memory
    }
}

impl From<ConfFault> for SimFault {
    ghost use Rattle.std.specs.Prelude.{◌≡◌};
    ghost use Rattle.roam_sim.specs.Faults.{of_configuration};

    ghost from_gives = { λ fault given. given ≡ of_configuration fault };

    fn from(fault: ConfFault) -> SimFault {
        match fault {
            ConfFault::Memory => SimFault::Memory,
            _ => SimFault::Config(fault),
        }
    }
}

impl From<ScriptFault> for SimFault {
    ghost use Rattle.std.specs.Prelude.{◌≡◌};
    ghost use Rattle.roam_sim.specs.Faults.{of_script};

    ghost from_gives = { λ fault given. given ≡ of_script fault };

    fn from(fault: ScriptFault) -> SimFault {
        match fault {
            ScriptFault::Line(number) => SimFault::Line(number),
            ScriptFault::Memory => SimFault::Memory,
        }
    }
}

impl From<io::Error> for SimFault {
    ghost use Rattle.std.specs.Prelude.{◌≡◌};
    ghost use Rattle.roam_sim.specs.declared.fault.SimFault.TheVariants.{Write};

    ghost from_gives = { λ _ given. given ≡ Write };

    fn from(_: io::Error) -> SimFault {
        SimFault::Write
    }
}
