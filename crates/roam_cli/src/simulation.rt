//! Running a script over a configuration.

ghost use Rattle.std.specs.Prelude.{List, ℕ, OnOk, IfErr};
ghost use Rattle.roam_sim.specs.Simulation.{Simulates};
ghost use Rattle.roam_cli.specs.CommandLine.{Asks, to_simulate};
ghost use Rattle.roam_cli.specs.CommandFaults.{text_in, RunFails};
ghost use Rattle.roam_cli.specs.Outcomes.{IsDone, Prevents};

use crate::{Fault, TextFile, finish};
use roam_diagnosis::{Lines, diagnose};
use roam_sim::{SimFault, sim};
use std::alloc::Global;
use std::io::Write;
use std::rt::Files;

/// Runs a script over a configuration, and prints a line for each packet that leaves. Where the configuration is
/// refused, `lines` are where its fault stands.
///
/// # Errors
///
/// `Refused` and `FaultyLine`, and nothing is printed; `Write`; `Memory`, also where an event of the script met
/// want of memory, and then the packets of the others were printed.
fn simulate<'a, W: Write>(
    alloc: Global,
    configuration: &TextFile<'a>,
    script: &TextFile<'a>,
    writer: &mut W,
    lines: &mut Lines,
) -> Result<(), Fault<'a>>
    ensures ok { OnOk result (Simulates (text_in configuration.now) (text_in script.now)
        (W.contents writer.old) (W.contents writer.new)) }
    ensures err { IfErr result (RunFails configuration.now script.now
        (W.contents writer.old) (W.contents writer.new)) }
{
    match sim(
        alloc,
        configuration.text.as_str(),
        script.text.as_str(),
        writer,
    ) {
        Ok(()) => finish(writer),
        Err(SimFault::Config(fault)) => {
            *lines = diagnose(
                alloc,
                configuration.path,
                configuration.text.as_str(),
                fault,
            );
            Err(Fault::of_configuration(configuration.path, fault))
        }
        Err(SimFault::Line(number)) => Err(Fault::FaultyLine {
            path: script.path,
            number,
        }),
        Err(SimFault::Write) => Err(Fault::Write),
        Err(SimFault::Memory) => {
            finish(writer)?;
            Err(Fault::Memory)
        }
    }
}

/// Runs the script of a path over the configuration of a path. `lines` are then what is said of the configuration.
pub fn simulate_files<'a, R: Files + AllocGlobal, W: Write>(
    rt: &R,
    configuration: &'a str,
    script: &'a str,
    out: &mut W,
    lines: &mut Lines,
) -> Result<(), Fault<'a>>
    ensures ok { OnOk result (IsDone (to_simulate configuration.now script.now)
        (W.contents out.old) (W.contents out.new)) }
    ensures err { IfErr result (λ fault. (words : List (List ℕ))
        → Asks words (to_simulate configuration.now script.now)
        → Prevents words (W.contents out.old) (W.contents out.new) fault) }
{
    let configuration = TextFile::read(rt, configuration)?;
    let script = TextFile::read(rt, script)?;
    simulate(rt.alloc(), &configuration, &script, out, lines)
}
