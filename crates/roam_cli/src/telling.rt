//! The usage, and which program this is, on standard output; and advice on standard error.

ghost use Rattle.std.specs.Prelude.{◌≡◌, map, OnOk, IfErr};
ghost use Rattle.std.specs.Io.KnownBytes.{Appends};
ghost use Rattle.roam_cli.specs.CommandLine.{AsksToCheck};
ghost use Rattle.roam_cli.specs.Report.{Says, usage_text, version_text};

use crate::command_line::Command;
use crate::output::finish;
use crate::report::{Fault, ProgramEnd};
use crate::usage::{print_usage, print_version};
use roam_diagnosis::Lines;
use std::convert::AsStr;
use std::io::Write;

/// Prints the usage.
///
/// # Errors
///
/// `Write`.
pub fn tell_usage<W: Write>(writer: &mut W) -> Result<(), Fault<'static>>
    ensures ok { OnOk result
        (Appends (W.contents writer.old) (W.contents writer.new) usage_text) }
    ensures err { IfErr result (λ fault. fault ≡ Fault.Write) }
{
    print_usage(writer).map_err(|_| Fault::Write)?;
    finish(writer)
}

/// Prints which program this is.
///
/// # Errors
///
/// `Write`.
pub fn tell_version<W: Write>(writer: &mut W) -> Result<(), Fault<'static>>
    ensures ok { OnOk result
        (Appends (W.contents writer.old) (W.contents writer.new) version_text) }
    ensures err { IfErr result (λ fault. fault ≡ Fault.Write) }
{
    print_version(writer).map_err(|_| Fault::Write)?;
    finish(writer)
}

/// Tells what is unwise in a configuration, where the words ask for a check: how the program ends after one that is
/// accepted.
pub fn tell_advice<S: AsStr, E: Write>(words: &[S], lines: &Lines, err: &mut E) -> ProgramEnd
    ensures status { result.status ≡ 0 }
    ensures silent { ¬ (AsksToCheck (map S.text words.now)) → err.new ≡ err.old }
    ensures advice { OnOk result.told (Says (E.contents err.old) (E.contents err.new)) }
{
    let told = match Command::from_words(words) {
        Some(Command::Check { .. }) => lines.print(err),
        _ => Ok(()),
    };
    ProgramEnd { status: 0, told }
}
