//! The losses by a configuration that follows another.

ghost use Rattle.std.specs.Prelude.{◌≡◌, List, ℕ, Option, IfErr, IfOk, MatchResult, OnOk};
ghost use Rattle.roam_conf.specs.Config.{ConfigView};
ghost use Rattle.roam_conf.specs.Shown.{shown};
ghost use Rattle.roam_reload.specs.Numbers.{laid_out};
ghost use Rattle.roam_reload.specs.Reload.{MayFollow};
ghost use Rattle.roam_sim.specs.Simulation.{IsConfiguration};
ghost use Rattle.roam_cli.specs.CommandLine.{Asks, to_compare};
ghost use Rattle.roam_cli.specs.declared.text_file.TextFile.{TextFile};
ghost use Rattle.roam_cli.specs.CommandFaults.{text_in, CheckFails, CompareFails, Follows};
ghost use Rattle.roam_cli.specs.Printed.{IsPrinted};
ghost use Rattle.roam_cli.specs.Outcomes.{IsDone, Prevents};

use crate::{Fault, TextFile, print_changes, print_hindrance, print_no_number};
use roam_conf::Config;
use roam_conf_reader::{following_config, read_config};
use roam_diagnosis::{Lines, diagnose};
use roam_reload::{Hindrance, LayFault, hindrance_of};
use std::alloc::Global;
use std::io;
use std::io::Write;
use std::rt::Files;

/// Prints that a configuration may follow another one, and what becomes of each realm.
fn print_realms_after<W: Write>(writer: &mut W, old: &Config, new: &Config) -> io::Result<()>
    ensures { OnOk result (IsPrinted (W.contents writer.old) (W.contents writer.new)) }
{
    print_hindrance(writer, None)?;
    print_changes(writer, old, new)?;
    writer.flush()
}

/// Prints that a configuration may follow another one, and what becomes of each realm; errs with the program's fault.
///
/// # Errors
///
/// `Write`.
fn print_following<W: Write>(
    writer: &mut W,
    old: &Config,
    new: &Config,
) -> Result<(), Fault<'static>>
    ensures ok { OnOk result (IsPrinted (W.contents writer.old) (W.contents writer.new)) }
    ensures err { IfErr result (λ fault. fault ≡ Fault.Write) }
{
    match print_realms_after(writer, old, new) {
        Ok(()) => Ok(()),
        Err(_) => Err(Fault::Write),
    }
}

/// Prints why a configuration may not follow another one.
fn print_why_not<W: Write>(writer: &mut W, hindrance: Hindrance) -> io::Result<()>
    ensures { OnOk result (IsPrinted (W.contents writer.old) (W.contents writer.new)) }
{
    print_hindrance(writer, Some(hindrance))?;
    writer.flush()
}

/// Prints why a configuration may not follow another one where realms or peers are more than have a number.
fn print_no_room<W: Write>(writer: &mut W) -> io::Result<()>
    ensures { OnOk result (IsPrinted (W.contents writer.old) (W.contents writer.new)) }
{
    print_no_number(writer)?;
    writer.flush()
}

/// Returns what the program ends with where one may not follow, once that could be printed.
fn not_following<'a>(path: &'a str, printed: io::Result<()>) -> Fault<'a>
    ensures { MatchResult printed (λ done. result ≡ Fault.MayNotFollow path.entry) (λ why. result ≡ Fault.Write) }
{
    match printed {
        Ok(()) => Fault::MayNotFollow { path },
        Err(_) => Fault::Write,
    }
}

/// Prints whether a configuration that is laid out by the old one may follow it, and what that takes.
///
/// # Errors
///
/// `MayNotFollow`, and why is printed; `Write`.
fn print_laid_out<'a, W: Write>(
    writer: &mut W,
    next: &TextFile<'a>,
    old: &Config,
    laid: &Config,
) -> Result<(), Fault<'a>>
    ensures may { OnOk result (MayFollow (shown old.now) (shown laid.now)) }
    ensures printed { OnOk result (IsPrinted (W.contents writer.old) (W.contents writer.new)) }
    ensures err { (first : TextFile) → (after : ConfigView) → IsConfiguration (text_in first) (shown old.now)
        → IsConfiguration (text_in next.now) after → shown laid.now ≡ laid_out (shown old.now) after
        → IfErr result (CompareFails first next.now (W.contents writer.old) (W.contents writer.new)) }
{
    match hindrance_of(old, laid) {
        None => print_following(writer, old, laid),
        Some(hindrance) => {
            let printed = print_why_not(writer, hindrance);
            Err(not_following(next.path, printed))
        }
    }
}

/// Prints whether the configuration of the next file may follow the old one, laid out by it, and what that takes.
///
/// # Errors
///
/// `MayNotFollow`, and why is printed; `Write`; `Memory`, and nothing is printed.
fn print_comparison<'a, W: Write>(
    alloc: Global,
    writer: &mut W,
    next: &TextFile<'a>,
    old: &Config,
    new: Config,
) -> Result<(), Fault<'a>>
    ensures may { OnOk result (MayFollow (shown old.now) (laid_out (shown old.now) (shown new))) }
    ensures printed { OnOk result (IsPrinted (W.contents writer.old) (W.contents writer.new)) }
    ensures err { (first : TextFile) → IsConfiguration (text_in first) (shown old.now)
        → IsConfiguration (text_in next.now) (shown new)
        → IfErr result (CompareFails first next.now (W.contents writer.old) (W.contents writer.new)) }
{
    match following_config(alloc, old, new) {
        Err(LayFault::Memory) => Err(Fault::Memory),
        Err(LayFault::Numbers) => {
            let printed = print_no_room(writer);
            Err(not_following(next.path, printed))
        }
        Ok(laid) => print_laid_out(writer, next, old, &laid),
    }
}

/// Reads the configuration of a file; where it is refused, `lines` say where its fault stands.
///
/// # Errors
///
/// `Refused`; `Memory`.
pub fn configuration_in<'a>(
    alloc: Global,
    file: &TextFile<'a>,
    lines: &mut Lines,
) -> Result<Config, Fault<'a>>
    ensures ok { IfOk result (λ config. IsConfiguration (text_in file.now) (shown config)) }
    ensures err { (out : Option (List ℕ)) → IfErr result (CheckFails file.now out out) }
{
    match read_config(alloc, file.text.as_str()) {
        Ok(config) => Ok(config),
        Err(fault) => {
            *lines = diagnose(alloc, file.path, file.text.as_str(), fault);
            Err(Fault::of_configuration(file.path, fault))
        }
    }
}

/// Reads two configurations, and prints whether the second may follow the first, and what becomes of each realm then.
/// The seed of the first stays: that of the second isn't looked at. Where one is refused, `lines` say where its fault
/// stands.
///
/// # Errors
///
/// `Refused`, and nothing is printed; `MayNotFollow`, and why is printed; `Write`; `Memory`, and nothing is printed.
fn compare<'a, W: Write>(
    alloc: Global,
    configuration: &TextFile<'a>,
    next: &TextFile<'a>,
    writer: &mut W,
    lines: &mut Lines,
) -> Result<(), Fault<'a>>
    ensures may { OnOk result (Follows (text_in configuration.now) (text_in next.now)) }
    ensures printed { OnOk result (IsPrinted (W.contents writer.old) (W.contents writer.new)) }
    ensures err { IfErr result (CompareFails configuration.now next.now
        (W.contents writer.old) (W.contents writer.new)) }
{
    match configuration_in(alloc, configuration, lines) {
        Err(fault) => Err(fault),
        Ok(old) => match configuration_in(alloc, next, lines) {
            Err(fault) => Err(fault),
            Ok(new) => print_comparison(alloc, writer, next, &old, new),
        },
    }
}

/// Compares the configurations of two paths. `lines` are then what is said of the one that is refused.
pub fn compare_files<'a, R: Files + AllocGlobal, W: Write>(
    rt: &R,
    configuration: &'a str,
    next: &'a str,
    out: &mut W,
    lines: &mut Lines,
) -> Result<(), Fault<'a>>
    ensures ok { OnOk result (IsDone (to_compare configuration.now next.now)
        (W.contents out.old) (W.contents out.new)) }
    ensures err { IfErr result (λ fault. (words : List (List ℕ))
        → Asks words (to_compare configuration.now next.now)
        → Prevents words (W.contents out.old) (W.contents out.new) fault) }
{
    let configuration = TextFile::read(rt, configuration)?;
    let next = TextFile::read(rt, next)?;
    compare(rt.alloc(), &configuration, &next, out, lines)
}
