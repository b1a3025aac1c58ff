//! Stating a configuration anew, with all its defaults.

ghost use Rattle.std.specs.Prelude.{◌≡◌, List, ℕ, string_bytes, IfErr, IfOk, OnOk};
ghost use Rattle.std.specs.Io.KnownBytes.{Appends};
ghost use Rattle.roam_conf.specs.Shown.{shown};
ghost use Rattle.roam_sim.specs.Simulation.{IsConfiguration};
ghost use Rattle.roam_cli.specs.CommandLine.{Asks, to_check_all};
ghost use Rattle.roam_cli.specs.CommandFaults.{text_in, IsUnstated, StateFails, StatesAnew};
ghost use Rattle.roam_cli.specs.Outcomes.{IsDone, Prevents};

use crate::compare::configuration_in;
use crate::{Fault, TextFile, finish, statement};
use roam_conf::Config;
use roam_conf_reader::{ConfFault, Settings, read_config, read_settings};
use roam_diagnosis::Lines;
use std::alloc::Global;
use std::io::Write;
use std::rt::Files;

/// Makes the fault of a text that isn't read.
fn misread<'a>(path: &'a str, fault: ConfFault) -> Fault<'a>
    ensures { IsUnstated path.now result }
{
    match fault {
        ConfFault::Memory => Fault::Memory,
        _ => Fault::Misstated { path },
    }
}

/// Returns the text, where it states this configuration.
///
/// # Errors
///
/// `Misstated`; `Memory`.
fn expect_configuration<'a>(
    alloc: Global,
    path: &'a str,
    text: String,
    config: &Config,
) -> Result<String, Fault<'a>>
    ensures ok { IfOk result (λ stated. IsConfiguration (string_bytes stated) (shown config.now)) }
    ensures err { IfErr result (IsUnstated path.now) }
{
    match read_config(alloc, text.as_str()) {
        Ok(read) => {
            if read.is_same(config) {
                Ok(text)
            } else {
                Err(Fault::Misstated { path })
            }
        }
        Err(fault) => Err(misread(path, fault)),
    }
}

/// Looks whether a text states that a configuration is served so.
///
/// # Errors
///
/// `Misstated`; `Memory`.
fn expect_settings<'a>(
    alloc: Global,
    path: &'a str,
    text: &str,
    settings: &Settings,
) -> Result<(), Fault<'a>>
    ensures { IfErr result (IsUnstated path.now) }
{
    match read_settings(alloc, text) {
        Ok(read) => {
            if read == *settings {
                Ok(())
            } else {
                Err(Fault::Misstated { path })
            }
        }
        Err(fault) => Err(misread(path, fault)),
    }
}

/// Makes the text that states the configuration of a file with all its defaults. It was read again, and compared.
///
/// # Errors
///
/// `Misstated`; `Memory`.
fn restated<'a>(alloc: Global, file: &TextFile<'a>, config: &Config) -> Result<String, Fault<'a>>
    ensures ok { IfOk result (λ text. IsConfiguration (string_bytes text) (shown config.now)) }
    ensures err { IfErr result (IsUnstated file.now.path.now) }
{
    // Where there is a configuration there are settings too, unless memory is wanting.
    let Ok(settings) = read_settings(alloc, file.text.as_str()) else {
        return Err(Fault::Memory);
    };
    let Some(text) = statement(alloc, config, &settings) else {
        return Err(Fault::Memory);
    };
    match expect_settings(alloc, file.path, text.as_str(), &settings) {
        Ok(()) => expect_configuration(alloc, file.path, text, config),
        Err(fault) => Err(fault),
    }
}

/// Prints octets.
///
/// # Errors
///
/// `Write`.
fn print_octets<W: Write>(writer: &mut W, octets: &[u8]) -> Result<(), Fault<'static>>
    ensures ok { OnOk result (Appends (W.contents writer.old) (W.contents writer.new) octets.now) }
    ensures err { IfErr result (λ fault. fault ≡ Fault.Write) }
{
    writer.write_all(octets).map_err(|_| Fault::Write)?;
    finish(writer)
}

/// Reads a configuration, and prints it with all its defaults. Where it is refused, `lines` are where its fault stands.
///
/// # Errors
///
/// `Refused`, `Misstated` and `Memory`, and nothing is printed; `Write`.
fn state_anew<'a, W: Write>(
    alloc: Global,
    configuration: &TextFile<'a>,
    writer: &mut W,
    lines: &mut Lines,
) -> Result<(), Fault<'a>>
    ensures ok { OnOk result
        (StatesAnew (text_in configuration.now) (W.contents writer.old) (W.contents writer.new)) }
    ensures err { IfErr result
        (StateFails configuration.now (W.contents writer.old) (W.contents writer.new)) }
{
    match configuration_in(alloc, configuration, lines) {
        Err(fault) => Err(fault),
        Ok(config) => match restated(alloc, configuration, &config) {
            Err(fault) => Err(fault),
            Ok(text) => print_octets(writer, text.as_bytes()),
        },
    }
}

/// Prints the configuration of a path with all its defaults. `lines` are then what is said of one that is refused.
pub fn state_file<'a, R: Files + AllocGlobal, W: Write>(
    rt: &R,
    configuration: &'a str,
    out: &mut W,
    lines: &mut Lines,
) -> Result<(), Fault<'a>>
    ensures ok { OnOk result (IsDone (to_check_all configuration.now)
        (W.contents out.old) (W.contents out.new)) }
    ensures err { IfErr result (λ fault. (words : List (List ℕ))
        → Asks words (to_check_all configuration.now)
        → Prevents words (W.contents out.old) (W.contents out.new) fault) }
{
    match TextFile::read(rt, configuration) {
        Err(fault) => Err(fault),
        Ok(file) => state_anew(rt.alloc(), &file, out, lines),
    }
}
