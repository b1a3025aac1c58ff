//! The usage, and which program this is.

ghost use Rattle.std.specs.Prelude.{OnOk};
ghost use Rattle.std.specs.Io.KnownBytes.{Appends};
ghost use Rattle.roam_cli.specs.Report as spec;

use std::io;
use std::io::Write;

/// The usage: a line for each command.
pub(crate) const USAGE: &str =
    "usage: roam check CONF\n       roam check OLD NEW\n       roam check --all CONF (prints the secrets too)\n       roam sim CONF SCRIPT\n       roam serve [--seed-of-file] CONF [MS]\n       roam ctl [PATH] status [--json|--watch|--problems|REALM[,REALM..]]\n       roam ctl [PATH] metrics|stop|trace N\n       roam ctl [PATH] reload [--lose] (without PATH: /run/roam/control)\n       roam streams CONF [MS]\n       roam check --streams CONF\n       roam help\n       roam version\n";

/// Prints the usage.
///
/// # Errors
///
/// The writer's.
pub fn print_usage<W: Write>(writer: &mut W) -> io::Result<()>
    ensures { OnOk result
        (Appends (W.contents writer.old) (W.contents writer.new) spec.usage_text) }
{
    writer.write_all(USAGE.as_bytes())
}

/// Prints which program this is, and the line of the toolchain that proved it.
///
/// # Errors
///
/// The writer's.
pub fn print_version<W: Write>(writer: &mut W) -> io::Result<()>
    ensures { OnOk result
        (Appends (W.contents writer.old) (W.contents writer.new) spec.version_text) }
{
    writer.write_all(b"roam 1.0.0\nrattle-kit-13f logic dac8208d650f15bf\n")
}
