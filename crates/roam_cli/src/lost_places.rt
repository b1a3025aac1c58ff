//! The lines that say what is lost where one of a realm's own endpoints is another one.

ghost use Rattle.std.specs.Prelude.{OnOk};
ghost use Rattle.roam_cli.specs.Printed.{IsPrinted};

use roam_conf::{Endpoint, Realm};
use roam_reload::is_same_out;
use std::io;
use std::io::Write;

/// Returns whether one of a realm's `out` is what it was.
pub(crate) fn keeps_an_out(before: &Realm, after: &Realm) -> bool {
    for out in 0..before.out.len() {
        if is_same_out(before, after, out as u8) {
            return true;
        }
    }
    false
}

/// Prints that what waits is lost by an `out`, where this isn't what it was.
fn print_lost_out<W: Write>(
    writer: &mut W,
    before: &Realm,
    after: &Realm,
    nth: u8,
    out: Endpoint,
) -> io::Result<()>
    ensures { OnOk result (IsPrinted (W.contents writer.old) (W.contents writer.new)) }
{
    if is_same_out(before, after, nth) {
        return Ok(());
    }
    let name = after.name.as_str();
    writeln!(writer, "realm {name}: loses what waits by {out}: out")
}

/// Prints by which `out` what waits is lost, where some are what they were.
pub(crate) fn print_lost_outs<W: Write>(
    writer: &mut W,
    before: &Realm,
    after: &Realm,
) -> io::Result<()>
    ensures { OnOk result (IsPrinted (W.contents writer.old) (W.contents writer.new)) }
{
    for nth in 0..before.out.len() {
        print_lost_out(writer, before, after, nth as u8, before.out[nth])?;
    }
    Ok(())
}

/// Returns whether what came at one of a realm's `reverse` is answered from another endpoint then, or from none.
pub(crate) fn loses_reverse(before: &Realm, after: &Realm) -> bool {
    for (nth, reverse) in before.reverse.iter().enumerate() {
        if after.reverse.get(nth) != Some(reverse) {
            return true;
        }
    }
    false
}
