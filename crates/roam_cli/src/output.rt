//! The writer of what the program prints.

ghost use Rattle.std.specs.Prelude.{◌≡◌, IfErr};
ghost use Rattle.std.specs.Io.KnownBytes.{Keeps};

use crate::report::Fault;
use std::io::Write;

/// Hands on what a writer holds back.
///
/// # Errors
///
/// `Write` where that is refused.
pub fn finish<W: Write>(writer: &mut W) -> Result<(), Fault<'static>>
    ensures kept { Keeps (W.contents writer.old) (W.contents writer.new) }
    ensures err { IfErr result (λ fault. fault ≡ Fault.Write) }
{
    writer.flush().map_err(|_| Fault::Write)
}
