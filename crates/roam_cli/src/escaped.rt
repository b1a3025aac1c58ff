//! Paths, and words of the command line, as a message shows them.

ghost use Rattle.std.specs.Prelude.{◌≡◌, ◌<◌, Some};
ghost use Rattle.roam_cli.specs.Escaped as spec;

use std::fmt;
use std::fmt::{Display, Formatter, Write};

/// Returns a hexadecimal digit, in lower case.
fn digit(number: u8) -> u8
    requires { number < 16 }
    ensures { result ≡ spec.digit number }
{
    if number < 10 {
        b'0' + number
    } else {
        b'a' + (number - 10)
    }
}

/// Returns whether an octet is shown as it is: it is printable in ASCII, and no reverse solidus.
fn is_shown(octet: u8) -> bool
    ensures { result ≡ spec.is_shown octet }
{
    octet >= 32 && octet <= 126 && octet != b'\\'
}

/// An octet as a message shows it: as it is, or as `\x` and two hexadecimal digits.
#[derive(Clone, Copy)]
struct EscapedOctet(u8);

impl Display for EscapedOctet {
    ghost output = { λ shown. Some (spec.escaped_octet shown.0) };

    fn fmt<W: Write>(&self, f: &mut Formatter<W>) -> fmt::Result {
        let octet = self.0;
        if is_shown(octet) {
            f.write_char(char::from(octet))
        } else {
            let high = char::from(digit(octet / 16));
            let low = char::from(digit(octet % 16));
            write!(f, "\\x{high}{low}")
        }
    }
}

/// Octets as a message shows them: none steers a terminal or ends the line.
#[derive(Clone, Copy)]
pub(crate) struct Escaped<'a>(pub(crate) &'a [u8]);

impl Display for Escaped<'_> {
    ghost output = { λ shown. Some (spec.escaped shown.0.now) };

    fn fmt<W: Write>(&self, f: &mut Formatter<W>) -> fmt::Result {
        for octet in self.0 {
            let shown = EscapedOctet(*octet);
            write!(f, "{shown}")?;
        }
        Ok(())
    }
}

/// Returns a path, or a word of the command line, as a message shows it.
pub(crate) fn shown(text: &str) -> Escaped<'_>
    ensures { result.0.now ≡ text.now }
{
    Escaped(text.as_bytes())
}
