//! Lines that are said.

ghost use Rattle.std.specs.Prelude.{◌≡◌, List, ℕ, IsTrue, string_bytes};
ghost use Rattle.roam_diagnosis.specs.Line.{is_line, is_printable};

use std::alloc::{AllocError, Global};
use std::fmt;
use std::marker::Model;

/// A line, without its line feed: printable characters of ASCII alone.
///
/// Contracts see the octets of its text.
#[derive(Drop)]
pub struct Line {
    text: String,
}

impl Model for Line {
    ghost Value = { List ℕ };

    ghost view = { λ line. string_bytes line.text };

    ghost invariant = { λ line. IsTrue (is_line (string_bytes line.text)) };
}

/// Returns whether an octet is a printable character of ASCII: from the space to `~`.
fn is_printable(octet: u8) -> bool
    ensures { result ≡ is_printable octet }
{
    32 <= octet && octet <= 126
}

impl Line {
    /// Makes a line on which nothing is said yet.
    pub(crate) fn new(alloc: Global) -> Line {
        Line {
            text: String::new(alloc),
        }
    }

    /// Returns what is said.
    pub fn as_str(&self) -> &str
        ensures text { result.now ≡ self.now }
        ensures line { IsTrue (is_line self.now) }
    {
        self.text.as_str()
    }

    /// Appends an octet, or `?` in place of one that isn't printable.
    fn push(&mut self, octet: u8) -> Result<(), AllocError> {
        if is_printable(octet) {
            self.text.push(char::from(octet))
        } else {
            self.text.push('?')
        }
    }
}

impl fmt::Write for Line {
    fn write_str(&mut self, text: &str) -> fmt::Result {
        for octet in text.bytes() {
            if self.push(octet).is_err() {
                return Err(fmt::Error);
            }
        }
        Ok(())
    }
}
