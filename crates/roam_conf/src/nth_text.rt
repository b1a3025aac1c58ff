//! The number that tells a place of several of a kind from the first.

ghost use Rattle.std.specs.Prelude.{Some};
ghost use Rattle.roam_conf.specs.PlaceTexts.{nth_text};

use std::fmt;
use std::fmt::{Display, Formatter, Write};

/// The number of a place among several of its kind, behind a colon: of the first nothing.
#[derive(Clone, Copy)]
pub struct NthText(pub u16);

impl Display for NthText {
    ghost output = { λ text. Some (nth_text text.0) };

    fn fmt<W: Write>(&self, f: &mut Formatter<W>) -> fmt::Result {
        let NthText(nth) = *self;
        if nth == 0 {
            return Ok(());
        }
        write!(f, ":{nth}")
    }
}
