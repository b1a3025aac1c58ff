//! The lines of a reload.

ghost use Rattle.std.specs.Prelude.{Some};
ghost use Rattle.roam_log.specs.Reloads as spec;

use std::fmt;
use std::fmt::{Display, Formatter, Write};

/// The end of a reload.
#[derive(Clone, Copy, PartialEq, Eq)]
pub enum ReloadEnd {
    /// The file is served.
    Done,
    /// The one of before is served on, and nothing of it has changed.
    Declined,
}

/// A line of what is said of a reload, with the words for how it went before it.
#[derive(Clone, Copy)]
pub struct ReloadText<'l> {
    pub end: ReloadEnd,
    pub line: &'l str,
}

impl Display for ReloadText<'_> {
    ghost output = { λ text. Some (spec.reload_text text.end text.line.now) };

    fn fmt<W: Write>(&self, f: &mut Formatter<W>) -> fmt::Result {
        let line = self.line;
        match self.end {
            ReloadEnd::Done => write!(f, "reload: {line}"),
            ReloadEnd::Declined => write!(f, "reload declined: {line}"),
        }
    }
}
