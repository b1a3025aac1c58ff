//! The lines of a diagnosis.

ghost use Rattle.std.specs.Prelude.{◌≡◌, List, ℕ, [], ◌∷◌, OnOk};
ghost use Rattle.std.specs.Io.KnownBytes.{Appends};
ghost use Rattle.roam_diagnosis.specs.Lines.{IsDiagnosis, printed};

use crate::line::Line;
use std::alloc::Global;
use std::fmt::Write as _;
use std::io::Write;
use std::marker::Model;
use std::{fmt, io, mem};

/// The most lines that are printed.
const MOST_LINES: usize = 10;

/// The lines of a diagnosis, ten at most. Contracts see the text of each.
#[derive(Drop)]
pub struct Lines {
    alloc: Global,
    lines: Vec<Line>,
    /// The line that is being said.
    line: Line,
    /// True where a growth of memory was refused.
    has_failed: bool,
}

impl Model for Lines {
    ghost Value = { List (List ℕ) };

    ghost view = { λ said. said.lines.items };

    ghost invariant = { λ said. IsDiagnosis said.lines.items };
}

impl Lines {
    /// Makes an empty list of lines.
    pub fn new(alloc: Global) -> Lines
        ensures { result ≡ [] }
    {
        Lines {
            alloc,
            lines: Vec::new(alloc),
            line: Line::new(alloc),
            has_failed: false,
        }
    }

    /// Returns the lines, in the order in which they are printed.
    pub fn as_slice(&self) -> &[Line]
        ensures lines { result.now ≡ self.now }
        ensures few { IsDiagnosis self.now }
    {
        self.lines.as_slice()
    }

    /// Prints the lines, each with a line feed.
    ///
    /// # Errors
    ///
    /// The writer's.
    pub fn print<W: Write>(&self, writer: &mut W) -> io::Result<()>
        ensures ok { OnOk result (Appends (W.contents writer.old) (W.contents writer.new) (printed self.now)) }
        ensures nothing { self.now ≡ [] → writer.new ≡ writer.old }
        ensures lines { IsDiagnosis self.now }
    {
        if self.lines.is_empty() {
            return Ok(());
        }
        print_each(writer, self.lines.as_slice())
    }

    /// Returns whether no further line is taken.
    pub(crate) fn is_full(&self) -> bool {
        self.lines.len() >= MOST_LINES
    }

    /// Says a text, in the line that is being said.
    pub(crate) fn say(&mut self, text: &str) {
        let has_failed = self.line.write_str(text).is_err();
        self.has_failed |= has_failed;
    }

    /// Says what is shown between two texts, in the line that is being said.
    pub(crate) fn put<D: fmt::Display + Copy>(&mut self, before: &str, shown: D, behind: &str) {
        let has_failed = write!(self.line, "{before}{shown}{behind}").is_err();
        self.has_failed |= has_failed;
    }

    /// Says the number of a character, as an escape, in the line that is being said.
    pub(crate) fn escape(&mut self, character: char) {
        let has_failed = write!(self.line, "\\u{{{:x}}}", u32::from(character)).is_err();
        self.has_failed |= has_failed;
    }

    /// Ends the line that is being said, and appends it, unless there are ten.
    pub(crate) fn end_line(&mut self) {
        let line = mem::replace(&mut self.line, Line::new(self.alloc));
        self.push(line);
    }

    /// Appends a line, unless there are ten.
    fn push(&mut self, line: Line) {
        if self.lines.len() < MOST_LINES {
            let has_failed = self.lines.push(line).is_err();
            self.has_failed |= has_failed;
        }
    }

    /// Takes down that a growth of memory was refused, so that nothing is said.
    pub(crate) fn fail(&mut self) {
        self.has_failed = true;
    }

    /// Returns the lines that came about, or none where memory was wanting.
    pub(crate) fn unless_failed(self) -> Lines {
        if self.has_failed {
            Lines::new(self.alloc)
        } else {
            self
        }
    }
}

/// Prints a line with a line feed.
fn print_line<W: Write>(writer: &mut W, line: &Line) -> io::Result<()>
    ensures { OnOk result (Appends (W.contents writer.old) (W.contents writer.new) (printed (line.now ∷ []))) }
{
    let text = line.as_str();
    writeln!(writer, "{text}")
}

/// Prints lines, each with a line feed.
fn print_each<W: Write>(writer: &mut W, lines: &[Line]) -> io::Result<()>
    ensures { OnOk result (Appends (W.contents writer.old) (W.contents writer.new) (printed lines.now)) }
{
    for line in lines {
        print_line(writer, line)?;
    }
    Ok(())
}
