//! The text of each fault.

ghost use Rattle.std.specs.Prelude.{◌≡◌, OnOk, Some};
ghost use Rattle.std.specs.Io.KnownBytes.{Appends};
ghost use Rattle.roam_cli.specs.Report as spec;

use crate::escaped::{Escaped, shown};
use crate::reasons::ReasonText;
use crate::report::{Fault, ProgramEnd};
use crate::usage::USAGE;
use roam_diagnosis::Lines;
use std::fmt::{Display, Formatter};
use std::io::Write;
use std::{fmt, io};

/// The beginning of a fault's text: the program, and the word, the path or what else the fault is about.
#[derive(Clone, Copy)]
struct Beginning<'a>(Fault<'a>);

impl Display for Beginning<'_> {
    ghost output = { λ text. Some (spec.beginning_of text.0) };

    fn fmt<W: fmt::Write>(&self, f: &mut Formatter<W>) -> fmt::Result {
        match self.0 {
            Fault::Usage => f.write_str(""),
            Fault::NoCommand { word } | Fault::NoTime { word } => {
                write!(f, "roam: {word}: ", word = shown(word))
            }
            Fault::Unreadable { path, .. }
            | Fault::MayNotFollow { path }
            | Fault::Misstated { path }
            | Fault::Unanswered { path, .. }
            | Fault::Late { path, .. }
            | Fault::StillServes { path, .. }
            | Fault::Cut { path }
            | Fault::Declined { path, .. }
            | Fault::Refused { path, .. }
            | Fault::FaultyLine { path, .. } => write!(f, "roam: {path}: ", path = shown(path)),
            Fault::NotText { path, line } => {
                write!(f, "roam: {path}:{line}: ", path = shown(path))
            }
            Fault::Bind { endpoint, .. } => write!(f, "roam: cannot bind {endpoint}: "),
            Fault::Control { path, .. } => {
                let path = Escaped(path.octets());
                write!(f, "roam: cannot listen at {path}: ")
            }
            Fault::State { path, .. } => {
                let path = Escaped(path.octets());
                write!(f, "roam: cannot keep sessions in {path}: ")
            }
            Fault::Descriptors { .. } => f.write_str("roam: too few file descriptors: "),
            Fault::Wait { .. } => f.write_str("roam: cannot wait for sockets: "),
            _ => f.write_str("roam: "),
        }
    }
}

/// The end of a fault's text, with a line feed: what is said of that, and the usage behind a wrong word.
#[derive(Clone, Copy)]
struct Ending<'a>(Fault<'a>);

impl Display for Ending<'_> {
    ghost output = { λ text. Some (spec.ending_of text.0) };

    fn fmt<W: fmt::Write>(&self, f: &mut Formatter<W>) -> fmt::Result {
        match self.0 {
            Fault::Usage => f.write_str(USAGE),
            Fault::NoCommand { .. } => write!(f, "no such command\n{USAGE}"),
            Fault::NoTime { .. } => write!(
                f,
                "not a number of milliseconds from 1 to 86400000\n{USAGE}"
            ),
            Fault::Unreadable { reason, .. }
            | Fault::Bind { reason, .. }
            | Fault::Control { reason, .. }
            | Fault::Wait { reason } => writeln!(f, "{reason}", reason = ReasonText(reason)),
            Fault::NotText { .. } => f.write_str("isn't UTF-8\n"),
            Fault::MayNotFollow { .. } => f.write_str("needs a restart\n"),
            Fault::Misstated { .. } => f.write_str("its printed text is wrong\n"),
            Fault::Unanswered { why, .. } => writeln!(f, "{why}"),
            Fault::Late { seconds, .. } => writeln!(
                f,
                "no answer within {seconds} s: it may still be carried out"
            ),
            Fault::StillServes { seconds, .. } => writeln!(
                f,
                "asked to stop, and still running after {seconds} s"
            ),
            Fault::Cut { .. } => f.write_str("answer cut\n"),
            Fault::Declined { what, .. } => writeln!(
                f,
                "declined, and nothing has changed: {what}"
            ),
            Fault::Refused { fault, .. } => writeln!(f, "{fault}"),
            Fault::FaultyLine { number, .. } => writeln!(f, "line {number}"),
            Fault::Write => f.write_str("write failed\n"),
            Fault::Memory => f.write_str("out of memory\n"),
            Fault::Clock => f.write_str("no clock\n"),
            Fault::Seed => f.write_str("no random seed\n"),
            Fault::State { why, .. } => writeln!(f, "{reason}", reason = why.text()),
            Fault::Descriptors { wanted } => writeln!(f, "{wanted} wanted"),
            Fault::Thread => f.write_str("cannot start a thread\n"),
            Fault::Receive => f.write_str("receive failed\n"),
            Fault::Audit => f.write_str("audit failed\n"),
        }
    }
}

impl Display for Fault<'_> {
    ghost output = { λ fault. Some (spec.text_of fault) };

    /// Prints the text, with a line feed.
    fn fmt<W: fmt::Write>(&self, f: &mut Formatter<W>) -> fmt::Result {
        let beginning = Beginning(*self);
        let ending = Ending(*self);
        write!(f, "{beginning}{ending}")
    }
}

impl<'a> Fault<'a> {
    /// Prints the fault's text, with a line feed.
    ///
    /// # Errors
    ///
    /// The writer's.
    pub fn print<W: Write>(self, writer: &mut W) -> io::Result<()>
        ensures { OnOk result
            (Appends (W.contents writer.old) (W.contents writer.new) (spec.text_of self.entry)) }
    {
        write!(writer, "{self}")
    }

    /// Tells the fault on a writer, and how the program ends after it.
    pub fn tell<W: Write>(self, writer: &mut W) -> ProgramEnd
        ensures status { result.status ≡ spec.status_of self.entry }
        ensures told { OnOk result.told
            (Appends (W.contents writer.old) (W.contents writer.new) (spec.text_of self.entry)) }
    {
        ProgramEnd {
            status: self.status(),
            told: self.print(writer),
        }
    }

    /// Prints the fault's text, and behind that of a configuration's the lines of a diagnosis.
    ///
    /// # Errors
    ///
    /// The writer's.
    fn print_with<W: Write>(self, lines: &Lines, writer: &mut W) -> io::Result<()>
        ensures { OnOk result
            (spec.Tells self.entry (W.contents writer.old) (W.contents writer.new)) }
    {
        self.print(writer)?;
        match self {
            Fault::Refused { .. } => lines.print(writer),
            _ => Ok(()),
        }
    }

    /// Tells the fault on a writer, and behind a configuration's the lines of a diagnosis, and how the program ends
    /// after it.
    pub fn tell_with<W: Write>(self, lines: &Lines, writer: &mut W) -> ProgramEnd
        ensures status { result.status ≡ spec.status_of self.entry }
        ensures told { OnOk result.told
            (spec.Tells self.entry (W.contents writer.old) (W.contents writer.new)) }
    {
        ProgramEnd {
            status: self.status(),
            told: self.print_with(lines, writer),
        }
    }
}
