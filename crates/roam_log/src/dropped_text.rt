//! The line of what a reload or the server's end drops of a realm.

ghost use Rattle.std.specs.Prelude.{◌≡◌, Some};
ghost use Rattle.roam_log.specs.Dropped as spec;

use std::fmt;
use std::fmt::{Display, Formatter, Write};

/// By what a realm loses what it has.
#[derive(Clone, Copy, PartialEq, Eq)]
pub enum DropCause {
    /// A configuration follows, under which the realm begins anew, or isn't there.
    Reload,
    /// The server ends.
    End,
}

/// The part of a realm that is dropped.
#[derive(Clone, Copy)]
pub struct DroppedText<'n> {
    pub cause: DropCause,
    /// The realm's name.
    pub realm: &'n str,
    /// The number of requests that wait.
    pub waiting: u64,
    /// The number of replies that are held.
    pub held: u64,
    /// The number of sessions that are open.
    pub sessions: u64,
}

/// Returns the word of a cause.
fn cause_word(cause: DropCause) -> &'static str
    ensures { result.now ≡ spec.drop_word cause }
{
    match cause {
        DropCause::Reload => "reload",
        DropCause::End => "end",
    }
}

/// The number of held replies, behind a comma, where there are some.
#[derive(Clone, Copy)]
struct HeldText(u64);

impl Display for HeldText {
    ghost output = { λ text. Some (spec.held_text text.0) };

    fn fmt<W: Write>(&self, f: &mut Formatter<W>) -> fmt::Result {
        let held = self.0;
        if held == 0 {
            f.write_str("")
        } else {
            write!(f, ", {held} held replies")
        }
    }
}

impl Display for DroppedText<'_> {
    ghost output = { λ text. Some (spec.dropped_text text.cause text.realm.now text.waiting text.sessions text.held) };

    fn fmt<W: Write>(&self, f: &mut Formatter<W>) -> fmt::Result {
        let word = cause_word(self.cause);
        let realm = self.realm;
        let waiting = self.waiting;
        let sessions = self.sessions;
        let held = HeldText(self.held);
        write!(
            f,
            "{word}: realm {realm}: dropped: {waiting} waiting requests, {sessions} sessions{held}"
        )
    }
}
