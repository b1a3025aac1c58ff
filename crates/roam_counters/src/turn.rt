//! A job that is given to a realm, and what comes of it.

ghost use Rattle.std.specs.Prelude.{◌≡◌};
ghost use Rattle.roam_counters.specs.Turns as spec;

use crate::cell::Subject;
use crate::end::{source_of, subject_of};
use crate::event::CountedEvent;
use crate::kinds::{ReplyKind, RequestKind};
use roam_admission::Side;

/// A packet that is given to a realm.
#[derive(Clone, Copy, PartialEq, Eq)]
pub struct CountedTurn {
    /// The index of the realm.
    pub realm: u16,
    /// The sender of it.
    pub side: Side,
    /// Its code.
    pub code: u8,
    /// True where the session is kept that a reply opens, changes or ends.
    pub keeps_session: bool,
}

impl CountedTurn {
    /// Returns who sent it.
    pub fn sender(self) -> Subject
        ensures { result ≡ spec.sender_of self.realm self.side }
    {
        match self.side {
            Side::Peer(peer) => Subject::Peer(peer),
            Side::Link(link) => subject_of(self.realm, link),
            Side::Home(home) => source_of(self.realm, home),
        }
    }

    /// Returns the event that it came.
    pub fn arrival(self) -> Option<CountedEvent>
        ensures { result ≡ spec.arrival_event self.side self.code }
    {
        match self.side {
            Side::Peer(_) | Side::Home(_) => match RequestKind::of(self.code) {
                Some(kind) => Some(CountedEvent::Request(kind)),
                None => None,
            },
            Side::Link(_) => match ReplyKind::of(self.code) {
                Some(kind) => Some(CountedEvent::Reply(kind)),
                None => None,
            },
        }
    }
}
