//! The place of each count.

ghost use Rattle.std.specs.Prelude.{◌≡◌, ◌≤◌};
ghost use Rattle.roam_counters.specs.Cells as spec;

use crate::event::{CountedEvent, EVENTS};
use crate::process::{PROCESSES, Process};

/// The number of rows of counts that a realm has: its own, one for each of eight home servers, and one for all that
/// send Disconnect- and CoA-Requests with a higher number.
const ROWS: usize = 10;

/// Of whom something is counted.
#[derive(Clone, Copy, PartialEq, Eq)]
pub enum Subject {
    /// All together. Refusals alone are counted so, since of some nobody is known who sent it.
    All,
    /// The realm of this index.
    Realm(u16),
    /// A realm's home server, by the realm's index and its own; a further source of the realm's reverse requests by its
    /// number, the number 8 standing for each higher one.
    Server(u16, u8),
    /// The peer of this index.
    Peer(u16),
}

/// The holder of a list of counts: a realm's and a peer's go on by themselves where another configuration is followed.
#[derive(Clone, Copy, PartialEq, Eq)]
pub enum Holder {
    /// The server's own counts, and behind them those of all together.
    Server,
    /// Of the realm of this index, with its home servers.
    Realm(u16),
    /// Of the peer of this index.
    Peer(u16),
}

impl Holder {
    /// Returns how many counts the list has.
    pub fn cells(self) -> usize
        ensures { result ≡ spec.cells self }
    {
        match self {
            Holder::Server => PROCESSES + EVENTS,
            Holder::Realm(_) => ROWS * EVENTS,
            Holder::Peer(_) => EVENTS,
        }
    }
}

impl Subject {
    /// Returns the holder of the list in which its events are counted.
    pub fn holder(self) -> Holder
        ensures { result ≡ spec.holder_of self }
    {
        match self {
            Subject::All => Holder::Server,
            Subject::Realm(realm) | Subject::Server(realm, _) => Holder::Realm(realm),
            Subject::Peer(peer) => Holder::Peer(peer),
        }
    }

    /// Returns where its events begin there.
    pub fn first_cell(self) -> usize
        ensures value { result ≡ spec.first_cell self }
        ensures small { result ≤ 26471 }
    {
        match self {
            Subject::All => PROCESSES,
            Subject::Realm(_) | Subject::Peer(_) => 0,
            Subject::Server(_, server) => EVENTS * (usize::from(server) + 1),
        }
    }

    /// Returns where an event is counted there.
    pub fn cell(self, event: CountedEvent) -> usize
        ensures { result ≡ spec.cell_of self event }
    {
        self.first_cell() + event.place()
    }
}

impl Process {
    /// Returns where it is counted, in the server's list.
    pub fn cell(self) -> usize
        ensures { result ≡ spec.process_cell self }
    {
        self.place()
    }
}
