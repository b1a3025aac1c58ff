//! The counts of the whole server.

ghost use Rattle.std.specs.Prelude.{◌≡◌, ◌<◌};
ghost use Rattle.roam_counters.specs.Process as spec;

use crate::datagrams::Handling;
use roam_conf::Place;

/// The number of counts of the whole server.
pub const PROCESSES: usize = 19;

/// A count of the whole server.
#[derive(Clone, Copy, PartialEq, Eq)]
pub enum Process {
    /// A datagram came to a place of this kind.
    ReceivedAuth,
    ReceivedAcct,
    ReceivedOut,
    ReceivedReverse,
    /// A packet was sent.
    Sent,
    /// A packet was lost, for one of these causes.
    LostFullRing,
    LostUnreachable,
    LostNotPermitted,
    LostOther,
    /// A step was stored.
    Step,
    /// A stored step was let go of.
    StepLetGo,
    /// The stored steps of a shard were let go of.
    TimeLetGo,
    /// A line of an exchange was dropped, since too many waited to be told.
    LineDropped,
    /// A tick found no room to note a request that it may have given up: no line tells of it, and it isn't counted
    /// whether it went to another server or was given up.
    NoteMissed,
    /// A realm's rules took a datagram.
    DatagramTaken,
    /// The broker answered one by itself.
    DatagramAnswered,
    /// One was refused before it came to a realm.
    DatagramRefused,
    /// One was given to no realm, for want of memory, or since the call for it wasn't recorded.
    DatagramFailed,
    /// A request came when the server was asked to stop.
    DatagramDropped,
}

impl Process {
    /// Returns the count of datagrams that came to this place.
    pub fn received(place: Place) -> Process
        ensures { result ≡ spec.received place }
    {
        match place {
            Place::Auth(_) => Process::ReceivedAuth,
            Place::Acct(_) => Process::ReceivedAcct,
            Place::Out(_, _) => Process::ReceivedOut,
            Place::Reverse(_, _) => Process::ReceivedReverse,
        }
    }

    /// Returns the count of datagrams that had this fate.
    pub fn handled(handling: Handling) -> Process
        ensures { result ≡ spec.handled_as handling }
    {
        match handling {
            Handling::Taken => Process::DatagramTaken,
            Handling::Answered => Process::DatagramAnswered,
            Handling::Refused => Process::DatagramRefused,
            Handling::Failed => Process::DatagramFailed,
            Handling::Dropped => Process::DatagramDropped,
        }
    }

    /// Returns its place among these counts.
    pub fn place(self) -> usize
        ensures value { result ≡ spec.process_place self }
        ensures below { result < 19 }
    {
        match self {
            Process::ReceivedAuth => 0,
            Process::ReceivedAcct => 1,
            Process::ReceivedOut => 2,
            Process::ReceivedReverse => 3,
            Process::Sent => 4,
            Process::LostFullRing => 5,
            Process::LostUnreachable => 6,
            Process::LostNotPermitted => 7,
            Process::LostOther => 8,
            Process::Step => 9,
            Process::StepLetGo => 10,
            Process::TimeLetGo => 11,
            Process::LineDropped => 12,
            Process::NoteMissed => 13,
            Process::DatagramTaken => 14,
            Process::DatagramAnswered => 15,
            Process::DatagramRefused => 16,
            Process::DatagramFailed => 17,
            Process::DatagramDropped => 18,
        }
    }
}
