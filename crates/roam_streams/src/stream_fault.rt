//! The causes why something isn't done on a stream: numbers and names that go on where the proxy's refusals end.

ghost use Rattle.std.specs.Prelude.{◌≡◌};
ghost use Rattle.roam_streams.specs.Faults.{fault_name, fault_number};

use roam_wire::NoMemory;
use std::fmt;

/// The cause why a connection isn't taken, or ends, or a datagram is dropped. Its text is its name.
#[derive(Clone, Copy, Debug, PartialEq, Eq)]
pub enum StreamFault {
    /// A growth was refused. The connection ends.
    NoMemory,
    /// A packet's Length is below 20 or above 4096. The connection ends.
    Length,
    /// As many are open as may be. The connection isn't taken, or the datagram is dropped.
    Limit,
    /// The system gives no socket for a connection. It isn't taken, or ends.
    Socket,
    /// The other side isn't dialed again yet. The datagram is dropped.
    Away,
    /// A datagram has no way, by its code, its size or its source. It is dropped.
    Place,
    /// The other side doesn't read. The connection ends.
    Full,
    /// No packet came for too long. The connection ends.
    Silent,
}

impl From<NoMemory> for StreamFault {
    ghost use Rattle.std.specs.Prelude.{◌≡◌};
    ghost use Rattle.roam_streams.specs.declared.stream_fault.StreamFault.TheVariants as fault;

    ghost from_gives = { λ _ e. e ≡ fault.NoMemory };

    fn from(_error: NoMemory) -> StreamFault {
        StreamFault::NoMemory
    }
}

impl StreamFault {
    /// Returns its number: 21, or 30 to 36.
    pub fn number(self) -> u8
        ensures { result ≡ fault_number self }
    {
        match self {
            StreamFault::NoMemory => 21,
            StreamFault::Length => 30,
            StreamFault::Limit => 31,
            StreamFault::Socket => 32,
            StreamFault::Away => 33,
            StreamFault::Place => 34,
            StreamFault::Full => 35,
            StreamFault::Silent => 36,
        }
    }

    /// Returns its name.
    pub fn name(self) -> &'static str
        ensures { result.now ≡ fault_name self }
    {
        match self {
            StreamFault::NoMemory => "NoMemory",
            StreamFault::Length => "StreamLength",
            StreamFault::Limit => "StreamLimit",
            StreamFault::Socket => "StreamSocket",
            StreamFault::Away => "StreamAway",
            StreamFault::Place => "StreamPlace",
            StreamFault::Full => "StreamFull",
            StreamFault::Silent => "StreamSilent",
        }
    }
}

impl fmt::Display for StreamFault {
    fn fmt<W: fmt::Write>(&self, f: &mut fmt::Formatter<W>) -> fmt::Result {
        f.write_str(self.name())
    }
}
