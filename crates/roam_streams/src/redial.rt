//! The time when a home server may be dialed again.

ghost use Rattle.std.specs.Prelude.{◌≡◌, ◌↔◌, IsTrue};
ghost use Rattle.roam_streams.specs.Dialing.{MayDial, delay_after};

/// The shortest time between two dials, in milliseconds.
const LEAST_DELAY: u64 = 500;

/// The longest time between two dials, in milliseconds.
const MOST_DELAY: u64 = 8000;

/// The time at which a home server was dialed, and how long after that it may be dialed again.
///
/// A front takes each connection, also where the server behind it is away, and closes it then. So a connection shows
/// that the server is there only by a packet.
#[derive(Clone, Copy, Debug, PartialEq, Eq)]
pub struct Redial {
    pub(crate) dialed_at: Option<u64>,
    pub(crate) delay: u64,
}

impl Redial {
    /// Returns the state of a server that wasn't dialed yet.
    pub fn never() -> Redial
        ensures dialed_at { result.dialed_at ≡ None }
        ensures delay { result.delay ≡ 500 }
    {
        Redial {
            dialed_at: None,
            delay: LEAST_DELAY,
        }
    }

    /// Returns whether it may be dialed at this moment.
    pub fn may_dial(&self, now: u64) -> bool
        ensures { IsTrue result ↔ MayDial self.now now }
    {
        match self.dialed_at {
            Some(moment) => self.delay <= now.saturating_sub(moment),
            None => true,
        }
    }

    /// Notes that it is dialed at this moment.
    pub fn begin(&mut self, now: u64)
        ensures dialed_at { self.new.dialed_at ≡ Some now }
        ensures delay { self.new.delay ≡ self.old.delay }
    {
        self.dialed_at = Some(now);
    }

    /// Notes that its connection ended, on which a packet came or none: it may be dialed again 500 ms after it was,
    /// or after twice the time as before, 8,000 ms at most.
    pub fn end(&mut self, packet_came: bool)
        ensures dialed_at { self.new.dialed_at ≡ self.old.dialed_at }
        ensures delay { self.new.delay ≡ delay_after packet_came self.old.delay }
    {
        self.delay = if packet_came {
            LEAST_DELAY
        } else {
            self.delay.saturating_mul(2).min(MOST_DELAY)
        };
    }
}
