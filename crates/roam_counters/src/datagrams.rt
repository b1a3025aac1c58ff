//! The fates of the datagrams that were received, counted.

ghost use Rattle.std.specs.Prelude.{◌≡◌};
ghost use Rattle.roam_counters.specs.Datagrams as spec;
ghost use Rattle.roam_counters.specs.Datagrams.{IsBalanced};

/// The fate of a datagram.
#[derive(Clone, Copy, PartialEq, Eq)]
pub enum Handling {
    /// A realm's rules took it: it is a step of a history.
    Taken,
    /// The broker answered it by itself.
    Answered,
    /// It was refused before it came to a realm.
    Refused,
    /// It was given to no realm, for want of memory, or since the call for it wasn't recorded.
    Failed,
    /// It is a request, and the server was asked to stop.
    Dropped,
}

/// The number of datagrams that were received, and of each fate. A count stays at 2^64 - 1.
#[derive(Clone, Copy, PartialEq, Eq)]
pub struct DatagramCounts {
    pub received: u64,
    pub taken: u64,
    pub answered: u64,
    pub refused: u64,
    pub failed: u64,
    pub dropped: u64,
}

impl DatagramCounts {
    /// Returns the counts after one more datagram was received, of which this became.
    fn after(self, handling: Handling) -> DatagramCounts
        ensures { result ≡ spec.handled self handling }
    {
        let mut counts = self;
        counts.received = counts.received.saturating_add(1);
        match handling {
            Handling::Taken => counts.taken = counts.taken.saturating_add(1),
            Handling::Answered => counts.answered = counts.answered.saturating_add(1),
            Handling::Refused => counts.refused = counts.refused.saturating_add(1),
            Handling::Failed => counts.failed = counts.failed.saturating_add(1),
            Handling::Dropped => counts.dropped = counts.dropped.saturating_add(1),
        }
        counts
    }

    /// Adds other counts to these.
    fn and(self, other: DatagramCounts) -> DatagramCounts
        ensures { result ≡ spec.both self other }
    {
        DatagramCounts {
            received: self.received.saturating_add(other.received),
            taken: self.taken.saturating_add(other.taken),
            answered: self.answered.saturating_add(other.answered),
            refused: self.refused.saturating_add(other.refused),
            failed: self.failed.saturating_add(other.failed),
            dropped: self.dropped.saturating_add(other.dropped),
        }
    }
}

/// The account of the datagrams that were received: each was taken, answered, refused or dropped, or it failed, while
/// fewer than 2^64 - 1 were received.
#[derive(Clone, Copy, PartialEq, Eq)]
pub struct Datagrams {
    pub counts: DatagramCounts,
    ghost balanced: { IsBalanced counts },
}

impl Datagrams {
    /// Makes the counts of no datagram.
    pub fn none() -> Datagrams
        ensures { result.counts ≡ spec.none_received }
    {
        Datagrams {
            counts: DatagramCounts {
                received: 0,
                taken: 0,
                answered: 0,
                refused: 0,
                failed: 0,
                dropped: 0,
            },
        }
    }

    /// Returns the counts after one more datagram was received, of which this became.
    pub fn after(self, handling: Handling) -> Datagrams
        ensures { result.counts ≡ spec.handled self.counts handling }
    {
        Datagrams {
            counts: self.counts.after(handling),
        }
    }

    /// Adds others to these.
    pub fn and(self, others: Datagrams) -> Datagrams
        ensures { result.counts ≡ spec.both self.counts others.counts }
    {
        Datagrams {
            counts: self.counts.and(others.counts),
        }
    }
}
