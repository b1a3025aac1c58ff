//! The number of packets that were lost, by their cause.

ghost use Rattle.std.specs.Prelude.{◌≡◌};
ghost use Rattle.roam_port.specs.Losses.{counted, losses_since, no_losses};

/// The cause why a packet that was to leave is lost.
#[derive(Clone, Copy, PartialEq, Eq)]
pub enum LossCause {
    /// It found no room among those that wait for their sockets.
    FullRing,
    /// There is no way to its destination.
    Unreachable,
    /// The system doesn't permit it.
    NotPermitted,
    /// Any other fault of a send.
    Other,
}

/// The number of packets that were lost, by their cause. A count stays at 2^64 - 1.
#[derive(Clone, Copy, PartialEq, Eq)]
pub struct Losses {
    pub full_ring: u64,
    pub unreachable: u64,
    pub not_permitted: u64,
    pub other: u64,
}

impl Losses {
    /// Makes the count in which no packet was lost.
    pub fn none() -> Losses
        ensures { result ≡ no_losses }
    {
        Losses {
            full_ring: 0,
            unreachable: 0,
            not_permitted: 0,
            other: 0,
        }
    }

    /// Counts a packet that is lost.
    pub fn count(&mut self, cause: LossCause)
        ensures { self.new ≡ counted self.old cause }
    {
        match cause {
            LossCause::FullRing => self.full_ring = self.full_ring.saturating_add(1),
            LossCause::Unreachable => self.unreachable = self.unreachable.saturating_add(1),
            LossCause::NotPermitted => self.not_permitted = self.not_permitted.saturating_add(1),
            LossCause::Other => self.other = self.other.saturating_add(1),
        }
    }

    /// Returns what was counted since.
    pub fn since(self, earlier: Losses) -> Losses
        ensures { result ≡ losses_since self earlier }
    {
        Losses {
            full_ring: self.full_ring.saturating_sub(earlier.full_ring),
            unreachable: self.unreachable.saturating_sub(earlier.unreachable),
            not_permitted: self.not_permitted.saturating_sub(earlier.not_permitted),
            other: self.other.saturating_sub(earlier.other),
        }
    }
}
