//! The packets that were sent.

ghost use Rattle.std.specs.Prelude.{◌≡◌};
ghost use Rattle.roam_port.specs.Queues.{none_sent, sent_after};

/// The packets that were sent.
#[derive(Clone, Copy, PartialEq, Eq)]
pub struct Sent {
    /// The number of packets that don't wait any more: they are sent, or lost by a fault of their port. It stays at
    /// 2^64 - 1.
    pub gone: u64,
    /// True where some port had no room, so that what waits for it was put aside.
    pub is_blocked: bool,
}

impl Sent {
    /// Makes the count in which nothing was sent.
    pub fn none() -> Sent
        ensures { result ≡ none_sent }
    {
        Sent {
            gone: 0,
            is_blocked: false,
        }
    }

    /// Adds so much more to this.
    pub fn and(self, more: Sent) -> Sent
        ensures { result ≡ sent_after self more }
    {
        Sent {
            gone: self.gone.saturating_add(more.gone),
            is_blocked: self.is_blocked || more.is_blocked,
        }
    }
}
