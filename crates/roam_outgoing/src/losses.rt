//! The packets that all threads lost, until that is told.

use crate::destination::Destination;
use roam_conf::Endpoint;
use roam_port::{LossCause, Losses};
use std::sync::atomic::{AtomicU64, Ordering};

/// All causes of a loss.
pub const CAUSES: [LossCause; 4] = [
    LossCause::FullRing,
    LossCause::Unreachable,
    LossCause::NotPermitted,
    LossCause::Other,
];

/// The number of packets that all threads lost, by their cause, that weren't told yet, and where one of them went.
#[derive(Drop)]
pub struct SharedLosses {
    full_ring: AtomicU64,
    unreachable: AtomicU64,
    not_permitted: AtomicU64,
    other: AtomicU64,
    /// The first destination that had no way there since that was told.
    destination: Destination,
}

/// Adds to a count, where there is something to add.
fn add_to(count: &AtomicU64, more: u64) {
    if more > 0 {
        count.fetch_add(more, Ordering::SeqCst);
    }
}

impl SharedLosses {
    /// Makes the counts where nothing was lost.
    pub fn new() -> SharedLosses {
        SharedLosses {
            full_ring: AtomicU64::new(0),
            unreachable: AtomicU64::new(0),
            not_permitted: AtomicU64::new(0),
            other: AtomicU64::new(0),
            destination: Destination::none(),
        }
    }

    /// Notes a destination to which there was no way.
    pub fn note(&self, to: Endpoint) {
        self.destination.note(to);
    }

    /// Returns the first destination to which there was no way since this was asked last: of another cause none. One
    /// thread only asks.
    pub fn take_destination(&self, cause: LossCause) -> Option<Endpoint> {
        match cause {
            LossCause::Unreachable => self.destination.take(),
            _ => None,
        }
    }

    /// Returns the count of a cause.
    fn of(&self, cause: LossCause) -> &AtomicU64 {
        match cause {
            LossCause::FullRing => &self.full_ring,
            LossCause::Unreachable => &self.unreachable,
            LossCause::NotPermitted => &self.not_permitted,
            LossCause::Other => &self.other,
        }
    }

    /// Adds so many more that were lost.
    pub fn add(&self, losses: Losses) {
        add_to(&self.full_ring, losses.full_ring);
        add_to(&self.unreachable, losses.unreachable);
        add_to(&self.not_permitted, losses.not_permitted);
        add_to(&self.other, losses.other);
    }

    /// Returns how many were lost for this cause since this was asked last.
    pub fn take(&self, cause: LossCause) -> u64 {
        if self.of(cause).load(Ordering::SeqCst) == 0 {
            0
        } else {
            self.of(cause).swap(0, Ordering::SeqCst)
        }
    }

    /// Gives back so many that couldn't be told.
    pub fn give_back(&self, cause: LossCause, count: u64) {
        add_to(self.of(cause), count);
    }
}
