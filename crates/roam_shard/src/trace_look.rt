//! The shard of a history and the events of its steps, to be looked at.

ghost use Rattle.std.specs.Prelude.{◌≡◌};
ghost use Rattle.roam_shard.specs.EventsSeen.{shown_event_ref};

use crate::Shard;
use crate::step::Step;
use crate::stored_event::StoredEvent;
use crate::traced::Traced;
use roam_conf::{Endpoint, Place};
use std::alloc::Allocator;

impl<'c, A: Allocator + Copy> Traced<'c, A> {
    /// Returns the shard as it stands. Takes no memory.
    pub fn shard(&self) -> &Shard<'c, A>
        ensures opening { result.now.opening ≡ self.now.opening }
        ensures states { result.now.states ≡ self.now.states }
    {
        &self.shard
    }
}

/// The event of a step.
#[derive(Clone, Copy)]
pub enum EventRef<'s> {
    /// A datagram arrived.
    Arrived {
        /// In milliseconds.
        now: u64,
        at: Place,
        from: Endpoint,
        octets: &'s [u8],
        /// True where its session was kept.
        keeps_session: bool,
    },
    /// A shard's timer fired.
    Ticked {
        /// In milliseconds.
        now: u64,
        shard: u16,
    },
}

impl<A: Allocator> Step<A> {
    /// Returns the event of the step. Takes no memory.
    pub fn event(&self) -> EventRef<'_>
        ensures { shown_event_ref result ≡ self.now }
    {
        match &self.event {
            StoredEvent::Arrived {
                at,
                from,
                keeps_session,
                now,
                octets,
            } => EventRef::Arrived {
                now: *now,
                at: *at,
                from: *from,
                octets: octets.as_slice(),
                keeps_session: *keeps_session,
            },
            StoredEvent::Ticked { shard, now } => EventRef::Ticked {
                now: *now,
                shard: *shard,
            },
        }
    }
}
