//! The event of a step, as a trace keeps it.

ghost use Rattle.std.specs.Prelude.{◌≡◌, ◌↔◌, IsTrue};
ghost use Rattle.roam_core.specs.Shown.{shown_event};
ghost use Rattle.roam_shard.specs.Stored.{HasNoClock, shown_stored};

use roam_admission::Datagram;
use roam_conf::{Endpoint, Place};
use roam_core::Event;
use roam_wire::Octets;
use std::alloc::Allocator;

/// The event of a stored step. The small fields stand first, beside the enum's own tag, so that it takes 64 octets, 8
/// fewer than an `Event`.
#[derive(Drop)]
pub(crate) enum StoredEvent<A: Allocator> {
    /// A datagram arrived.
    Arrived {
        at: Place,
        from: Endpoint,
        keeps_session: bool,
        /// In milliseconds.
        now: u64,
        octets: Octets<A>,
    },
    /// A shard's timer fired.
    Ticked {
        shard: u16,
        /// In milliseconds.
        now: u64,
    },
}

impl<A: Allocator> StoredEvent<A> {
    /// Stores the same event; an arrival has no seconds of the wall clock. Takes no memory.
    pub(crate) fn new(event: Event<A>) -> StoredEvent<A>
        requires { HasNoClock (shown_event event) }
        ensures { shown_stored result ≡ shown_event event }
    {
        match event {
            Event::Arrive { now, datagram } => {
                let Datagram {
                    at,
                    from,
                    octets,
                    keeps_session,
                    ..
                } = datagram;
                StoredEvent::Arrived {
                    at,
                    from,
                    keeps_session,
                    now,
                    octets,
                }
            }
            Event::Tick { now, shard } => StoredEvent::Ticked { shard, now },
        }
    }

    /// Returns whether it is this event. Takes no memory.
    pub(crate) fn is(&self, event: &Event<A>) -> bool
        ensures { IsTrue result ↔ (shown_stored self.now ≡ shown_event event.now) }
    {
        match (self, event) {
            (
                StoredEvent::Arrived {
                    at,
                    from,
                    keeps_session,
                    now,
                    octets,
                },
                Event::Arrive {
                    now: other,
                    datagram,
                },
            ) => {
                now == other
                    && *at == datagram.at
                    && *from == datagram.from
                    && *keeps_session == datagram.keeps_session
                    && datagram.seconds.is_none()
                    && octets.as_slice() == datagram.octets.as_slice()
            }
            (
                StoredEvent::Ticked { shard, now },
                Event::Tick {
                    now: other,
                    shard: also,
                },
            ) => now == other && shard == also,
            _ => false,
        }
    }
}
