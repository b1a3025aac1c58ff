//! A step of a history, as it is stored.

ghost use Rattle.std.specs.Prelude.{◌≡◌, ◌↔◌, IsTrue};
ghost use Rattle.roam_core.specs.Shown.{shown_event};
ghost use Rattle.roam_shard.specs.Stored.{HasNoClock};

use crate::stored_event::StoredEvent;
use roam_core::Event;
use std::alloc::{Allocator, Global};
use std::marker::Model;
use std::mem::size_of;

/// A step of a history: what happened. What it was answered with follows from it and the steps before, and isn't
/// stored. Contracts see the event.
///
/// Over `Global` it takes 64 octets, beside those of the datagram, which lie in a block of their own.
pub struct Step<A: Allocator> {
    pub(crate) event: StoredEvent<A>,
}

// By hand, so that a proof sees one call wherever it ends, and the crates above prove nothing of it.
impl<A: Allocator> Drop for Step<A> {
    fn drop(self) {
        let Self { event } = self;
        drop(event);
    }
}

const _: () = prove!(size_of::<Step<Global>>() == 64);

impl<A: Allocator> Model for Step<A> {
    ghost use Rattle.roam_core.specs.Events.{PlainEvent};
    ghost use Rattle.roam_shard.specs.Stored.{shown_stored};

    ghost Value = { PlainEvent };

    ghost view = { λ s. shown_stored s.event };
}

impl<A: Allocator> Step<A> {
    /// Makes the step of an event; an arrival has no seconds of the wall clock. Takes no memory.
    pub fn new(event: Event<A>) -> Step<A>
        requires { HasNoClock (shown_event event) }
        ensures { result ≡ shown_event event }
    {
        Step {
            event: StoredEvent::new(event),
        }
    }

    /// Returns whether it is the step of this event. Takes no memory.
    pub fn is_of(&self, event: &Event<A>) -> bool
        ensures { IsTrue result ↔ (self.now ≡ shown_event event.now) }
    {
        self.event.is(event)
    }
}
