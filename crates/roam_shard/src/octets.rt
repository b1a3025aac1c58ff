//! The octets that an event takes.

ghost use Rattle.std.specs.Prelude.{◌≡◌};
ghost use Rattle.roam_core.specs.Shown.{shown_event};
ghost use Rattle.roam_shard.specs.Steps.{octets_came};

use roam_core::Event;
use std::alloc::Allocator;

/// Counts the octets of an event's datagram.
pub(crate) fn octets_of<A: Allocator>(event: &Event<A>) -> u64
    ensures { result ≡ octets_came (shown_event event.now) }
{
    match event {
        Event::Arrive { datagram, .. } => datagram.octets.len() as u64,
        Event::Tick { .. } => 0,
    }
}
