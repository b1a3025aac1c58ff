//! The events of the proxy.

use roam_admission::Datagram;
use std::alloc::Allocator;

/// An event of the proxy, and its moment.
#[derive(Drop)]
pub enum Event<A: Allocator> {
    /// A datagram arrives.
    Arrive {
        /// In milliseconds.
        now: u64,
        datagram: Datagram<A>,
    },
    /// A shard's timer fires.
    Tick {
        /// In milliseconds.
        now: u64,
        /// The shard's number.
        shard: u16,
    },
}
