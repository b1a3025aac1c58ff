//! The results of receiving at a socket.

use roam_admission::Datagram;
use std::alloc::Allocator;

/// The number of receives of one socket that fail in a row before it is given up.
pub const FAULTS_TO_GIVE_UP: u32 = 100;

/// The result of one receive.
#[derive(Drop)]
pub enum Heard<A: Allocator> {
    /// A datagram arrived.
    Datagram(Datagram<A>),
    /// Nothing arrived, or the receive failed.
    Nothing,
    /// The receive failed, as the ninety-nine before it did.
    GiveUp,
}
