//! Datagrams that arrive, and packets that leave.

use roam_conf::{Endpoint, Place};
use roam_wire::Octets;
use std::alloc::Allocator;

/// A datagram that arrived.
#[derive(Drop)]
pub struct Datagram<A: Allocator> {
    /// The place where it arrived.
    pub at: Place,
    /// The endpoint where it came from.
    pub from: Endpoint,
    /// All of its octets, padding too.
    pub octets: Octets<A>,
    /// The wall clock's seconds since the beginning of 1970 when it arrived, where they are known: a reverse request
    /// may be too old.
    pub seconds: Option<u64>,
    /// True where the session is kept that an Accounting-Response opens, changes or ends. `true` of what comes from a
    /// socket; `false` where there was no memory for the session, and the reply is taken without it.
    pub keeps_session: bool,
}

/// A packet that leaves.
pub struct Out<A: Allocator> {
    /// The index of the realm for which it is sent; none for a local answer.
    pub realm: Option<u16>,
    /// The place that it leaves from.
    pub from: Place,
    /// The endpoint to which it goes.
    pub to: Endpoint,
    /// The packet's octets.
    pub bytes: Octets<A>,
}

// By hand, so that a proof sees one call wherever it ends, and the crates above prove nothing of it.
impl<A: Allocator> Drop for Out<A> {
    fn drop(self) {
        let Self {
            realm: _,
            from: _,
            to: _,
            bytes,
        } = self;
        drop(bytes);
    }
}
