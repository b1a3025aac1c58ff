//! The job of a realm: a request or a reply.

use crate::datagram::Out;
use crate::local_answer::LocalAnswer;
use roam_conf::{Endpoint, Link, Place};
use roam_wire::Octets;
use std::alloc::Allocator;

/// The sender of a packet, with whom the proxy shares a secret.
#[derive(Clone, Copy, Debug, PartialEq, Eq)]
pub enum Side {
    /// The peer of this index.
    Peer(u16),
    /// A link of the realm: one of the remote endpoints to which its packets are forwarded.
    Link(Link),
    /// A source of the realm's reverse requests: its home server of this place, in the order of use, or, behind the
    /// servers, its `coa_client` of the rest.
    Home(u8),
}

/// A packet that passed the checks of its arrival: the event of one realm.
#[derive(Drop)]
pub struct Job<A: Allocator> {
    /// The index of the realm.
    pub realm: u16,
    /// The place where it arrived.
    pub place: Place,
    /// The endpoint where it came from.
    pub from: Endpoint,
    /// The sender of it.
    pub side: Side,
    /// The packet's octets, up to its Length.
    pub octets: Octets<A>,
    /// The index of the realm that the first User-Name of a request names; none where it names none,
    /// and in a reply.
    pub named: Option<u16>,
    /// True where the session is kept that a reply opens, changes or ends, as of the datagram.
    pub keeps_session: bool,
}

/// The result of an arrival, unless it is refused.
#[derive(Drop)]
pub enum Prepared<A: Allocator> {
    /// An event of a realm.
    Job(Job<A>),
    /// An answer of the broker itself, which needs no realm and no state, and what it is.
    Answered(LocalAnswer, Out<A>),
}
