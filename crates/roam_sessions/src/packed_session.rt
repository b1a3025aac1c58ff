//! A session whose octets lie behind one another.

ghost use Rattle.roam_sessions.specs.Private.Packed.{AreParts};

use roam_wire::Octets;
use std::alloc::Allocator;

/// An open session: its peer, the names of its access server, where they count, and the octets of its
/// Acct-Session-Id (RFC 2866, section 5.5). The octets of all lie behind one another, those of the id last.
#[derive(Drop)]
pub(crate) struct OpenSession<A: Allocator> {
    pub(crate) octets: Octets<A>,
    pub(crate) peer: u16,
    /// In octets, as the next two.
    pub(crate) address: Option<u8>,
    pub(crate) identifier: Option<u8>,
    pub(crate) ipv6: Option<u8>,
    ghost are_parts: { AreParts address identifier ipv6 octets },
}
