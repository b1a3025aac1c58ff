//! The octets of a packet, appended to a buffer (RFC 2865, sections 3 and 5).
//!
//! The buffer has the room already, and nothing here takes memory.

ghost use Rattle.std.specs.Prelude.{◌≡◌, ◌+◌, ◌/◌, ◌%◌, ◌≤◌, ◌∷◌, ◌++◌};
ghost use Rattle.std.specs.Prelude.{length, replicate, vec_len, vec_capacity};
ghost use Rattle.roam_wire.specs.Packet.{IsPacket, attribute_text, attributes_text};
ghost use Rattle.roam_wire.specs.Attributes.{only_kind};
ghost use Rattle.roam_wire.specs.Shown.{shown};

use crate::attribute_type::{MESSAGE_AUTHENTICATOR, PROXY_STATE};
use crate::attributes::Attr;
use crate::view::View;
use std::alloc::Allocator;

/// A Message-Authenticator that is still to be filled in (RFC 3579, section 3.2).
pub const EMPTY_MESSAGE_AUTHENTICATOR: [u8; 18] = [
    MESSAGE_AUTHENTICATOR,
    18,
    0,
    0,
    0,
    0,
    0,
    0,
    0,
    0,
    0,
    0,
    0,
    0,
    0,
    0,
    0,
    0,
];

/// Appends octets.
pub fn append_octets<A: Allocator>(out: &mut Vec<u8, A>, octets: &[u8])
    requires { vec_len out.old + length octets.now ≤ vec_capacity out.old }
    ensures items { out.new.items ≡ out.old.items ++ octets.now }
    ensures capacity { vec_capacity out.new ≡ vec_capacity out.old }
{
    for octet in octets {
        out.push_reserved(*octet);
    }
}

/// Appends so many zeros.
pub fn append_zeros<A: Allocator>(out: &mut Vec<u8, A>, count: usize)
    requires { vec_len out.old + count ≤ vec_capacity out.old }
    ensures items { out.new.items ≡ out.old.items ++ replicate count 0 }
    ensures capacity { vec_capacity out.new ≡ vec_capacity out.old }
{
    for k in 0..count {
        out.push_reserved(0);
    }
}

/// Appends a packet's header: Code, Identifier, Length, Authenticator (RFC 2865, section 3).
pub fn append_header<A: Allocator>(
    out: &mut Vec<u8, A>,
    code: u8,
    id: u8,
    size: usize,
    authenticator: &[u8; 16],
)
    requires room { vec_len out.old + 20 ≤ vec_capacity out.old }
    requires size { size ≤ 4096 }
    ensures items { out.new.items
        ≡ out.old.items ++ code ∷ id ∷ (size / 256) ∷ (size % 256) ∷ authenticator.now }
    ensures capacity { vec_capacity out.new ≡ vec_capacity out.old }
{
    append_octets(out, &[code, id, (size / 256) as u8, (size % 256) as u8]);
    append_octets(out, authenticator);
}

/// Appends an attribute: Type, Length, Value (RFC 2865, section 5).
pub fn append_attribute<A: Allocator>(out: &mut Vec<u8, A>, attribute: Attr<'_>)
    requires short { length attribute.value.now ≤ 253 }
    requires room { vec_len out.old + 2 + length attribute.value.now ≤ vec_capacity out.old }
    ensures items { out.new.items ≡ out.old.items ++ attribute_text (shown attribute.entry) }
    ensures capacity { vec_capacity out.new ≡ vec_capacity out.old }
{
    append_octets(out, &[attribute.kind, attribute.value.len() as u8 + 2]);
    append_octets(out, attribute.value);
}

/// Returns how many octets a packet's Proxy-States take. One pass.
pub fn proxy_states_len(request: &View<'_>) -> usize
    ensures all { result ≡ length (attributes_text (only_kind PROXY_STATE request.now.attributes)) }
    ensures few { result ≤ 4076 }
    ensures packet { IsPacket request.now }
{
    let mut size = 0;
    for attribute in request.attributes() {
        if attribute.kind == PROXY_STATE {
            size += 2 + attribute.value.len();
        }
    }
    size
}

/// Appends a packet's Proxy-States, in their order (RFC 2865, section 5.33).
pub fn append_proxy_states<A: Allocator>(out: &mut Vec<u8, A>, request: &View<'_>)
    requires { vec_len out.old
        + length (attributes_text (only_kind PROXY_STATE request.now.attributes))
        ≤ vec_capacity out.old }
    ensures items { out.new.items
        ≡ out.old.items ++ attributes_text (only_kind PROXY_STATE request.now.attributes) }
    ensures capacity { vec_capacity out.new ≡ vec_capacity out.old }
{
    for next in request.attributes() {
        if next.kind == PROXY_STATE {
            append_attribute(out, next);
        }
    }
}
