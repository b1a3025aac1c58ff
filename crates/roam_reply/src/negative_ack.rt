//! The negative acknowledgement of a reverse request (RFC 5176, sections 2.3 and 3.5).

ghost use Rattle.std.specs.Prelude.{◌≡◌, ℕ, ◌+◌, ◌≤◌, ◌++◌, take, drop, vec_len, vec_capacity};
ghost use Rattle.std.specs.Prelude.{IfOk, IsTrue};
ghost use Rattle.roam_wire.specs.Packet.{IsPacket, packet_length, packet_text};
ghost use Rattle.roam_wire.specs.Reading.{IsPacketText, packet_of};
ghost use Rattle.roam_wire.specs.Codes.{is_reverse_request};
ghost use Rattle.roam_wire.specs.Secret.{IsSecret};
ghost use Rattle.roam_crypto.specs.Authenticators.{signed_reply};
ghost use Rattle.roam_reply.specs.Nak.{nak_code, unsigned_nak, nak, nak_length};

use roam_crypto::sign_reply;
use roam_wire::attribute_type::ERROR_CAUSE;
use roam_wire::code::{COA_NAK, DISCONNECT_NAK, DISCONNECT_REQUEST};
use roam_wire::writing::{append_attribute, append_header, append_proxy_states, proxy_states_len};
use roam_wire::{Attr, NoMemory, View};
use std::alloc::Allocator;

/// Returns the code that refuses a Disconnect-Request, or else a CoA-Request (RFC 5176, section 2.3).
fn nak_code(request: u8) -> u8
    ensures { result ≡ nak_code request }
{
    if request == DISCONNECT_REQUEST {
        DISCONNECT_NAK
    } else {
        COA_NAK
    }
}

/// Computes the size of a request's NAK, in octets, at most six more than the request has: the header, the
/// Error-Cause, the Proxy-States. Takes no memory.
pub fn nak_len(request: &View<'_>) -> usize
    ensures size { result ≡ nak_length request.now }
    ensures unsigned { (cause : ℕ) → result ≡ packet_length (unsigned_nak cause request.now) }
    ensures at_most { result ≤ packet_length request.now + 6 }
    ensures packet { IsPacket request.now }
{
    26 + proxy_states_len(request)
}

/// Appends the NAK before it is signed.
fn append_unsigned<A: Allocator>(out: &mut Vec<u8, A>, request: &View<'_>, cause: u32, size: usize)
    requires size { size ≡ packet_length (unsigned_nak cause request.now) }
    requires short { size ≤ 4096 }
    requires room { vec_len out.old + size ≤ vec_capacity out.old }
    ensures items { out.new.items
        ≡ out.old.items ++ packet_text (unsigned_nak cause request.now) }
    ensures capacity { vec_capacity out.new ≡ vec_capacity out.old }
{
    append_header(
        out,
        nak_code(request.code()),
        request.id(),
        size,
        &request.authenticator(),
    );
    append_attribute(
        out,
        Attr {
            kind: ERROR_CAUSE,
            value: &cause.to_be_bytes(),
        },
    );
    append_proxy_states(out, request);
}

/// Signs the reply that stands in a buffer from one octet on (RFC 2865, section 3).
fn sign_from<A: Allocator>(
    out: &mut Vec<u8, A>,
    start: usize,
    request_authenticator: [u8; 16],
    secret: &[u8],
)
    requires start { start ≤ vec_len out.old }
    requires packet { IsPacketText (drop start out.old.items) }
    requires secret { IsSecret secret.now }
    ensures items { out.new.items ≡ take start out.old.items
        ++ packet_text (signed_reply secret.now request_authenticator
        (packet_of (drop start out.old.items))) }
    ensures capacity { vec_capacity out.new ≡ vec_capacity out.old }
{
    sign_reply(
        &mut out.as_mut_slice()[start..],
        secret,
        request_authenticator,
    );
}

/// Appends the NAK that refuses a Disconnect-Request or a CoA-Request (RFC 5176, section 2.3) to a
/// buffer that has the room: an Error-Cause of this number, and the request's Proxy-States, signed
/// with the home server's secret, of 1 to 64 octets. Takes no memory.
pub fn nak_reserved<A: Allocator>(
    request: &View<'_>,
    cause: u32,
    secret: &[u8],
    out: &mut Vec<u8, A>,
)
    requires code { IsTrue (is_reverse_request request.now.code) }
    requires short { packet_length request.now ≤ 4086 }
    requires room { vec_len out.old + nak_length request.now ≤ vec_capacity out.old }
    requires secret { IsSecret secret.now }
    ensures octets { out.new.items
        ≡ out.old.items ++ packet_text (nak secret.now cause request.now) }
    ensures capacity { vec_capacity out.new ≡ vec_capacity out.old }
{
    let start = out.len();
    let size = nak_len(request);
    append_unsigned(out, request, cause, size);
    sign_from(out, start, request.authenticator(), secret);
}

/// Makes the NAK that refuses a Disconnect-Request or a CoA-Request (RFC 5176, section 2.3): an Error-Cause of this
/// number, and the request's Proxy-States, signed with the home server's secret, of 1 to 64 octets. Asks for its room
/// at once.
pub fn nak<A: Allocator>(
    alloc: A,
    request: &View<'_>,
    cause: u32,
    secret: &[u8],
) -> Result<Vec<u8, A>, NoMemory>
    requires code { IsTrue (is_reverse_request request.now.code) }
    requires short { packet_length request.now ≤ 4086 }
    requires secret { IsSecret secret.now }
    ensures { IfOk result (λ v. v.items ≡ packet_text (nak secret.now cause request.now)) }
{
    let mut out = Vec::with_capacity(alloc, nak_len(request))?;
    nak_reserved(request, cause, secret, &mut out);
    Ok(out)
}
