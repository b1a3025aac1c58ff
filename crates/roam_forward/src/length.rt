//! The size of a forwarded packet, from the request alone.

ghost use Rattle.std.specs.Prelude.{◌≡◌, ◌+◌, ◌≤◌};
ghost use Rattle.roam_wire.specs.Packet.{packet_length};
ghost use Rattle.roam_forward.specs.Forwarded.{challenge_is_authenticator, access_growth, forwarded_length};

use roam_wire::View;
use roam_wire::attribute_type::{CHAP_CHALLENGE, CHAP_PASSWORD, MESSAGE_AUTHENTICATOR};
use roam_wire::code::ACCESS_REQUEST;

/// The octets of the Proxy-State that is added (RFC 2865, section 5.33): Type, Length and eight of Value.
pub(crate) const TICKET_SIZE: usize = 10;

/// The octets of a Message-Authenticator or CHAP-Challenge that is added: Type, Length and sixteen of
/// Value.
pub(crate) const ADDED_SIZE: usize = 18;

/// The most octets that a forwarded packet has more than its request: the ticket, a
/// Message-Authenticator and a CHAP-Challenge.
pub const MAX_GROWTH: usize = 46;

/// Returns whether a CHAP-Password stands without a CHAP-Challenge (RFC 2865, section 5.3).
pub(crate) fn challenge_is_authenticator(request: &View<'_>) -> bool
    ensures { result ≡ challenge_is_authenticator request.now.attributes }
{
    request.count(CHAP_PASSWORD) > 0 && request.count(CHAP_CHALLENGE) == 0
}

/// Returns how many octets an Access-Request gains besides the ticket.
fn access_growth(request: &View<'_>) -> usize
    ensures growth { result ≡ access_growth request.now }
    ensures few { result ≤ 36 }
{
    let seal = if request.count(MESSAGE_AUTHENTICATOR) == 0 {
        ADDED_SIZE
    } else {
        0
    };
    let challenge = if challenge_is_authenticator(request) {
        ADDED_SIZE
    } else {
        0
    };
    seal + challenge
}

/// Computes the size of the packet that is forwarded for a request, in octets: 10 to `MAX_GROWTH` more than the
/// request has. A packet of more than 4096 isn't forwarded. Takes no memory; at most three passes over the
/// attributes.
#[tactic(auto, unfolding(crate::specs::Forwarded::forwarded_length))]
pub fn forwarded_len(request: &View<'_>) -> usize
    ensures size { result ≡ forwarded_length request.now }
    ensures at_least { packet_length request.now + 10 ≤ result }
    ensures at_most { result ≤ packet_length request.now + MAX_GROWTH }
{
    let size = request.octets().len() + TICKET_SIZE;
    if request.code() == ACCESS_REQUEST {
        size + access_growth(request)
    } else {
        size
    }
}
