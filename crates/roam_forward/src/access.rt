//! An Access-Request's octets, rewritten where they lie (RFC 2865, section 2.3).

ghost use Rattle.std.specs.Prelude.{◌≡◌, ℕ, ◌+◌, ◌≤◌, List, [], ◌∷◌, ◌++◌, length, take};
ghost use Rattle.roam_wire.specs.Packet.{attributes_text, packet_text};
ghost use Rattle.roam_wire.specs.declared.code.TheConstants.{ACCESS_REQUEST};
ghost use Rattle.roam_wire.specs.Secret.{IsSecret};
ghost use Rattle.roam_forward.specs.Forwarded.{ticket_state, added_challenge, forwarded};
ghost use Rattle.roam_forward.specs.Private.Arranged.{challenge_of, IsSealStart, arranged_attributes};
ghost use Rattle.roam_forward.specs.Rewriting.{shown, request_in, IsRewritable};

use crate::length::{ADDED_SIZE, TICKET_SIZE, challenge_is_authenticator};
use crate::places::{front_packet, put_challenge, put_header, put_seal_first, put_ticket};
use crate::terms::Forwarding;
use roam_crypto::{Hidden, HidingKey, rehide_packet, seal, value_place};
use roam_wire::View;

/// Returns where the Message-Authenticator begins, or where the request ends if it has none.
fn seal_start(request: &View<'_>) -> usize
    ensures { IsSealStart result request.now }
{
    match value_place(request) {
        Some(at) => at - 2,
        None => request.octets().len(),
    }
}

/// Returns the CHAP-Challenge that is added (RFC 2865, section 5.40).
fn challenge_to_add(request: &View<'_>) -> Option<[u8; 16]>
    ensures { challenge_of result ≡ added_challenge request.now }
{
    if challenge_is_authenticator(request) {
        Some(request.authenticator())
    } else {
        None
    }
}

/// Writes the attributes that are added behind the request's own: a CHAP-Challenge, and the ticket.
fn put_last(octets: &mut [u8], challenge: Option<[u8; 16]>, ticket: u64)
    requires { length (attributes_text (challenge_of challenge)) + 10 ≤ length octets.old }
    ensures { (front room : List ℕ) → octets.old ≡ front ++ room
        → length room ≡ length (attributes_text (challenge_of challenge)) + 10
        → octets.new ≡ front
        ++ attributes_text (challenge_of challenge ++ ticket_state ticket ∷ []) }
{
    let end = octets.len() - TICKET_SIZE;
    if let Some(challenge) = challenge {
        put_challenge(octets, end - ADDED_SIZE, &challenge);
    }
    put_ticket(octets, end, ticket);
}

/// Brings the attributes into the order in which they are forwarded, with room for what is added.
fn arrange(octets: &mut [u8], len: usize, ticket: u64)
    requires rewritable { IsRewritable len octets.old }
    requires access { (request_in len octets.old).code ≡ ACCESS_REQUEST }
    ensures { octets.new ≡ take 20 octets.old
        ++ attributes_text (arranged_attributes (request_in len octets.old) ticket) }
{
    let request = front_packet(octets, len);
    let start = seal_start(&request);
    let challenge = challenge_to_add(&request);
    put_seal_first(octets, start);
    put_last(octets, challenge, ticket);
}

/// Rewrites an Access-Request's octets to those of the packet that is forwarded for it.
pub(crate) fn rewrite_access(octets: &mut [u8], len: usize, forwarding: &Forwarding<'_>)
    requires rewritable { IsRewritable len octets.old }
    requires access { (request_in len octets.old).code ≡ ACCESS_REQUEST }
    requires secret { IsSecret forwarding.now.to_secret.now }
    ensures { octets.new
        ≡ packet_text (forwarded (shown forwarding.now) (request_in len octets.old)) }
{
    let requesters = front_packet(octets, len).authenticator();
    arrange(octets, len, forwarding.ticket);
    put_header(octets, forwarding.id, &forwarding.authenticator);
    let from = HidingKey {
        secret: forwarding.from_secret,
        authenticator: &requesters,
    };
    let to = HidingKey {
        secret: forwarding.to_secret.octets(),
        authenticator: &forwarding.authenticator,
    };
    rehide_packet(octets, Hidden::UserPassword, from, to);
    seal(octets, forwarding.to_secret, forwarding.authenticator);
}
