//! The places of a packet's octets: what is read there, and what is written.

ghost use Rattle.std.specs.Prelude.{◌≡◌, ◌+◌, ◌/◌, ◌%◌, ◌≤◌, ◌∷◌, ◌++◌, length, take};
ghost use Rattle.std.specs.Prelude.{drop, slice_index, slice_range};
ghost use Rattle.roam_wire.specs.Packet.{AreOctets, attribute_text};
ghost use Rattle.roam_wire.specs.Reading.{IsPacketText, packet_of};
ghost use Rattle.roam_wire.specs.declared.attribute_type.TheConstants.{CHAP_CHALLENGE};
ghost use Rattle.roam_crypto.specs.MessageAuthenticator.{empty_message_authenticator};
ghost use Rattle.roam_forward.specs.Forwarded.{ticket_state};

use crate::length::{ADDED_SIZE, TICKET_SIZE};
use roam_wire::View;
use roam_wire::attribute_type::{CHAP_CHALLENGE, PROXY_STATE};
use roam_wire::writing::EMPTY_MESSAGE_AUTHENTICATOR;

/// Returns the packet whose octets are the first `len` ones.
pub(crate) fn front_packet(octets: &[u8], len: usize) -> View<'_>
    requires inside { len ≤ length octets.now }
    requires packet { IsPacketText (take len octets.now) }
    ensures { result ≡ packet_of (take len octets.entry.now) }
{
    View::of_packet(octets.split_at(len).0)
}

/// Writes the header of a packet (RFC 2865, section 3): the Identifier, the Length of the octets, and
/// the Authenticator. The Code stays.
pub(crate) fn put_header(octets: &mut [u8], id: u8, authenticator: &[u8; 16])
    requires at_least_header { 20 ≤ length octets.old }
    requires at_most_4096 { length octets.old ≤ 4096 }
    ensures header { octets.new ≡ slice_index octets.old 0 ∷ id ∷ (length octets.old / 256)
        ∷ (length octets.old % 256) ∷ authenticator.now ++ drop 20 octets.old }
    ensures octets { AreOctets octets.new }
{
    let size = octets.len();
    octets[1] = id;
    octets[2] = (size / 256) as u8;
    octets[3] = (size % 256) as u8;
    octets[4..20].copy_from_slice(authenticator);
}

/// Moves the attributes before an octet 18 octets on, and writes a Message-Authenticator that is still
/// to be filled in before them (RFC 3579, section 3.2).
pub(crate) fn put_seal_first(octets: &mut [u8], start: usize)
    requires behind_header { 20 ≤ start }
    requires room { start + 18 ≤ length octets.old }
    ensures { octets.new ≡ take 20 octets.old ++ (attribute_text empty_message_authenticator
        ++ (slice_range octets.old 20 start ++ drop (start + 18) octets.old)) }
{
    octets.copy_within(20..start, 38);
    octets[20..38].copy_from_slice(&EMPTY_MESSAGE_AUTHENTICATOR);
}

/// Writes a CHAP-Challenge (RFC 2865, section 5.40).
pub(crate) fn put_challenge(octets: &mut [u8], at: usize, challenge: &[u8; 16])
    requires { at + 18 ≤ length octets.old }
    ensures { octets.new ≡ take at octets.old
        ++ (attribute_text (record { kind = CHAP_CHALLENGE; value = challenge.now })
        ++ drop (at + 18) octets.old) }
{
    octets[at] = CHAP_CHALLENGE;
    octets[at + 1] = ADDED_SIZE as u8;
    octets[at + 2..at + 18].copy_from_slice(challenge);
}

/// Writes the ticket's Proxy-State (RFC 2865, section 5.33) as the last octets.
pub(crate) fn put_ticket(octets: &mut [u8], at: usize, ticket: u64)
    requires { at + 10 ≡ length octets.old }
    ensures { octets.new ≡ take at octets.old ++ attribute_text (ticket_state ticket) }
{
    octets[at] = PROXY_STATE;
    octets[at + 1] = TICKET_SIZE as u8;
    octets[at + 2..].copy_from_slice(&ticket.to_be_bytes());
}
