//! Filling in the Message-Authenticator and the Authenticator of a packet that is built, in place.

ghost use Rattle.std.specs.Prelude.{◌≡◌, ◌+◌, ◌≤◌, ◌++◌, length, take, drop, IfNone};
ghost use Rattle.std.specs.Prelude.{IfSome};
ghost use Rattle.roam_wire.specs.Packet.{packet_text};
ghost use Rattle.roam_wire.specs.Reading.{IsPacketText, packet_of};
ghost use Rattle.roam_wire.specs.Secret.{IsSecret};
ghost use Rattle.roam_crypto.specs.Authenticators.{request_authenticator, response_authenticator, with_authenticator};
ghost use Rattle.roam_crypto.specs.Authenticators.{signed_reply};
ghost use Rattle.roam_crypto.specs.MessageAuthenticator.{HasOneMessageAuthenticator};
ghost use Rattle.roam_crypto.specs.MessageAuthenticator.{HasAtMostOneMessageAuthenticator, message_authenticator};
ghost use Rattle.roam_crypto.specs.MessageAuthenticator.{with_message_authenticator};
ghost use Rattle.roam_crypto.specs.Sealing.{IsValuePlace};

use crate::message::digest_at;
use crate::request::request_auth;
use crate::response::response_auth;
use crate::seal_place::seal_place;
use crate::secret::Secret;
use roam_wire::View;

/// Returns where the Value of the one Message-Authenticator begins, in the packet's octets.
fn seal_place_in(octets: &[u8]) -> Option<usize>
    requires { IsPacketText octets.now }
    ensures none { IfNone result (¬ HasOneMessageAuthenticator (packet_of octets.now)) }
    ensures one { IfSome result (λ _. HasOneMessageAuthenticator (packet_of octets.now)) }
    ensures place { IfSome result (λ at. IsValuePlace at (packet_of octets.now).attributes) }
{
    seal_place(&View::of_packet(octets))
}

/// Computes the Message-Authenticator of the packet of these octets, whose own begins at octet `at`.
fn digest_in(octets: &[u8], at: usize, secret: &Secret, authenticator: [u8; 16]) -> [u8; 16]
    requires packet { IsPacketText octets.now }
    requires one { HasOneMessageAuthenticator (packet_of octets.now) }
    requires place { IsValuePlace at (packet_of octets.now).attributes }
    ensures { result ≡ message_authenticator secret.now authenticator (packet_of octets.now) }
{
    digest_at(&View::of_packet(octets), at, secret, authenticator)
}

/// Writes sixteen octets.
fn put_sixteen(octets: &mut [u8], at: usize, sixteen: &[u8; 16])
    requires { at + 16 ≤ length octets.old }
    ensures { octets.new ≡ take at octets.old ++ sixteen.now ++ drop (at + 16) octets.old }
{
    octets[at..at + 16].copy_from_slice(sixteen);
}

/// Fills in a packet's Message-Authenticator over this Authenticator (RFC 3579, section 3.2), in its
/// octets. A packet that has none stays as it is.
pub fn seal(octets: &mut [u8], secret: &Secret, authenticator: [u8; 16])
    requires packet { IsPacketText octets.old }
    requires at_most_one { HasAtMostOneMessageAuthenticator (packet_of octets.old) }
    ensures { octets.new
        ≡ packet_text (with_message_authenticator secret.now authenticator (packet_of octets.old)) }
{
    let Some(at) = seal_place_in(octets) else {
        return;
    };
    let digest = digest_in(octets, at, secret, authenticator);
    put_sixteen(octets, at, &digest);
}

/// Fills in the Authenticator of an accounting or reverse request (RFC 2866, section 3; RFC 5176,
/// section 2.3), in its octets.
pub fn sign_request(octets: &mut [u8], secret: &[u8])
    requires packet { IsPacketText octets.old }
    requires secret { IsSecret secret.now }
    ensures { octets.new ≡ packet_text (with_authenticator
        (request_authenticator secret.now (packet_of octets.old)) (packet_of octets.old)) }
{
    let digest = request_auth(&View::of_packet(octets), secret);
    put_sixteen(octets, 4, &digest);
}

/// Fills in the Authenticator of a reply to a request of this Authenticator (RFC 2865, section 3), in
/// its octets.
pub fn sign_reply(octets: &mut [u8], secret: &[u8], request_authenticator: [u8; 16])
    requires packet { IsPacketText octets.old }
    requires secret { IsSecret secret.now }
    ensures { octets.new ≡ packet_text (with_authenticator
        (response_authenticator secret.now request_authenticator (packet_of octets.old))
        (packet_of octets.old)) }
{
    let digest = response_auth(&View::of_packet(octets), request_authenticator, secret);
    put_sixteen(octets, 4, &digest);
}

/// Seals and signs a reply to a request of this Authenticator (RFC 3579, section 3.2; RFC 2865, section
/// 3), in its octets.
pub fn seal_and_sign(octets: &mut [u8], secret: &Secret, request_authenticator: [u8; 16])
    requires packet { IsPacketText octets.old }
    requires at_most_one { HasAtMostOneMessageAuthenticator (packet_of octets.old) }
    requires secret { IsSecret secret.now }
    ensures { octets.new ≡ packet_text (signed_reply secret.now request_authenticator
        (with_message_authenticator secret.now request_authenticator (packet_of octets.old))) }
{
    seal(octets, secret, request_authenticator);
    sign_reply(octets, secret.octets(), request_authenticator);
}
