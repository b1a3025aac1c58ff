//! The Message-Authenticator (RFC 3579, section 3.2).

ghost use Rattle.std.specs.Prelude.{◌≡◌, ◌↔◌, ℕ, List, [], ◌∷◌, ◌++◌, IsTrue};
ghost use Rattle.std.specs.Prelude.{IsSome, IfSome};
ghost use Rattle.roam_crypto.specs.Hasher.{Holds};
ghost use Rattle.roam_wire.specs.Packet.{packet_text};
ghost use Rattle.roam_crypto.specs.Authenticators.{with_authenticator, zero_octets};
ghost use Rattle.roam_crypto.specs.MessageAuthenticator.{HasOneMessageAuthenticator, IsWellSealed, with_value};
ghost use Rattle.roam_crypto.specs.MessageAuthenticator.{message_authenticator};
ghost use Rattle.roam_crypto.specs.Sealing.{IsValuePlace};

use crate::Hasher;
use crate::comparing::is_same_digest;
use crate::pieces::{octets_before, octets_from};
use crate::seal_place::seal_place;
use crate::secret::Secret;
use crate::taking_in::{update_with_field, update_zeroed};
use roam_wire::View;
use roam_wire::attribute_type::MESSAGE_AUTHENTICATOR;

/// Returns whether just one Message-Authenticator stands there, of 16 octets (RFC 3579, section 3.2).
pub fn has_one_message_authenticator(view: &View<'_>) -> bool
    ensures { IsTrue result ↔ HasOneMessageAuthenticator view.now }
{
    view.count(MESSAGE_AUTHENTICATOR) == 1
        && view
            .first(MESSAGE_AUTHENTICATOR)
            .is_some_and(|value| value.len() == 16)
}

/// Takes a packet in, with this Authenticator in its field and sixteen zero octets where the Value of its
/// Message-Authenticator begins.
pub(crate) fn update_with_packet(
    hasher: &mut Hasher,
    view: &View<'_>,
    at: usize,
    authenticator: [u8; 16],
)
    requires one { HasOneMessageAuthenticator view.now }
    requires place { IsValuePlace at view.now.attributes }
    ensures { (m : List ℕ) → Holds hasher.old m → Holds hasher.new
        (m ++ packet_text (with_authenticator authenticator (with_value zero_octets view.now))) }
{
    let octets = view.octets();
    update_with_field(hasher, octets_before(octets, at), authenticator);
    update_zeroed(hasher, octets_from(octets, at));
}

/// Computes the Message-Authenticator of a packet over an Authenticator, where the packet's own begins at octet `at`.
pub(crate) fn digest_at(
    view: &View<'_>,
    at: usize,
    secret: &Secret,
    authenticator: [u8; 16],
) -> [u8; 16]
    requires one { HasOneMessageAuthenticator view.now }
    requires place { IsValuePlace at view.now.attributes }
    ensures { result ≡ message_authenticator secret.now authenticator view.now }
{
    let mut hasher = secret.inner_hasher();
    update_with_packet(&mut hasher, view, at, authenticator);
    secret.outer_digest(hasher.finalize())
}

/// Computes the Message-Authenticator of a packet over an Authenticator: HMAC-MD5, keyed by the secret, of the packet
/// with that Authenticator in its field and its Message-Authenticator's 16 octets zero (RFC 3579, section 3.2).
/// Returns `None` unless just one Message-Authenticator stands there, of 16 octets.
pub fn message_auth(view: &View<'_>, secret: &Secret, authenticator: [u8; 16]) -> Option<[u8; 16]>
    ensures some { IfSome result (λ digest.
        digest ≡ message_authenticator secret.now authenticator view.now) }
    ensures stands { IsSome result ↔ HasOneMessageAuthenticator view.now }
{
    match seal_place(view) {
        None => None,
        Some(at) => Some(digest_at(view, at, secret, authenticator)),
    }
}

/// Returns whether a packet is well sealed for a secret and one Authenticator: whether it has no
/// Message-Authenticator, or just one, of 16 octets, that is the packet's over that Authenticator
/// (RFC 3579, section 3.2).
pub fn message_ok(view: &View<'_>, secret: &Secret, authenticator: [u8; 16]) -> bool
    ensures { IsTrue result ↔ IsWellSealed secret.now (authenticator ∷ []) view.now }
{
    match view.first(MESSAGE_AUTHENTICATOR) {
        None => true,
        Some(value) => match message_auth(view, secret, authenticator) {
            None => false,
            Some(expected) => is_same_digest(value, expected.as_slice()),
        },
    }
}
