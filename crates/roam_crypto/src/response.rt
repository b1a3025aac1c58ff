//! The Response Authenticator (RFC 2865, section 3).

ghost use Rattle.std.specs.Prelude.{◌≡◌, ◌↔◌, IsTrue};
ghost use Rattle.roam_wire.specs.Secret.{IsSecret};
ghost use Rattle.roam_crypto.specs.Authenticators.{response_authenticator, IsSignedReply};

use crate::Hasher;
use crate::comparing::is_same_digest;
use crate::taking_in::update_with_field;
use roam_wire::View;

/// Computes the Response Authenticator of a reply: MD5 of its Code, Identifier and Length, the request's
/// Authenticator, its attributes and the secret (RFC 2865, section 3).
pub fn response_auth(view: &View<'_>, request_authenticator: [u8; 16], secret: &[u8]) -> [u8; 16]
    requires secret { IsSecret secret.now }
    ensures { result ≡ response_authenticator secret.now request_authenticator view.now }
{
    let mut hasher = Hasher::new();
    update_with_field(&mut hasher, view.octets(), request_authenticator);
    hasher.update(secret);
    hasher.finalize()
}

/// Returns whether a reply is signed: whether its Authenticator field is its Response Authenticator
/// (RFC 2865, section 3).
pub fn response_ok(view: &View<'_>, request_authenticator: [u8; 16], secret: &[u8]) -> bool
    requires secret { IsSecret secret.now }
    ensures { IsTrue result ↔ IsSignedReply secret.now request_authenticator view.now }
{
    let expected = response_auth(view, request_authenticator, secret);
    is_same_digest(view.authenticator().as_slice(), expected.as_slice())
}
