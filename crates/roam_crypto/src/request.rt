//! The Request Authenticator of accounting and reverse requests (RFC 2866, section 3; RFC 5176,
//! section 2.3).

ghost use Rattle.std.specs.Prelude.{◌≡◌, ◌↔◌, IsTrue};
ghost use Rattle.roam_wire.specs.Secret.{IsSecret};
ghost use Rattle.roam_crypto.specs.Authenticators.{request_authenticator, IsSignedRequest};

use crate::comparing::is_same_digest;
use crate::pieces::ZERO_OCTETS;
use crate::response::response_auth;
use roam_wire::View;

/// Computes the Request Authenticator of an Accounting-, Disconnect- or CoA-Request: MD5 of its Code, Identifier and
/// Length, sixteen zero octets, its attributes and the secret (RFC 2866, section 3; RFC 5176, section 2.3).
pub fn request_auth(view: &View<'_>, secret: &[u8]) -> [u8; 16]
    requires secret { IsSecret secret.now }
    ensures { result ≡ request_authenticator secret.now view.now }
{
    response_auth(view, ZERO_OCTETS, secret)
}

/// Returns whether an accounting or reverse request is signed: whether its Authenticator field is its
/// Request Authenticator (RFC 2866, section 3; RFC 5176, section 2.3).
pub fn request_ok(view: &View<'_>, secret: &[u8]) -> bool
    requires secret { IsSecret secret.now }
    ensures { IsTrue result ↔ IsSignedRequest secret.now view.now }
{
    let expected = request_auth(view, secret);
    is_same_digest(view.authenticator().as_slice(), expected.as_slice())
}
