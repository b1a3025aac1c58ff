//! The value of a User-Password (RFC 2865, section 5.2).

ghost use Rattle.std.specs.Prelude.{◌↔◌, IsTrue};
ghost use Rattle.roam_crypto.specs.Hiding.{HasWholeBlocks, IsHiddenAnew, IsPasswordSize};
ghost use Rattle.roam_crypto.specs.HidingKeys.{password_key};

use crate::blocks::{digest_of, rehide_blocks};
use crate::hiding_key::HidingKey;

/// Returns whether a User-Password may have this many octets: 16, 32, .. 128 (RFC 2865, section 5.2).
pub fn password_fits(len: usize) -> bool
    ensures { IsTrue result ↔ IsPasswordSize len }
{
    (16..=128).contains(&len) && len % 16 == 0
}

/// Hides a User-Password, hidden with `from`, anew with `to`, in place (RFC 2865, section 2.3).
pub fn rehide_password(value: &mut [u8], from: HidingKey<'_>, to: HidingKey<'_>)
    requires { HasWholeBlocks value.old }
    ensures { IsHiddenAnew (password_key from.entry) (password_key to.entry) value.old value.new }
{
    let HidingKey {
        secret: from_secret,
        authenticator: from_authenticator,
    } = from;
    let HidingKey {
        secret: to_secret,
        authenticator: to_authenticator,
    } = to;
    let off = digest_of(from_secret, from_authenticator);
    let on = digest_of(to_secret, to_authenticator);
    rehide_blocks(value, from_secret, off, to_secret, on);
}
