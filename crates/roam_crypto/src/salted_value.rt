//! A string behind a salt of two octets (RFC 2868, section 3.5; RFC 2548, section 2.4.2).

ghost use Rattle.std.specs.Prelude.{◌≡◌, ◌++◌, ◌<◌, ◌%◌};
ghost use Rattle.md5.specs.Md5.{md5};
ghost use Rattle.roam_crypto.specs.Hiding.{HasWholeBlocks, IsHiddenAnew};
ghost use Rattle.roam_crypto.specs.HidingKeys.{password_key};
ghost use Rattle.roam_crypto.specs.SaltedValues.{salted_key, IsSaltedAnew};

use crate::Hasher;
use crate::blocks::rehide_blocks;
use crate::hiding_key::HidingKey;

/// Returns what covers the first block of a salted string.
fn digest_of_salted(secret: &[u8], authenticator: &[u8; 16], salt: &[u8; 2]) -> [u8; 16]
    ensures { result ≡ md5 (secret.now ++ (authenticator.now ++ salt.now)) }
{
    let mut hasher = Hasher::new();
    hasher.update(secret);
    hasher.update(authenticator);
    hasher.update(salt);
    hasher.finalize()
}

/// Hides a string that stands behind this salt, and is hidden with `from`, anew with `to`, in place
/// (RFC 2868, section 3.5).
pub fn rehide_salted(string: &mut [u8], salt: [u8; 2], from: HidingKey<'_>, to: HidingKey<'_>)
    requires { HasWholeBlocks string.old }
    ensures { IsHiddenAnew (salted_key (password_key from.entry) salt)
        (salted_key (password_key to.entry) salt) string.old string.new }
{
    let HidingKey {
        secret: from_secret,
        authenticator: from_authenticator,
    } = from;
    let HidingKey {
        secret: to_secret,
        authenticator: to_authenticator,
    } = to;
    let off = digest_of_salted(from_secret, from_authenticator, &salt);
    let on = digest_of_salted(to_secret, to_authenticator, &salt);
    rehide_blocks(string, from_secret, off, to_secret, on);
}

/// Hides the string of a value anew, where it has whole blocks; the value is its salt, then the
/// string.
pub(crate) fn rehide_value(value: &mut [u8], from: HidingKey<'_>, to: HidingKey<'_>)
    ensures { IsSaltedAnew (password_key from.entry) (password_key to.entry) value.old value.new }
{
    if value.len() > 2 && (value.len() - 2) % 16 == 0 {
        let salt = [value[0], value[1]];
        rehide_salted(&mut value[2..], salt, from, to);
    }
}
