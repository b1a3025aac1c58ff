//! The value of a Tunnel-Password (RFC 2868, section 3.5).

ghost use Rattle.roam_crypto.specs.HidingKeys.{password_key};
ghost use Rattle.roam_crypto.specs.SaltedValues.{IsTunnelAnew};

use crate::hiding_key::HidingKey;
use crate::salted_value::rehide_value;

/// Hides the string of a Tunnel-Password, a value of tag, salt and string, anew in place (RFC 2868,
/// section 3.5). A value whose string has no octets, or no whole blocks of 16, stays as it is, and
/// so does a value too short for its salt.
pub fn rehide_tunnel(value: &mut [u8], from: HidingKey<'_>, to: HidingKey<'_>)
    ensures { IsTunnelAnew (password_key from.entry) (password_key to.entry) value.old value.new }
{
    if !value.is_empty() {
        rehide_value(&mut value[1..], from, to);
    }
}
