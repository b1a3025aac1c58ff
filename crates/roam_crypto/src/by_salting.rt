//! A value hidden anew by how it begins.

ghost use Rattle.std.specs.Prelude.{◌≡◌};
ghost use Rattle.roam_crypto.specs.HidingKeys.{password_key};
ghost use Rattle.roam_crypto.specs.SaltedFunctions.{value_anew};

use crate::hiding_key::HidingKey;
use crate::salted_kinds::Salting;
use crate::salted_value::rehide_value;
use crate::tunnel_password::rehide_tunnel;

/// Hides the string of a value anew, in place; a value without a salted string stays.
pub(crate) fn rehide_by(
    salting: Option<Salting>,
    value: &mut [u8],
    from: HidingKey<'_>,
    to: HidingKey<'_>,
)
    ensures { value.new
        ≡ value_anew (password_key from.entry) (password_key to.entry) salting value.old }
{
    if let Some(salting) = salting {
        match salting {
            Salting::Salt => rehide_value(value, from, to),
            Salting::TagAndSalt => rehide_tunnel(value, from, to),
        }
    }
}
