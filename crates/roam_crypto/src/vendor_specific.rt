//! The value of a Vendor-Specific (RFC 2865, section 5.26).

ghost use Rattle.std.specs.Prelude.{◌≡◌, ◌≤◌, length, take, drop};
ghost use Rattle.std.specs.Option.{is_some};
ghost use Rattle.roam_crypto.specs.HidingKeys.{password_key};
ghost use Rattle.roam_crypto.specs.Salted.{holds_salted};
ghost use Rattle.roam_crypto.specs.SaltedFunctions.{vendor_subs};
ghost use Rattle.roam_crypto.specs.SaltedValues.{IsVendorAnew, vendor_number};

use crate::hiding_key::HidingKey;
use crate::sub_attributes::{any_salted, rehide_subs};
use roam_wire::Attrs;

/// Returns the vendor in the first four octets.
fn vendor_of(value: &[u8]) -> u32
    requires { 4 ≤ length value.now }
    ensures { result ≡ vendor_number (take 4 value.now) }
{
    u32::from_be_bytes([value[0], value[1], value[2], value[3]])
}

/// Returns what stands behind the vendor.
fn behind_vendor(value: &[u8]) -> &[u8]
    requires { 4 ≤ length value.now }
    ensures { result.now ≡ drop 4 value.now }
{
    value.split_at(4).1
}

/// Returns whether a value has a vendor, and sub-attributes that are well formed.
fn is_well_formed(value: &[u8]) -> bool
    ensures { result ≡ is_some (vendor_subs value.now) }
{
    value.len() >= 4 && Attrs::read(behind_vendor(value)).is_some()
}

/// Returns whether a value has a vendor, and sub-attributes that are well formed, one of them with a salted string.
pub(crate) fn holds_salted(value: &[u8]) -> bool
    ensures { result ≡ holds_salted value.now }
{
    value.len() >= 4 && any_salted(behind_vendor(value), vendor_of(value))
}

/// Hides the salted strings of a Vendor-Specific anew, in place. All else stays as it is: sub-attributes of a kind
/// without a salted string, strings of no octets or no whole blocks of 16, and a value of less than four octets, or in
/// which a Length is missing, below 2 or past the end.
pub fn rehide_vendor(value: &mut [u8], from: HidingKey<'_>, to: HidingKey<'_>)
    ensures { IsVendorAnew (password_key from.entry) (password_key to.entry) value.old value.new }
{
    if is_well_formed(value) {
        let vendor = vendor_of(value);
        rehide_subs(&mut value[4..], vendor, from, to);
    }
}
