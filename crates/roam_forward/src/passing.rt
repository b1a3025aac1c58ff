//! The way in which an attribute passes.

ghost use Rattle.std.specs.Prelude.{◌≡◌, ◌≤◌, length};
ghost use Rattle.roam_wire.specs.Shown.{shown};
ghost use Rattle.roam_forward.specs.Removal.{removed_by};
ghost use Rattle.roam_forward.specs.Without.{has_vendor, how_passed, passing_of_vendor, vendor_of};

use crate::removal::{Removal, removes_kind, removes_some_of, removes_vendor};
use roam_wire::Attr;
use roam_wire::attribute_type::VENDOR_SPECIFIC;

/// The way in which an attribute passes.
#[derive(Clone, Copy, Debug, PartialEq, Eq)]
pub enum Passing {
    /// It doesn't.
    Nothing,
    /// As it stands.
    Whole,
    /// Without the sub-attributes that are named.
    Parts,
}

/// Returns whether an attribute is a Vendor-Specific with a vendor.
fn has_vendor(attribute: &Attr<'_>) -> bool
    ensures { result ≡ has_vendor (shown attribute.now) }
{
    attribute.kind == VENDOR_SPECIFIC && attribute.value.len() >= 4
}

/// Returns the vendor in the first four octets of a value.
pub(crate) fn vendor_of(value: &[u8]) -> u32
    requires { 4 ≤ length value.now }
    ensures { result ≡ vendor_of value.now }
{
    u32::from_be_bytes([value[0], value[1], value[2], value[3]])
}

/// Returns how a vendor's attribute passes.
fn passing_of_vendor(removal: &Removal<'_>, vendor: u32) -> Passing
    ensures { result ≡ passing_of_vendor (removed_by removal.now) vendor }
{
    if removes_vendor(removal, vendor) {
        Passing::Nothing
    } else if removes_some_of(removal, vendor) {
        Passing::Parts
    } else {
        Passing::Whole
    }
}

/// Returns how an attribute passes.
pub(crate) fn how_passed(attribute: &Attr<'_>, removal: &Removal<'_>) -> Passing
    ensures { result ≡ how_passed (removed_by removal.now) (shown attribute.now) }
{
    if removes_kind(removal, attribute.kind) {
        Passing::Nothing
    } else if has_vendor(attribute) {
        passing_of_vendor(removal, vendor_of(attribute.value))
    } else {
        Passing::Whole
    }
}
