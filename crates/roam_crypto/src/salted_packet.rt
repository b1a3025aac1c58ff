//! The check that a packet holds a salted string.

ghost use Rattle.std.specs.Prelude.{◌≡◌, ◌↔◌, IsTrue};
ghost use Rattle.roam_wire.specs.Shown.{shown};
ghost use Rattle.roam_crypto.specs.Salted.{is_salted, is_salted_attribute};
ghost use Rattle.roam_crypto.specs.SaltedValues.{IsSalted};

use crate::salted_kinds::salting_of;
use crate::vendor_specific::holds_salted;
use roam_wire::attribute_type::VENDOR_SPECIFIC;
use roam_wire::{Attr, View};

/// Returns whether an attribute is of a kind with a salted string, or a Vendor-Specific that holds one.
fn is_salted(attribute: &Attr<'_>) -> bool
    ensures { result ≡ is_salted_attribute (shown attribute.now) }
{
    salting_of(None, attribute.kind).is_some()
        || (attribute.kind == VENDOR_SPECIFIC && holds_salted(attribute.value))
}

/// Returns whether a packet has an attribute with a salted string. One pass.
fn has_salted(view: &View<'_>) -> bool
    ensures { result ≡ is_salted view.now.attributes }
{
    for attribute in view.attributes() {
        if is_salted(&attribute) {
            return true;
        }
    }
    false
}

/// Returns whether a packet has an attribute of a kind with a salted string, of whatever size, or a Vendor-Specific
/// whose sub-attributes are well formed and hold one (`SALTED_KINDS`).
pub fn salted(view: &View<'_>) -> bool
    ensures salted { IsTrue result ↔ IsSalted view.now }
    ensures test { result ≡ is_salted view.now.attributes }
{
    has_salted(view)
}
