//! The sub-attributes of a Vendor-Specific (RFC 2865, section 5.26) that are left.

ghost use Rattle.std.specs.Prelude.{◌≡◌, ◌+◌, ◌≤◌, ◌++◌, length, vec_len, vec_capacity};
ghost use Rattle.roam_wire.specs.Reading.{attributes_of};
ghost use Rattle.roam_wire.specs.Shown.{shown};
ghost use Rattle.roam_forward.specs.Removal.{removed_by};
ghost use Rattle.roam_forward.specs.Without.{is_left, left_text};

use crate::removal::{Removal, removes_kind_of};
use roam_wire::writing::append_attribute;
use roam_wire::{Attr, Attrs};
use std::alloc::Allocator;

/// Returns whether a sub-attribute of a vendor isn't named.
fn is_left(sub: &Attr<'_>, removal: &Removal<'_>, vendor: u32) -> bool
    ensures { result ≡ is_left (removed_by removal.now) vendor (shown sub.now) }
{
    !removes_kind_of(removal, vendor, sub.kind)
}

/// Returns how many octets the sub-attributes take that are left, if the octets are sub-attributes.
pub(crate) fn left_len(octets: &[u8], removal: &Removal<'_>, vendor: u32) -> usize
    requires { length octets.now ≤ 253 }
    ensures all { result ≡ length (left_text (removed_by removal.now) vendor (attributes_of octets.now)) }
    ensures few { result ≤ length octets.now }
{
    let mut size = 0;
    if let Some(subs) = Attrs::read(octets) {
        for sub in subs {
            if is_left(&sub, removal, vendor) {
                size += 2 + sub.value.len();
            }
        }
    }
    size
}

/// Appends the sub-attributes that are left, if the octets are sub-attributes.
pub(crate) fn append_left<A: Allocator>(
    out: &mut Vec<u8, A>,
    octets: &[u8],
    removal: &Removal<'_>,
    vendor: u32,
)
    requires short { length octets.now ≤ 253 }
    requires room { vec_len out.old
        + length (left_text (removed_by removal.now) vendor (attributes_of octets.now))
        ≤ vec_capacity out.old }
    ensures items { out.new.items ≡ out.old.items
        ++ left_text (removed_by removal.now) vendor (attributes_of octets.now) }
    ensures capacity { vec_capacity out.new ≡ vec_capacity out.old }
{
    if let Some(subs) = Attrs::read(octets) {
        for sub in subs {
            if is_left(&sub, removal, vendor) {
                append_attribute(out, sub);
            }
        }
    }
}
