//! The part of an attribute that passes.

ghost use Rattle.std.specs.Prelude.{◌≡◌, ◌+◌, ◌≤◌, ◌++◌, length, take, drop, vec_len, vec_capacity};
ghost use Rattle.roam_wire.specs.Packet.{attributes_text};
ghost use Rattle.roam_wire.specs.Shown.{shown};
ghost use Rattle.roam_forward.specs.Removal.{removed_by};
ghost use Rattle.roam_forward.specs.Without.{parts_of, passed};

use crate::passing::{Passing, how_passed, vendor_of};
use crate::removal::Removal;
use crate::sub_attributes::{append_left, left_len};
use roam_wire::Attr;
use roam_wire::attribute_type::VENDOR_SPECIFIC;
use roam_wire::writing::{append_attribute, append_octets};
use std::alloc::Allocator;

/// Returns the octets behind a vendor.
fn behind_vendor(value: &[u8]) -> &[u8]
    requires { 4 ≤ length value.now }
    ensures { result.now ≡ drop 4 value.now }
{
    value.split_at(4).1
}

/// Returns a vendor's octets.
fn vendor_octets(value: &[u8]) -> &[u8]
    requires { 4 ≤ length value.now }
    ensures { result.now ≡ take 4 value.now }
{
    value.split_at(4).0
}

/// Returns how many octets a Vendor-Specific takes without the sub-attributes that are named.
fn parts_len(value: &[u8], removal: &Removal<'_>) -> usize
    requires vendor { 4 ≤ length value.now }
    requires short { length value.now ≤ 253 }
    ensures all { result ≡ length (attributes_text (parts_of (removed_by removal.now) value.now)) }
    ensures few { result ≤ length value.now + 2 }
{
    let left = left_len(behind_vendor(value), removal, vendor_of(value));
    if left == 0 { 0 } else { 6 + left }
}

/// Returns how many octets what passes of an attribute takes, its Type and its Length among them.
pub fn passed_len(attribute: &Attr<'_>, removal: &Removal<'_>) -> usize
    requires { length attribute.now.value.now ≤ 253 }
    ensures all { result
        ≡ length (attributes_text (passed (removed_by removal.now) (shown attribute.now))) }
    ensures few { result ≤ length attribute.now.value.now + 2 }
{
    match how_passed(attribute, removal) {
        Passing::Nothing => 0,
        Passing::Whole => 2 + attribute.value.len(),
        Passing::Parts => parts_len(attribute.value, removal),
    }
}

/// Appends a Vendor-Specific without the sub-attributes that are named.
fn append_parts<A: Allocator>(out: &mut Vec<u8, A>, value: &[u8], removal: &Removal<'_>)
    requires vendor { 4 ≤ length value.now }
    requires short { length value.now ≤ 253 }
    requires room { vec_len out.old + length (attributes_text (parts_of (removed_by removal.now) value.now))
        ≤ vec_capacity out.old }
    ensures items { out.new.items
        ≡ out.old.items ++ attributes_text (parts_of (removed_by removal.now) value.now) }
    ensures capacity { vec_capacity out.new ≡ vec_capacity out.old }
{
    let subs = behind_vendor(value);
    let vendor = vendor_of(value);
    let left = left_len(subs, removal, vendor);
    if left > 0 {
        append_octets(out, &[VENDOR_SPECIFIC, left as u8 + 6]);
        append_octets(out, vendor_octets(value));
        append_left(out, subs, removal, vendor);
    }
}

/// Appends what passes of an attribute.
pub fn append_passed<A: Allocator>(out: &mut Vec<u8, A>, attribute: Attr<'_>, removal: &Removal<'_>)
    requires short { length attribute.value.now ≤ 253 }
    requires room { vec_len out.old
        + length (attributes_text (passed (removed_by removal.now) (shown attribute)))
        ≤ vec_capacity out.old }
    ensures items { out.new.items ≡ out.old.items
        ++ attributes_text (passed (removed_by removal.now) (shown attribute.entry)) }
    ensures capacity { vec_capacity out.new ≡ vec_capacity out.old }
{
    match how_passed(&attribute, removal) {
        Passing::Nothing => {}
        Passing::Whole => append_attribute(out, attribute),
        Passing::Parts => append_parts(out, attribute.value, removal),
    }
}
