//! The attributes of a packet that pass.

ghost use Rattle.std.specs.Prelude.{◌≡◌, ◌≢◌, ◌+◌, ◌≤◌, ◌++◌, length, vec_len, vec_capacity};
ghost use Rattle.roam_wire.specs.Attributes.{count_of};
ghost use Rattle.roam_wire.specs.Packet.{IsPacket, attributes_text};
ghost use Rattle.roam_wire.specs.declared.attribute_type.TheConstants.{VENDOR_SPECIFIC};
ghost use Rattle.roam_forward.specs.Removal.{removed_by};
ghost use Rattle.roam_forward.specs.Without.{without};

use crate::passed::{append_passed, passed_len};
use crate::removal::{Removal, removes_kind, removes_nothing};
use roam_wire::View;
use roam_wire::writing::append_octets;
use std::alloc::Allocator;

/// Returns the octets of a packet's attributes.
fn all_octets<'a>(view: &View<'a>) -> &'a [u8]
    ensures text { result.now ≡ attributes_text view.now.attributes }
    ensures few { length result.now ≤ 4076 }
    ensures packet { IsPacket view.now }
{
    view.octets().split_at(20).1
}

/// Returns how many octets the attributes of a packet take that pass, where a list may name some. One pass over them.
fn passing_len(view: &View<'_>, removal: &Removal<'_>) -> usize
    ensures all { result
        ≡ length (attributes_text (without (removed_by removal.now) view.now.attributes)) }
    ensures few { result ≤ 4076 }
    ensures packet { IsPacket view.now }
{
    let mut size = 0;
    for attribute in view.attributes() {
        size += passed_len(&attribute, removal);
    }
    size
}

/// Returns how many octets the attributes of a packet take that pass. One pass over them, and none where no list names
/// any.
pub fn without_len(view: &View<'_>, removal: &Removal<'_>) -> usize
    ensures all { result
        ≡ length (attributes_text (without (removed_by removal.now) view.now.attributes)) }
    ensures few { result ≤ 4076 }
    ensures packet { IsPacket view.now }
{
    if removes_nothing(removal) {
        all_octets(view).len()
    } else {
        passing_len(view, removal)
    }
}

/// Appends the attributes of a packet that pass, in their order, where a list may name some. One pass over them.
fn append_passing<A: Allocator>(out: &mut Vec<u8, A>, view: &View<'_>, removal: &Removal<'_>)
    requires { vec_len out.old
        + length (attributes_text (without (removed_by removal.now) view.now.attributes))
        ≤ vec_capacity out.old }
    ensures items { out.new.items ≡ out.old.items
        ++ attributes_text (without (removed_by removal.now) view.now.attributes) }
    ensures capacity { vec_capacity out.new ≡ vec_capacity out.old }
{
    for attribute in view.attributes() {
        append_passed(out, attribute, removal);
    }
}

/// Appends the attributes of a packet that pass, in their order. One pass over them, or where no list names any over
/// their octets.
pub fn append_without<A: Allocator>(out: &mut Vec<u8, A>, view: &View<'_>, removal: &Removal<'_>)
    requires { vec_len out.old
        + length (attributes_text (without (removed_by removal.now) view.now.attributes))
        ≤ vec_capacity out.old }
    ensures items { out.new.items ≡ out.old.items
        ++ attributes_text (without (removed_by removal.now) view.now.attributes) }
    ensures capacity { vec_capacity out.new ≡ vec_capacity out.old }
{
    if removes_nothing(removal) {
        append_octets(out, all_octets(view));
    } else {
        append_passing(out, view, removal);
    }
}

/// Returns how many attributes of a Type pass; not of Vendor-Specific.
pub fn count_without(view: &View<'_>, removal: &Removal<'_>, kind: u8) -> usize
    requires { kind ≢ VENDOR_SPECIFIC }
    ensures { result ≡ count_of kind (without (removed_by removal.now) view.now.attributes) }
{
    if removes_kind(removal, kind) {
        0
    } else {
        view.count(kind)
    }
}
