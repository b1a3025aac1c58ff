//! The sub-attributes of a Vendor-Specific (RFC 2865, section 5.26): Type, Length, Value, one
//! behind another.

ghost use Rattle.std.specs.Prelude.{◌≡◌, ◌+◌, ◌≤◌, false, List, ◌++◌, length, take, drop, map};
ghost use Rattle.std.specs.List.{list_any};
ghost use Rattle.std.specs.Option.{option_map_or};
ghost use Rattle.roam_wire.specs.Packet.{Attribute, attributes_text};
ghost use Rattle.roam_wire.specs.Reading.{attributes_of};
ghost use Rattle.roam_wire.specs.Shown.{shown};
ghost use Rattle.roam_crypto.specs.HidingKeys.{password_key};
ghost use Rattle.roam_crypto.specs.PacketAnew.{attribute_in};
ghost use Rattle.roam_crypto.specs.Salted.{is_salted_sub};
ghost use Rattle.roam_crypto.specs.SaltedFunctions.{sub_attribute_anew};

use crate::by_salting::rehide_by;
use crate::hiding_key::HidingKey;
use crate::salted_kinds::salting_of;
use roam_wire::{Attr, Attrs};
use std::ops::Range;

/// Returns whether a vendor's sub-attribute has a salted string.
fn is_salted_sub(sub: &Attr<'_>, vendor: u32) -> bool
    ensures { result ≡ is_salted_sub vendor (shown sub.now) }
{
    salting_of(Some(vendor), sub.kind).is_some()
}

/// Returns whether the octets are a vendor's sub-attributes, one of them with a salted string.
pub(crate) fn any_salted(octets: &[u8], vendor: u32) -> bool
    ensures { result ≡ option_map_or (list_any (is_salted_sub vendor)) (attributes_of octets.now) false }
{
    if let Some(subs) = Attrs::read(octets) {
        for sub in subs {
            if is_salted_sub(&sub, vendor) {
                return true;
            }
        }
    }
    false
}

/// Hides the value of the sub-attribute that stands in this range of the octets anew, in place.
fn rehide_sub_attribute(
    octets: &mut [u8],
    place: Range<usize>,
    vendor: u32,
    from: HidingKey<'_>,
    to: HidingKey<'_>,
)
    requires in_order { place.start + 2 ≤ place.end }
    requires inside { place.end ≤ length octets.old }
    ensures { octets.new ≡ take (place.start + 2) octets.old
        ++ ((sub_attribute_anew (password_key from.entry) (password_key to.entry) vendor
        (attribute_in octets.old place.start place.end)).value ++ drop place.end octets.old) }
{
    let salting = salting_of(Some(vendor), octets[place.start]);
    rehide_by(salting, &mut octets[place.start + 2..place.end], from, to);
}

/// Hides the salted strings of a vendor's sub-attributes anew, in place.
pub(crate) fn rehide_subs(octets: &mut [u8], vendor: u32, from: HidingKey<'_>, to: HidingKey<'_>)
    requires { (subs : List Attribute) × (octets.old ≡ attributes_text subs) }
    ensures { (subs : List Attribute) → octets.old ≡ attributes_text subs
        → octets.new ≡ attributes_text
        (map (sub_attribute_anew (password_key from.entry) (password_key to.entry) vendor) subs) }
{
    let mut at = 0;
    while at < octets.len() {
        let end = at + usize::from(octets[at + 1]);
        rehide_sub_attribute(octets, at..end, vendor, from, to);
        at = end;
    }
}
