//! The hidden values of a whole packet, hidden anew in its octets (RFC 2865, section 2.3).

ghost use Rattle.std.specs.Prelude.{◌≡◌, ◌+◌, ◌≤◌, List, ◌++◌, length, take, drop, map};
ghost use Rattle.std.specs.List.{AllByRecursion};
ghost use Rattle.roam_wire.specs.Packet.{Attribute, attributes_text, packet_text};
ghost use Rattle.roam_wire.specs.Reading.{IsPacketText, packet_of};
ghost use Rattle.roam_wire.specs.declared.attribute_type.TheConstants.{USER_PASSWORD};
ghost use Rattle.roam_crypto.specs.HidingKeys.{password_key};
ghost use Rattle.roam_crypto.specs.PacketAnew.{attribute_in, attribute_anew, packet_anew, CanBeHiddenAnew};

use crate::by_salting::rehide_by;
use crate::hiding_key::HidingKey;
use crate::password::rehide_password;
use crate::salted_kinds::salting_of;
use crate::vendor_specific::rehide_vendor;
use roam_wire::attribute_type::{USER_PASSWORD, VENDOR_SPECIFIC};
use std::ops::Range;

/// The values of a packet that are hidden anew.
#[derive(Clone, Copy)]
pub enum Hidden {
    /// An Access-Request's User-Password (RFC 2865, section 5.2).
    UserPassword,
    /// An Access-Accept's salted strings, by `SALTED_KINDS` (RFC 2868, section 3.5; RFC 2548, section 2.4).
    SaltedStrings,
}

/// Hides the value of an attribute of this Type anew, in place.
fn rehide_value_of(
    kind: u8,
    value: &mut [u8],
    hidden: Hidden,
    from: HidingKey<'_>,
    to: HidingKey<'_>,
)
    requires { CanBeHiddenAnew hidden (record { kind = kind; value = value.old }) }
    ensures { value.new ≡ (attribute_anew hidden (password_key from.entry) (password_key to.entry)
        (record { kind = kind; value = value.old })).value }
{
    match hidden {
        Hidden::UserPassword => {
            if kind == USER_PASSWORD {
                rehide_password(value, from, to);
            }
        }
        Hidden::SaltedStrings => {
            if kind == VENDOR_SPECIFIC {
                rehide_vendor(value, from, to);
            } else {
                rehide_by(salting_of(None, kind), value, from, to);
            }
        }
    }
}

/// Hides the value of the attribute that stands in this range of the octets anew, in place.
fn rehide_attribute(
    octets: &mut [u8],
    place: Range<usize>,
    hidden: Hidden,
    from: HidingKey<'_>,
    to: HidingKey<'_>,
)
    requires in_order { place.start + 2 ≤ place.end }
    requires inside { place.end ≤ length octets.old }
    requires can_be { CanBeHiddenAnew hidden (attribute_in octets.old place.start place.end) }
    ensures { octets.new ≡ take (place.start + 2) octets.old
        ++ ((attribute_anew hidden (password_key from.entry) (password_key to.entry)
        (attribute_in octets.old place.start place.end)).value ++ drop place.end octets.old) }
{
    let kind = octets[place.start];
    rehide_value_of(
        kind,
        &mut octets[place.start + 2..place.end],
        hidden,
        from,
        to,
    );
}

/// Hides the values of attributes anew, in place: one behind another.
fn rehide_attributes(octets: &mut [u8], hidden: Hidden, from: HidingKey<'_>, to: HidingKey<'_>)
    requires { (all : List Attribute) × (octets.old ≡ attributes_text all)
        × AllByRecursion (CanBeHiddenAnew hidden) all }
    ensures { (all : List Attribute) → octets.old ≡ attributes_text all
        → AllByRecursion (CanBeHiddenAnew hidden) all
        → octets.new ≡ attributes_text
        (map (attribute_anew hidden (password_key from.entry) (password_key to.entry)) all) }
{
    let mut at = 0;
    while at < octets.len() {
        let end = at + usize::from(octets[at + 1]);
        rehide_attribute(octets, at..end, hidden, from, to);
        at = end;
    }
}

/// Hides the User-Passwords of an Access-Request, or the salted strings of an Access-Accept, anew in
/// its octets (RFC 2865, section 2.3). All else stays.
pub fn rehide_packet(octets: &mut [u8], hidden: Hidden, from: HidingKey<'_>, to: HidingKey<'_>)
    requires packet { IsPacketText octets.old }
    requires can_be { AllByRecursion (CanBeHiddenAnew hidden) (packet_of octets.old).attributes }
    ensures { octets.new ≡ packet_text
        (packet_anew hidden (password_key from.entry) (password_key to.entry) (packet_of octets.old)) }
{
    rehide_attributes(&mut octets[20..], hidden, from, to);
}
