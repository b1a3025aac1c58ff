//! From one attribute to the next.

ghost use Rattle.std.specs.Prelude.{◌≡◌, ◌↔◌, IsTrue, IsSome, option_map};
ghost use Rattle.roam_wire.specs.Reading.{attribute_at, attributes_of};

use crate::attributes::Attr;

/// Splits octets into the attribute at the front and the octets behind it. Returns `None` where its Length is below 2
/// or passes the end.
pub fn split_attribute(octets: &[u8]) -> Option<(Attr<'_>, &[u8])>
    ensures { option_map (λ x. (record { kind = x.0.kind; value = x.0.value.now }, x.1.now)) result
        ≡ attribute_at octets.now }
{
    let [kind, length, rest @ ..] = octets else {
        return None;
    };
    let length = usize::from(*length);
    if length < 2 || rest.len() < length - 2 {
        return None;
    }
    let (value, rest) = rest.split_at(length - 2);
    Some((Attr { kind: *kind, value }, rest))
}

/// Returns whether the octets are attributes, one behind another.
pub fn are_attributes(octets: &[u8]) -> bool
    ensures { IsTrue result ↔ IsSome (attributes_of octets.now) }
{
    let mut rest = octets;
    while !rest.is_empty() {
        match split_attribute(rest) {
            Some((_, behind)) => rest = behind,
            None => return false,
        }
    }
    true
}
