//! Attributes that are looked at where they lie (RFC 2865, section 5).

ghost use Rattle.std.specs.Prelude.{◌≡◌, IsSome, Some};
ghost use Rattle.roam_wire.specs.Reading.{attributes_of};

use crate::attribute_grammar::{are_attributes, split_attribute};
use std::marker::Model;

/// An attribute of a packet, looked at where it lies (RFC 2865, section 5).
#[derive(Clone, Copy, PartialEq, Eq)]
pub struct Attr<'a> {
    /// The attribute's Type.
    pub kind: u8,
    /// The attribute's Value: 0 to 253 octets.
    pub value: &'a [u8],
}

/// An iterator over the attributes of a packet, in their order. Contracts see the list of those that
/// are left.
#[derive(Drop)]
pub struct Attrs<'a> {
    rest: &'a [u8],
}

impl<'a> Model for Attrs<'a> {
    ghost use Rattle.std.specs.Prelude.{List, [], unwrap_or, IsSome};
    ghost use Rattle.roam_wire.specs.Packet.{Attribute};
    ghost use Rattle.roam_wire.specs.Reading.{attributes_of};

    ghost Value = { List Attribute };

    ghost view = { λ a. unwrap_or (attributes_of a.rest.now) [] };

    ghost invariant = { λ a. IsSome (attributes_of a.rest.now) };
}

impl<'a> Attrs<'a> {
    /// Reads octets as attributes, such as the sub-attributes of a Vendor-Specific (RFC 2865, section 5.26). Returns
    /// `None` where a Length is missing, below 2 or past the end. Takes one pass.
    pub fn read(octets: &'a [u8]) -> Option<Attrs<'a>>
        ensures { result ≡ attributes_of octets.entry.now }
    {
        if are_attributes(octets) {
            Some(Attrs::over(octets))
        } else {
            None
        }
    }

    /// Returns the attributes that these octets are.
    pub(crate) fn over(rest: &'a [u8]) -> Attrs<'a>
        requires { IsSome (attributes_of rest.now) }
        ensures { Some result ≡ attributes_of rest.entry.now }
    {
        Attrs { rest }
    }
}

impl<'a> Iterator for Attrs<'a> {
    ghost use Rattle.std.specs.Iterator.{YieldsFirstBy, item_count};
    ghost use Rattle.roam_wire.specs.Shown.{shown};

    type Item = Attr<'a>;

    ghost next_gives = { YieldsFirstBy shown (λ s. s) };

    ghost remaining = { item_count (λ s. s) };

    fn next(&mut self) -> Option<Attr<'a>> {
        let (first, rest) = split_attribute(self.rest)?;
        self.rest = rest;
        Some(first)
    }
}
