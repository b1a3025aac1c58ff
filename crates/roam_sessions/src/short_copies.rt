//! Short octets of a packet, and their copies.

ghost use Rattle.std.specs.Prelude.{◌≡◌, option_map};
ghost use Rattle.roam_wire.specs.Attributes.{first_value};
ghost use Rattle.roam_sessions.specs.Short.{shown_short, short_octets};

use crate::short::{Short, ShortArray};
use roam_wire::View;

/// Returns the Value of a packet's first attribute of a Type, if there is one.
pub(crate) fn first_short<'a>(request: &View<'a>, kind: u8) -> Option<Short<'a>>
    ensures { option_map shown_short result ≡ first_value kind request.now.attributes }
{
    // They are all short, since each is an attribute's of a packet.
    let _attributes = request.attributes();
    let Some(octets) = request.first(kind) else {
        return None;
    };
    Some(Short { octets })
}

impl ShortArray {
    /// Makes a copy. Takes no memory.
    pub(crate) fn copy_of(short: Short<'_>) -> ShortArray
        ensures { short_octets result ≡ shown_short short.entry }
    {
        let len = short.octets.len();
        let mut octets = [0; 253];
        octets[..len].copy_from_slice(short.octets);
        ShortArray { octets, len }
    }

    /// Returns where they lie.
    pub(crate) fn lend(&self) -> Short<'_>
        ensures { shown_short result ≡ short_octets self.now }
    {
        Short {
            octets: &self.octets[..self.len],
        }
    }
}
