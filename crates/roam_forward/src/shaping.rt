//! The changes that a peer and a realm make to a request.

ghost use Rattle.std.specs.Prelude.{◌≡◌};
ghost use Rattle.roam_forward.specs.Shaped.{no_shaping, shown_shaping};

use crate::{Removal, nothing_removed};

/// The changes that a peer and a realm have made to a request that is forwarded.
#[derive(Clone, Copy)]
pub struct Shaping<'a> {
    /// The attributes that don't pass.
    pub removal: Removal<'a>,
    /// The value of the Operator-Name that is added (RFC 5580, section 4.1): at most 253 octets.
    pub operator_name: Option<&'a [u8]>,
    /// True where a Chargeable-User-Identity is asked for (RFC 4372, section 2.1).
    pub ask_cui: bool,
}

/// Makes the shaping that does nothing to a request.
pub fn no_shaping() -> Shaping<'static>
    ensures { shown_shaping result ≡ no_shaping }
{
    Shaping {
        removal: nothing_removed(),
        operator_name: None,
        ask_cui: false,
    }
}
