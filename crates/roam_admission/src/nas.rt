//! The access server that a packet names (RFC 2865, sections 5.4 and 5.32).

ghost use Rattle.std.specs.Prelude.{◌≡◌, option_map};
ghost use Rattle.roam_admission.specs.UserName.{nas_of};

use roam_wire::View;
use roam_wire::attribute_type::{NAS_IDENTIFIER, NAS_IP_ADDRESS};

/// By what a packet names its access server.
#[derive(Clone, Copy, Debug, PartialEq, Eq)]
pub struct NasName<'a> {
    /// The Value of its first NAS-IP-Address (RFC 2865, section 5.4), of whatever size.
    pub ip_address: Option<&'a [u8]>,
    /// The Value of its first NAS-Identifier (RFC 2865, section 5.32).
    pub identifier: Option<&'a [u8]>,
}

/// Returns the access server that a packet names: its first NAS-IP-Address and its first NAS-Identifier. Takes no
/// memory; two passes over the attributes.
pub fn nas_of<'a>(view: &View<'a>) -> NasName<'a>
    ensures { (
      option_map (λ value. value.now) result.ip_address,
      option_map (λ value. value.now) result.identifier,
    ) ≡ nas_of view.now.attributes }
{
    NasName {
        ip_address: view.first(NAS_IP_ADDRESS),
        identifier: view.first(NAS_IDENTIFIER),
    }
}
