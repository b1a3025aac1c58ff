//! The host of an endpoint's text.

ghost use Rattle.roam_address.specs.Addresses.{IsHostText, IsTextOfKind};
ghost use Rattle.roam_address.specs.Reading.{Reads};

use crate::Address;

/// Reads a text that is an address and nothing else, if it is one of this kind.
fn address_of_kind(text: &str, is_ipv6: bool) -> Option<Address>
    ensures { Reads (IsTextOfKind is_ipv6) text.now result }
{
    match Address::from_text(text) {
        Some(address) => {
            if address.is_ipv6() == is_ipv6 {
                Some(address)
            } else {
                None
            }
        }
        None => None,
    }
}

/// Reads the address that stands in front of a port: an IPv6 address in brackets (RFC 3986, section 3.2.2), an IPv4
/// address without.
pub(crate) fn host(text: &str) -> Option<Address>
    ensures { Reads IsHostText text.now result }
{
    match text.strip_prefix('[') {
        Some(rest) => match rest.strip_suffix(']') {
            Some(inner) => address_of_kind(inner, true),
            None => None,
        },
        None => address_of_kind(text, false),
    }
}
