//! Laws of the texts.

ghost use Rattle.std.specs.Prelude.{◌≡◌, ◌≤◌, Some, ⊤, IsSomeAnd};
ghost use Rattle.std.specs.Net.Addr.{ipv6_segments, MatchIp};
ghost use Rattle.roam_address.specs.Addresses.{ip_of, IsMapped, IsAddressText, address_text};
ghost use Rattle.roam_address.specs.Canonical.{IsCanonicalText};
ghost use Rattle.roam_address.specs.Endpoints.{IsEndpointText, endpoint_text};
ghost use Rattle.roam_address.specs.Prefixes.{IsPrefixText, prefix_text, network_of, length_of};
ghost use Rattle.roam_address.specs.Reading.{Reads};

use crate::{Address, Endpoint, Prefix};

/// Says that an IPv6 address is printed as its one text (RFC 5952, section 4).
pub fn ipv6_text_is_canonical(address: Address)
    ensures { MatchIp (ip_of address) (λ _. ⊤) (λ a. IsCanonicalText (ipv6_segments a) (address_text address)) }
{}

/// States that each reader of a printed address finds the address.
pub fn address_is_read_back(address: Address, read: Option<Address>)
    requires unmapped { ¬ (IsMapped (ip_of address)) }
    requires read { Reads IsAddressText (address_text address) read }
    ensures { read ≡ Some address }
{
    address.show_ranges();
}

/// States that two addresses with the same text are equal.
pub fn equal_texts_are_of_equal_addresses(one: Address, other: Address)
    requires { address_text one ≡ address_text other }
    ensures { one ≡ other }
{
    one.show_ranges();
    other.show_ranges();
}

/// States that each reader of a printed endpoint finds the endpoint.
pub fn endpoint_is_read_back(endpoint: Endpoint, read: Option<Endpoint>)
    requires unmapped { ¬ (IsMapped (ip_of endpoint.ip)) }
    requires port { 1 ≤ endpoint.port }
    requires read { Reads IsEndpointText (endpoint_text endpoint) read }
    ensures { read ≡ Some endpoint }
{
    endpoint.ip.show_ranges();
}

/// States that each reader of a printed prefix finds the prefix.
pub fn prefix_is_read_back(prefix: Prefix, read: Option<Prefix>)
    requires unmapped { ¬ (IsMapped (ip_of (network_of prefix))) }
    requires read { Reads IsPrefixText (prefix_text prefix) read }
    ensures { IsSomeAnd read (λ p. (network_of p ≡ network_of prefix) × (length_of p ≡ length_of prefix)) }
{
    prefix.network().show_ranges();
}
