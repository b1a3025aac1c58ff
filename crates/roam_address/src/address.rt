//! An address of either kind.

ghost use Rattle.std.specs.Prelude.{Some};
ghost use Rattle.roam_address.specs.Addresses.{address_text};

use std::fmt;
use std::fmt::{Display, Formatter, Write};
use std::net::{IpAddr, Ipv4Addr};

/// An IPv4 address (RFC 791), or an IPv6 address (RFC 4291) that isn't one of `::ffff:0:0/96`, which stand for IPv4.
///
/// Two are equal just where their kinds and bits are, whatever text they were read from. There is no zone.
#[derive(Clone, Copy, Debug, PartialEq, Eq, Hash)]
pub struct Address {
    ip: IpAddr,
}

impl Address {
    ghost use Rattle.std.specs.Prelude.{◌≡◌, ◌<◌, ◌≤◌, ◌^◌, MatchOption};
    ghost use Rattle.std.specs.Net.Addr.{ipv4_octets, IsV4And, is_ipv6};
    ghost use Rattle.roam_address.specs.Addresses.{ip_of, ipv4_octets_in, ipv6_octets_in, IsMapped, IsRanged, IsAddressText};
    ghost use Rattle.roam_address.specs.Bits.{width, number};
    ghost use Rattle.roam_address.specs.Reading.{Reads};
    ghost use Rattle.roam_address.specs.Texts.{address_in};

    /// `0.0.0.0`.
    pub const UNSPECIFIED: Address = Address {
        ip: IpAddr::V4(Ipv4Addr::UNSPECIFIED),
    };

    /// `127.0.0.1`.
    pub const LOCALHOST: Address = Address {
        ip: IpAddr::V4(Ipv4Addr::LOCALHOST),
    };

    /// Makes the address `ip`. Returns `None` where `ip` is an IPv6 address that is mapped from an IPv4 address.
    pub fn new(ip: IpAddr) -> Option<Address>
        ensures { MatchOption result (IsMapped ip) (λ a. (ip_of a ≡ ip) × (¬ (IsMapped ip))) }
    {
        match ip {
            IpAddr::V6(inner) => match inner.to_ipv4_mapped() {
                Some(_) => None,
                None => Some(Address { ip }),
            },
            IpAddr::V4(_) => Some(Address { ip }),
        }
    }

    /// Makes the IPv4 address of these octets.
    pub fn from_ipv4_octets(octets: [u8; 4]) -> Address
        ensures { IsV4And (ip_of result) (λ a. ipv4_octets a ≡ octets) }
    {
        Address {
            ip: IpAddr::V4(Ipv4Addr::from_octets(octets)),
        }
    }

    /// Reads the address that a text states: four decimal numbers joined by dots, or any form of RFC 4291, section
    /// 2.2.
    pub fn from_text(text: &str) -> Option<Address>
        ensures states { Reads IsAddressText text.now result }
        ensures value { result ≡ address_in text.now }
    {
        match text.parse::<IpAddr>() {
            Ok(ip) => Address::new(ip),
            Err(_) => None,
        }
    }

    /// Returns the address as the system takes it.
    pub fn ip(self) -> IpAddr
        ensures { result ≡ ip_of self }
    {
        self.ip
    }

    /// Returns whether it is an IPv6 address.
    pub fn is_ipv6(self) -> bool
        ensures { result ≡ is_ipv6 (ip_of self) }
    {
        self.ip.is_ipv6()
    }

    /// Returns the address's octets, where it is an IPv4 address.
    pub fn ipv4_octets(self) -> Option<[u8; 4]>
        ensures { result ≡ ipv4_octets_in (ip_of self) }
    {
        match self.ip {
            IpAddr::V4(ip) => Some(ip.octets()),
            IpAddr::V6(_) => None,
        }
    }

    /// Returns the address's octets, where it is an IPv6 address.
    pub fn ipv6_octets(self) -> Option<[u8; 16]>
        ensures { result ≡ ipv6_octets_in (ip_of self) }
    {
        match self.ip {
            IpAddr::V4(_) => None,
            IpAddr::V6(ip) => Some(ip.octets()),
        }
    }

    /// Returns how many bits it has.
    pub fn width(self) -> u8
        ensures value { result ≡ width (ip_of self) }
        ensures small { result ≤ 128 }
    {
        match self.ip {
            IpAddr::V4(_) => 32,
            IpAddr::V6(_) => 128,
        }
    }

    /// Does nothing: the numbers of an address are in their ranges.
    pub(crate) fn show_ranges(self)
        ensures { IsRanged (ip_of self) }
    {
        match self.ip {
            IpAddr::V4(ip) => {
                let _octets = ip.octets();
            }
            IpAddr::V6(ip) => {
                let _groups = ip.segments();
            }
        }
    }

    /// Returns the number that the address's octets are, the most significant octet first.
    pub fn number(self) -> u128
        ensures value { result ≡ number (ip_of self) }
        ensures below { result < 2 ^ width (ip_of self) }
    {
        match self.ip {
            IpAddr::V4(ip) => ip.to_bits() as u128,
            IpAddr::V6(ip) => ip.to_bits(),
        }
    }
}

impl Display for Address {
    ghost output = { λ address. Some (address_text address) };

    /// Prints four decimal numbers, or the form of RFC 5952, section 4, with hexadecimal digits only.
    fn fmt<W: Write>(&self, f: &mut Formatter<W>) -> fmt::Result {
        match self.ip {
            IpAddr::V4(ip) => write!(f, "{ip}"),
            IpAddr::V6(ip) => {
                let groups = ip.hex_groups();
                write!(f, "{groups}")
            }
        }
    }
}
