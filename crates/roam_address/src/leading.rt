//! The leftmost bits of an address.

ghost use Rattle.std.specs.Prelude.{◌≡◌, ◌/◌, ◌%◌, ◌≤◌, ◌^◌, ◌↔◌, IsTrue};

use crate::Address;

/// The leftmost bits of an address, as a key: equal just where kind, length and bits are.
#[derive(Clone, Copy, Debug, PartialEq, Eq, Hash)]
pub struct Leading {
    pub is_ipv6: bool,
    /// The number of bits.
    pub length: u8,
    /// The number that they are, the most significant first.
    pub bits: u128,
}

/// Returns a number without its lowest `places` bits.
fn above(number: u128, places: u8) -> u128
    requires { places ≤ 128 }
    ensures { result ≡ number / 2 ^ places }
{
    if places == 128 { 0 } else { number >> places }
}

/// Returns whether a number's lowest bits, so many of them, are zero.
fn is_zero_below(number: u128, places: u8) -> bool
    requires { places ≤ 128 }
    ensures { IsTrue result ↔ (number % 2 ^ places ≡ 0) }
{
    if places == 128 {
        number == 0
    } else {
        number % (1 << places) == 0
    }
}

impl Leading {
    ghost use Rattle.std.specs.Prelude.{◌-◌};
    ghost use Rattle.roam_address.specs.Addresses.{ip_of};
    ghost use Rattle.roam_address.specs.Bits.{width, number, leading};

    /// Returns the leftmost `length` bits of an address.
    pub fn of(address: Address, length: u8) -> Leading
        requires { length ≤ width (ip_of address) }
        ensures { result ≡ leading length (ip_of address) }
    {
        Leading {
            is_ipv6: address.is_ipv6(),
            length,
            bits: above(address.number(), address.width() - length),
        }
    }

    /// Returns whether all bits of an address behind the leftmost ones are zero.
    pub(crate) fn is_all(address: Address, length: u8) -> bool
        requires { length ≤ width (ip_of address) }
        ensures { IsTrue result ↔ (number (ip_of address) % 2 ^ (width (ip_of address) - length) ≡ 0) }
    {
        is_zero_below(address.number(), address.width() - length)
    }
}
