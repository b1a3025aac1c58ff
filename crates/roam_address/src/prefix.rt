//! A prefix: the addresses whose leftmost bits are the same.

ghost use Rattle.std.specs.Prelude.{◌≡◌, ◌-◌, ◌%◌, ◌≤◌, ◌^◌, Some};
ghost use Rattle.roam_address.specs.Addresses.{ip_of};
ghost use Rattle.roam_address.specs.Bits.{width, number};

use crate::decimals::decimal;
use crate::{Address, Leading};
use std::fmt;
use std::fmt::{Display, Formatter, Write};

/// The addresses of one kind that have so many leftmost bits of `network` (RFC 4632, section 3.1; RFC 4291, section
/// 2.3). Its other bits are zero.
#[derive(Clone, Copy, Debug, PartialEq, Eq)]
pub struct Prefix {
    network: Address,
    length: u8,
    ghost fits: { length ≤ width (ip_of network) },
    ghost zero_below: { number (ip_of network) % 2 ^ (width (ip_of network) - length) ≡ 0 },
}

impl Prefix {
    ghost use Rattle.std.specs.Prelude.{◌⊎◌, ◌<◌, ◌↔◌, IsTrue, MatchOption, None, option_map};
    ghost use Rattle.roam_address.specs.Addresses.{IsAddressText};
    ghost use Rattle.roam_address.specs.Bits.{leading};
    ghost use Rattle.roam_address.specs.Prefixes.{network_of, length_of, leading_of, IsIn, IsPrefixText, HasBitBelow, shown_prefix};
    ghost use Rattle.roam_address.specs.Reading.{Reads};
    ghost use Rattle.roam_address.specs.Same.{is_in};
    ghost use Rattle.roam_address.specs.Texts.{prefix_in};

    /// Makes the prefix of this network and length. Returns `None` where the address has fewer bits, or where a bit
    /// behind them isn't zero.
    pub fn new(network: Address, length: u8) -> Option<Prefix>
        ensures { MatchOption result
            ((width (ip_of network) < length) ⊎ HasBitBelow network length)
            (λ p. (network_of p ≡ network) × (length_of p ≡ length)) }
    {
        if length > network.width() || !Leading::is_all(network, length) {
            return None;
        }
        Some(Prefix { network, length })
    }

    /// Makes the prefix that has only this address.
    pub fn of(address: Address) -> Prefix
        ensures network { network_of result ≡ address }
        ensures all { length_of result ≡ width (ip_of address) }
    {
        Prefix {
            network: address,
            length: address.width(),
        }
    }

    /// Returns what a text states that isn't an address alone, cut at its last slash.
    fn read_part(text: &str) -> Option<Prefix>
        requires { Reads IsAddressText text.now None }
        ensures { Reads IsPrefixText text.now result }
    {
        match text.rsplit_once('/') {
            Some((address, digits)) => match Address::from_text(address) {
                Some(network) => match decimal(digits, 0, network.width() as u64) {
                    Some(length) => Prefix::new(network, length as u8),
                    None => None,
                },
                None => None,
            },
            None => None,
        }
    }

    /// Returns what a text states.
    fn read(text: &str) -> Option<Prefix>
        ensures { Reads IsPrefixText text.now result }
    {
        match Address::from_text(text) {
            Some(address) => Some(Prefix::of(address)),
            None => Prefix::read_part(text),
        }
    }

    /// Reads the prefix that a text states: an address, or an address, `/` and a number of bits without leading
    /// zeros, where the bits behind them are zero.
    pub fn from_text(text: &str) -> Option<Prefix>
        ensures states { Reads IsPrefixText text.now result }
        ensures value { option_map shown_prefix result ≡ prefix_in text.now }
    {
        Prefix::read(text)
    }

    /// Returns the address whose leftmost bits count.
    pub fn network(self) -> Address
        ensures { result ≡ network_of self }
    {
        self.network
    }

    /// Returns how many bits count.
    pub fn length(self) -> u8
        ensures { result ≡ length_of self }
    {
        self.length
    }

    /// Returns the bits that count, as a key.
    pub fn leading(self) -> Leading
        ensures { result ≡ leading_of self }
    {
        Leading::of(self.network, self.length)
    }

    /// Returns whether an address is in it.
    #[tactic(auto, using(crate::proofs::SameLemmas::kinds_apart))]
    pub fn has(self, address: Address) -> bool
        ensures states { IsTrue result ↔ IsIn self address }
        ensures value { result ≡ is_in address (shown_prefix self) }
    {
        address.is_ipv6() == self.network.is_ipv6()
            && Leading::of(address, self.length) == self.leading()
    }
}

impl Display for Prefix {
    ghost use Rattle.roam_address.specs.Prefixes.{prefix_text};

    ghost output = { λ prefix. Some (prefix_text prefix) };

    /// Prints the address, and how many of its bits count, where not all of them do.
    fn fmt<W: Write>(&self, f: &mut Formatter<W>) -> fmt::Result {
        let network = self.network;
        let length = self.length;
        if length == network.width() {
            write!(f, "{network}")
        } else {
            write!(f, "{network}/{length}")
        }
    }
}
