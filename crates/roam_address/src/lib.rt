//! Addresses of both kinds, IPv4 and IPv6, with endpoints and prefixes, and their texts.
//!
//! Nothing here opens a socket. Addresses are std's.
//!
//! # Proved
//!
//! - what a text states is read, and nothing else, of an address of either kind, an endpoint and a prefix; an IPv6
//!   address that stands for one of IPv4 is none | `Address::from_text`, `Endpoint::from_text`, `Prefix::from_text`
//! - an IPv6 address has one text, that of RFC 5952 | the law `ipv6_text_is_canonical`
//! - what is printed is read back, and equal texts are of equal addresses | laws `address_is_read_back`,
//!   `equal_texts_are_of_equal_addresses`, `endpoint_is_read_back`, `prefix_is_read_back`
//! - an address finds the longest prefix that has it; two equal prefixes are told | `PrefixIndex::longest`,
//!   `PrefixIndex::new`
#![tactic(auto)]

mod address;
mod decimals;
mod endpoint;
mod host;
mod laws;
mod leading;
mod prefix;
mod prefix_index;

pub use address::Address;
pub use decimals::decimal;
pub use endpoint::Endpoint;
pub use laws::{
    address_is_read_back, endpoint_is_read_back, equal_texts_are_of_equal_addresses,
    ipv6_text_is_canonical, prefix_is_read_back,
};
pub use leading::Leading;
pub use prefix::Prefix;
pub use prefix_index::PrefixIndex;
