//! The crates below the broker by example, those whose calls no row makes: addresses, packets as octets, Identifiers,
//! random words, digests, seals and hidden passwords; how many entries in shared tables a call looks at; ports that
//! fail; and ledgers, as octets and as a file.
#![tactic(auto)]

#[cfg(test)]
mod address_tests;
#[cfg(test)]
mod auth_tests;
#[cfg(test)]
mod endpoint_tests;
#[cfg(test)]
mod examples;
#[cfg(test)]
mod hide_tests;
#[cfg(test)]
mod ids_tests;
#[cfg(test)]
mod index_tests;
#[cfg(test)]
mod keeping_tests;
#[cfg(test)]
mod ledger_tests;
#[cfg(test)]
mod listening_tests;
#[cfg(test)]
mod md5_tests;
#[cfg(test)]
mod prefix_tests;
#[cfg(test)]
mod random_tests;
#[cfg(test)]
mod round_tests;
#[cfg(test)]
mod sending_tests;
#[cfg(test)]
mod sockets_tests;
#[cfg(test)]
mod tape;
#[cfg(test)]
mod wire_tests;
