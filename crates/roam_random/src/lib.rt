//! Hashes that are keyed: who picks what a map holds doesn't know where it lies there.
//!
//! Nothing here reads a socket or a clock, takes memory or draws anything: the key is given.
//!
//! The random words of a realm (RFC 2865, section 3: the Request Authenticator of an
//! Access-Request).
//!
//! A word is a function of the seed, the stream's number and a position in the stream, so whoever
//! draws words keeps that position. Words that are kept save work, and change no answer.
//!
//! # Proved
//!
//! - a hash is SipHash of the key's octets and then of what is hashed | `HashKey::new`, `HashKey::hash_of`
//! - random words are those of ChaCha20 by seed, stream and position | `request_authenticator`,
//!   `KeptWords::request_authenticator`, `next_position`; laws
#![tactic(auto)]

mod hash_key;
mod kept_words;
mod laws;
mod words;

pub use hash_key::HashKey;
pub use kept_words::KeptWords;
pub use laws::{
    authenticators_have_16_octets, next_positions_are_in_the_stream,
    positions_count_modulo_the_stream,
};
pub use words::{next_position, request_authenticator};
