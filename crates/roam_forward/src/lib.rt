//! Attributes that don't pass between a peer and a realm, as their lists name them (RFC 2865, sections 5 and 5.26).
//!
//! Attributes are looked at where they lie, and nothing here takes memory.
//!
//! The packet that a proxy forwards for a request (RFC 2865, section 2.3): its size, its octets written
//! behind others in a buffer, and the laws of it.
//!
//! Nothing here reads a socket, a clock or a table: the new Identifier, the Authenticator, the secrets
//! and the ticket are arguments. A request's octets are copied once, and rewritten where they then lie.
//!
//! # Proved
//!
//! - what passes of a list is in its order just what no list names, of a vendor's attribute by its sub-attributes too
//!   | `append_without`, `without_len`, `count_without`, `append_passed`, `passed_len`, law `what_passes`
//! - the forwarded packet's octets, in place too, and its size | `rewrite`, `forwarded_len`
//! - which requests can be forwarded | `can_be_shaped`
//! - what a peer and a realm have taken out of a request, and what is added for the peer, in its place and counted
//!   | `forward`, `forwarded_shaped_len`, law `shaped_carries`
#![tactic(auto)]

mod access;
mod added;
mod forwardable;
mod forwarding;
mod forwarding_laws;
mod length;
mod lists;
mod passed;
mod passing;
mod places;
mod removal;
mod removal_laws;
mod shaped;
mod shaping;
mod sub_attributes;
mod terms;

pub use forwardable::{can_be_shaped, fits_shaped};
pub use forwarding::rewrite;
pub use forwarding_laws::{
    forwarded_authenticator, forwarded_carries, forwarded_marks, forwarded_packet, shaped_carries,
};
pub use length::{MAX_GROWTH, forwarded_len};
pub use lists::{append_without, count_without, without_len};
pub use passed::{append_passed, passed_len};
pub use passing::Passing;
pub use removal::{Removal, nothing_removed};
pub use removal_laws::what_passes;
pub use shaped::{forward, forwarded_shaped_len};
pub use shaping::{Shaping, no_shaping};
pub use terms::Forwarding;
