//! The Identifiers in use toward each remote endpoint (RFC 2865, section 3: an Identifier is one
//! octet, and a reply is matched to its request by it).
//!
//! A lane holds the 256 Identifiers toward one endpoint for one realm. Nothing here touches a socket
//! or a clock, and nothing takes memory but a lane that is made when it is first needed.
//!
//! # Proved
//!
//! - the first free Identifier at or after the cursor, and none exactly when all 256 are used | `Lane::take`
//! - a slot in hand can't be dropped | its type
//! - a lane whose memory isn't there is a fresh one, and `make` alone can be refused | `LazyLane`
#![tactic(auto)]

mod id_state;
mod lane;
pub mod laws;
mod lazy_lane;
mod slot;
mod words;

pub use lane::Lane;
pub use lazy_lane::LazyLane;
pub use slot::IdSlot;
