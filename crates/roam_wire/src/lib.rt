//! RADIUS packets as octets (RFC 2865, sections 3 and 5): reading a datagram, building a packet, and
//! the refusals of the broker.
//!
//! Nothing here reads a socket or a clock. A datagram is a slice, and a packet is looked at where it
//! lies in it. What reads takes no memory and copies no octets.
//!
//! # Proved
//!
//! - a datagram reads as the packet that its octets are, and as no other | `View::read`
//! - `Short`, `BadLength`, `BadAttribute` come exactly when their causes hold, in that order | `View::read`
//! - the octets built are those of what was pushed; `TooLong` just past 4096 | `PacketBuf`
//! - the numbers of codes and attribute types are those of the RFCs, and so is the size of the largest packet,
//!   4096 octets | laws `numbers_of_codes`, `numbers_of_attribute_types`, `largest_packet`
#![tactic(auto)]

mod attribute_grammar;
pub mod attribute_type;
mod attributes;
pub mod code;
mod laws;
mod octets;
mod packet_buf;
mod packet_size;
mod refusal;
mod removed_attribute;
mod view;
pub mod writing;

pub use attributes::{Attr, Attrs};
pub use laws::{
    largest_packet, numbers_of_attribute_types, numbers_of_codes, packet_octets, readings,
};
pub use octets::Octets;
pub use packet_buf::PacketBuf;
pub use packet_size::MAX_PACKET_LENGTH;
pub use refusal::{NoMemory, Refusal};
pub use removed_attribute::RemovedAttribute;
pub use view::View;
