//! The sizes of a packet (RFC 2865, section 3).

/// The most octets that a packet has.
pub const MAX_PACKET_LENGTH: usize = 4096;
