//! RADIUS over streams (RFC 6613): octets that come on a connection are cut into packets, and packets are written on
//! one.
//!
//! Nothing here reads a socket or a clock: octets are slices, and moments are milliseconds that the caller passes.
//! What is sent, written, dialed or closed is the caller's: each call answers what is to be done.
//!
//! # Proved
//!
//! - how octets are cut into packets doesn't depend on the pieces in which they came; a list of octets has one
//!   cutting | `laws::cutting`
//! - what is sent of a connection is the packets of the cutting of what came, in order, each once, up to some place;
//!   what is written is a beginning of the packets that were put, one behind the other | `Stream`; `laws::sending`,
//!   `laws::writing`
//! - of an Identifier at most one packet is sent to `auth` or `acct` within 1,000 ms, except where one came back
//!   between | `TakenStream::next`; `laws::spacing`
//! - on a dialed connection no two requests in a row under one Identifier have one Authenticator |
//!   `DialedStream::put_request`; `laws::repeating`
//! - a connection keeps at most 20,479 octets that came and 65,536 that are to be written | `Stream`: `few_unsent`,
//!   `few_unwritten`
#![tactic(auto)]

mod dialed_stream;
mod front;
mod identifier_waits;
mod laws;
mod octet_queue;
mod redial;
mod stream;
mod stream_config;
mod stream_fault;
mod taken_stream;

pub use dialed_stream::{Destination, DialedStream, is_request_packet};
pub use front::{Front, front_of, is_packet};
pub use identifier_waits::{IdentifierWaits, Way};
pub use laws::{cutting, repeating, sending, spacing, writing};
pub use octet_queue::OctetQueue;
pub use redial::Redial;
pub use stream::Stream;
pub use stream_config::{BrokerEndpoints, StreamConfig, StreamServer};
pub use stream_fault::StreamFault;
pub use taken_stream::{Next, TakenStream};
