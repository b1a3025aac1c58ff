//! Replies to forwarded packets: which are taken, and the packet that is returned to the requester
//! (RFC 2865, section 2.3); and the packet that refuses a reverse request (RFC 5176, section 2.3).
//!
//! Nothing here reads a socket or a clock, and nothing is remembered: what a reply is judged by, and
//! what it is returned with, is handed in.
//!
//! # Proved
//!
//! - a reply is refused for the first cause that holds, and else taken; an Access reply without a
//!   Message-Authenticator is refused where its home server must have one | `check_reply`, law `taken_replies`
//! - the returned packet's octets, or `ReplyTooLong` just past 4096 | `back`
//! - salted strings of an Access-Accept open to the same plain text, and all else but the Message-Authenticator
//!   and the reply's Proxy-States is carried in its order, octet for octet; in a reply that isn't an Access
//!   reply the Message-Authenticator stands where it stood, with another Value | law `returned_carries`
//! - of an Access reply just those attributes are returned that no list names, in their order; any other reply is
//!   returned whole | `back`, law `passing_replies`
//! - it reads, is well sealed and signed for the requester, with the request's Identifier and Proxy-States; the
//!   seal of an Access reply stands first | laws `returned_reads`, `returned_authenticators`,
//!   `returned_to_the_requester`, for every code
//! - a NAK's octets, in a buffer in hand too | `nak`, `nak_reserved`
//! - it reads, fits wherever the forwarded request would, answers its request, is signed for the home server,
//!   and has one Error-Cause, the request's Proxy-States and nothing else | laws `nak_reads`, `nak_answers`,
//!   `nak_carries`
#![tactic(auto)]

mod laws;
mod negative_ack;
mod own_names;
mod plain_packet;
mod reply_check;
mod returning;
mod terms;

pub use laws::{
    nak_answers, nak_carries, nak_reads, passing_replies, returned_authenticators,
    returned_carries, returned_reads, returned_to_the_requester, taken_replies,
};
pub use negative_ack::{nak, nak_len, nak_reserved};
pub use reply_check::check_reply;
pub use returning::back;
pub use terms::Returning;
