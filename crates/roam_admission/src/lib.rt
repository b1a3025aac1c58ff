//! From a datagram to the event of a realm (RFC 2865, sections 2.3 and 3).
//!
//! Nothing here has state, takes a lock or reads a clock: what an arrival gives depends on the datagram and the
//! configuration alone. The wall clock's seconds that came with a datagram say whether a reverse request is too old.
//!
//! # Proved
//!
//! - a realm is given a request just where it is right: code, sender, attributes, signature, seal, hops, passwords,
//!   realm, that a reverse one isn't stale, that the realm takes its peer's requests, that its accounting is forwarded,
//!   and the size of what is then sent, each a
//!   fact with its section; one that isn't is refused for the first part that fails; what is forwarded has at most
//!   one Proxy-State more than `max_hops`, however it is shaped | law `admitted_requests`: `admitted`,
//!   `refused`, `hops`
//! - passwords open to the same plain text, and all else but the Message-Authenticator is carried in its order,
//!   octet for octet; in a request that isn't an Access-Request that stands where it stood, with another Value
//!   | law `forwarded_carries`
//! - it is a packet, well sealed for the link, signed for it unless it is an Access-Request, whose seal stands
//!   first; the ticket is last | laws `forwarded_packet`, `forwarded_authenticator`, `forwarded_marks`, for
//!   every code
//! - an arrival of any code is refused for the first of the causes 1 to 5, 28, 6 to 8, 24, 9, 29, 25, 26 and 10, or
//!   answered by the
//!   broker itself, or is a job of its realm, with the realm that its User-Name names | `prepare`: `answer`
//! - memory is wanted only for a job or an answer | `prepare`: `memory`
//! - a job's own octets would give that job again; an answer is that of this arrival | `prepare`: `prepared`
//! - the answer to a Status-Server: its code by the place, no longer than the request, read, signed, well
//!   sealed with its seal first, with the request's Proxy-States (RFC 5997) | law `status_answers`
//! - a job's realm and sender are configured, its code is taken from that sender, and a request can be
//!   forwarded | law `events`
//! - the broker's own answers are decided by the peers, by what each name means, by `max_attributes`, `max_hops`,
//!   `status_server` and `answer_unnamed`, and by which peers each realm takes requests of and its `accounting`: no realm's sockets,
//!   secrets or limits are looked at | law `own_answers`
//! - its answer to an Accounting-Request: no longer than that, read, signed, sealed where that is, with its
//!   Proxy-States | `accounting_answer`, law `accounting_answers`
//! - a local reject's octets, or `TooLong` just past 4096; it reads, is signed and well sealed for the access
//!   server, its seal first, and has its Proxy-States | `reject`, law `rejects`
#![tactic(auto)]

mod admission;
mod answering;
mod checks;
mod datagram;
mod freshness;
mod job;
mod laws;
mod local_answer;
mod nas;
mod routing;
mod shapings;
mod source;
mod user_name;

pub use admission::prepare;
pub use answering::{accounting_answer, reject, status_answer};
pub use datagram::{Datagram, Out};
pub use job::{Job, Prepared, Side};
pub use laws::{accounting_answers, events, names, own_answers, own_part, rejects, status_answers};
pub use local_answer::{LocalAnswer, RejectCause};
pub use nas::{NasName, nas_of};
pub use shapings::request_shaping;
pub use source::is_reverse_request;
pub use user_name::{realm_of, realm_part};
