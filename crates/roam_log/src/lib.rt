//! A station in the log by its hash: HMAC-SHA-256 with the site's key, of a MAC address whatever form it has.
//!
//! The lines of dropped datagrams, of exchanges that end, and of reloads. Equal refusals, local rejects and replaced
//! requests within a second are one line with a count, and a flood of one kind hides no other.
//!
//! Nothing here writes a line, reads a clock or starts a thread.
//!
//! # Proved
//!
//! - a key has 16 to 64 octets; the hash is that of RFC 2104 over SHA-256, and of it the first eight octets stand | `StationKey::new`,
//!   `hash_of`
//! - of a MAC address the 12 digits are hashed, in small letters; of anything else the value as it is | `hash_of`
//! - a refusal is counted in the tally of its number, place and source address; where there is none in a new
//!   one, where fewer than eight of its number stand; else in that of all others of its number. Tallies of
//!   other numbers stay as they are | `Row::note`, `Repeats::note`
//! - tallies are taken out as they lie, by number, and in the order in which they began; the name in a line is
//!   that of the place's realm, and the line's text has it, the number, the name, the place, the source, the
//!   count, what is usually wrong and what the packet shows of that, and nothing else | `Repeats::take_first`,
//!   `RefusedText::new`, what its `Display` writes
//! - the line of an exchange that ended is of the request that waited: its realm, who asked, the home server, how often
//!   it was sent there, and what its own octets say; of a login with several rounds how many, and the time since the
//!   first; of a NAK its Error-Cause, and of one that was given up how the home server is silent | `tell_of`,
//!   `error_cause_of`
//! - the line of an exchange has its words, numbers and endpoints, and its values between quotation marks; what
//!   is written of a value is printable in ASCII, and reads back as that value, whatever octets it has |
//!   `push_exchange`; laws `values_are_printable`, `values_read_back`
#![tactic(auto)]

mod clue;
mod details;
mod dropped_text;
mod ended_exchange;
mod error_cause;
mod exchange;
mod exchange_line;
mod folded;
mod form;
mod hints;
mod hmac;
pub mod laws;
mod origin;
mod reload_text;
mod repeats;
mod row;
mod said;
mod sender;
mod server_text;
mod station;
mod station_text;
mod tally;
mod text;
mod turned_away;

pub use clue::{AskedRealm, Clue};
pub use details::Details;
pub use dropped_text::{DropCause, DroppedText};
pub use ended_exchange::{EndedWith, server_endpoint, tell_of};
pub use exchange::{Exchange, ExchangeEnd, RequestWord, Silence, Value};
pub use exchange_line::push_exchange;
pub use folded::FoldedLines;
pub use form::StationForm;
pub use hmac::StationKey;
pub use origin::{Origin, OriginKind};
pub use reload_text::{ReloadEnd, ReloadText};
pub use repeats::Repeats;
pub use row::{KINDS, Row};
pub use said::{error_cause_of, number_in, said_by};
pub use sender::Sender;
pub use station::hash_of;
pub use tally::RefusalCount;
pub use text::RefusedText;
pub use turned_away::{ReplyFault, TurnedAway, TurnedAwayText, turned_away as replies_turned_away};
