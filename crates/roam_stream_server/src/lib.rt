//! The thread of `roam streams`: it takes and dials connections of TCP, and has a UDP socket toward the broker for
//! each.
//!
//! What is sent, put or refused is `roam_streams`' to say; here are the sockets, the clock and the lines. That each
//! event is given once, and what is said is done, isn't claimed: it is code.
//!
//! Reading what `roam streams` is asked to do, from the text of a TOML document.
//!
//! The work of the program with streams, over texts and writers: `roam streams CONF [MS]` and `roam check --streams
//! CONF`.
//!
//! # Proved
//!
//! - of each kind at most eight lines are told in a second, and the others are counted | `LineBudget::may_tell`
//! - a word of readiness is of the connection under whose mark the system has it | `SocketName::token`,
//!   `SocketName::from_token`
//! - the socket of a connection that ended stays for 60 s, so that a late reply finds no other connection |
//!   `Staying::new`, `Staying::is_over`
//! - the numbers of what is accepted are in their ranges, and `take` and each `at` have as many endpoints as they
//!   may, all of 127.0.0.0/8. What else a text states, and which fault comes first, is tested | `read_streams`: `ok`;
//!   `server_from`
//! - words ask for one of these, or for neither; a word of milliseconds is a decimal number from 1 to 86400000 |
//!   `StreamCommand::from_words`
//! - a check prints how many home servers what it accepts has | `print_summary`
//! - the status is 4 at most | `stream_command`
#![tactic(auto)]

mod accepting;
mod at_socket;
mod command;
mod counts;
mod dialed;
mod dialing;
mod endpoints;
mod keys;
mod line_budget;
mod missing;
mod pair;
mod readiness;
mod reading;
mod replies;
mod rounds;
mod run;
mod shared;
mod stream_loop;
mod stream_words;
mod system;
mod taken;
mod telling;
mod timers;
mod tokens;
mod twice;
mod why;

pub use command::stream_command;
pub use reading::read_streams;
pub use run::stream;
pub use stream_words::{StreamCommand, ask_for_streams};
