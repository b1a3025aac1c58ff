//! The places of a configuration's faults, and what is unwise in one that is accepted: lines for the operator.
//!
//! Nothing here judges a configuration: `roam_conf_reader` does, and its fault says which lines are looked for. No
//! line holds a secret.
//!
//! # Proved
//!
//! - a diagnosis has ten lines at most, each of two spaces and printable characters of ASCII. No value under
//!   `secret` or `seed` leaves the table for one. What the lines say is tested | `Lines::print`: `lines`, `ok`;
//!   `Line::as_str`: `line`; `Keys::value`
#![tactic(auto)]

mod advice;
mod advices;
mod bad_values;
mod deliveries;
mod diagnosis;
mod document;
mod duplicates;
mod foreign;
mod form_words;
mod forms;
mod hidden;
mod keys;
mod known_secret;
mod line;
mod lines;
mod missing;
mod names;
mod nearest;
mod network_forms;
mod peer_names;
mod place;
mod quoted;
mod rules;
mod scan;
mod servers;
mod sessions;
mod sharing;
mod slips;
mod statements;
mod survey;
mod syntax;
mod unknown_peers;
mod ways;

pub use diagnosis::{advise, diagnose, diagnose_streams};
pub use line::Line;
pub use lines::Lines;
