//! Simulations: a broker is given the events of a script, and a line is printed for each packet that
//! it sends.
//!
//! Nothing here touches a file, a socket or a clock: the texts are values, and the writer is the caller's.
//!
//! # Proved
//!
//! - a script's events, or its first faulty line, which being out of memory doesn't hide | `read_script`
//! - a packet's line | `print_packet`
//! - the lines of the packets that a fresh broker sends for the script's events, and nothing else; of these
//!   packets it says isolation and provenance | `sim`: `ok`
//! - the configuration's first fault, else the script's first faulty line, before anything is written; a
//!   refused write comes only where both are read | `sim`: `config`, `line`, `line_accepted`, `untouched`,
//!   `write`, `write_accepted`
//! - out of memory nothing is written, or some events were lost, each of which needs memory, and the lines of
//!   the others are written | `sim`: `memory`
#![tactic(auto)]

mod fault;
mod places;
mod printing;
mod reading;
mod script;
mod simulation;

pub use fault::SimFault;
pub use printing::{print_endpoint, print_packet};
pub use reading::read_script;
pub use script::ScriptFault;
pub use simulation::{sim, simulate};
