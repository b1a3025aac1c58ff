//! The outlet to standard error, for which nobody waits: a thread beside writes what lies there.
//!
//! A line begins as whoever reads the log wants it: a priority for the journal, else the moment and the level.
#![tactic(auto)]

mod line_head;
mod outlet;
mod runtime;
mod waiting;

pub use line_head::{LogReader, log_reader};
pub use outlet::{Outlet, write_on};
pub use runtime::{OutletWriter, ToOutlet};
pub use waiting::lines_in;
