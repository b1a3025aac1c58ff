//! The file in which ledgers are kept from one run of a server to the next.
//!
//! What the system and the disk do isn't claimed: here they are asked. A file is written beside the one that it takes
//! the place of, which stays as it is until all of the new one is on the disk. One server alone has it, by a lock of the
//! system, and a thread of its own writes it.
//!
//! # Proved
//!
//! - one writing is under way at a time: what is handed over meanwhile isn't taken, and what was handed over before is
//!   what is written | `Turn::put`: `free`; `Turn::take`: `some`, `all`
#![tactic(auto)]

mod file_lock;
mod keeper;
mod kept_file;
mod obstacle;
mod turn;

pub use file_lock::FileLock;
pub use keeper::{Keeper, KeepsFiles, keep_on};
pub use kept_file::{keep, keep_old, kept, number_of, put_aside};
pub use obstacle::{LARGEST, Obstacle, obstacle_at};
pub use turn::{Job, Turn, Written};
