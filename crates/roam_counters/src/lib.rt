//! The counts of a server: which count each event adds to, and where that stands.
//!
//! Nothing here is shared: what the threads counted together is read where they leave it, and belongs to the server.
//!
//! # Proved
//!
//! - what an arrival is counted as, and of whom | `CountedTurn::arrival`, `sender`; `end_at`, `Process::received`
//! - which counts rise by what happened, of whom and by how much: by a packet for a realm, by what became of each request
//!   in a tick, by an answer of the broker's own, by an arrival and a refusal, by what a change of the configuration drops |
//!   `job_increments`, `due_increments`, `left_increments`, `dropped_increments`, `local_increments`, `arrival_increments`, `failed_increments`, `refused_increments`, `refused_here_increments`
//! - each datagram that was received is one that was taken, answered, refused or dropped, or one that failed: so many
//!   together as were received, also of several threads | `Datagrams`: `balanced`; `Datagrams::after`, `and`
//! - two counts stand at one place of one list only where they are one: of the same realm, home server or peer and of
//!   the same event | law `cells_are_apart`; `Subject::holder`, `cell`, `Holder::cells`, `Process::cell`
//! - each count of a thread's own is the sum of the increments of its event and its subject that the thread was told,
//!   above what it began with, modulo 2^64 | laws `counts_are_sums`, `sums_are_of_events`; `OwnCounts::add`
#![tactic(auto)]

mod arrivals;
mod cell;
mod datagrams;
mod delay;
mod dropped;
mod dues;
mod end;
mod event;
mod event_of_code;
mod increments;
mod kinds;
pub mod laws;
mod left;
mod own_counts;
mod process;
mod turn;

pub use arrivals::{
    arrival_increments, failed_increments, refused_here_increments, refused_increments,
};
pub use cell::{Holder, Subject};
pub use datagrams::{DatagramCounts, Datagrams, Handling};
pub use delay::Delay;
pub use dropped::dropped_increments;
pub use dues::due_increments;
pub use end::{end_at, source_of, subject_of};
pub use event::{CountedEvent, EVENTS};
pub use increments::{Increment, Increments, job_increments, local_increments};
pub use kinds::{NakCause, ReplyKind, RequestKind};
pub use left::left_increments;
pub use own_counts::{CountList, Counted, OwnCounts};
pub use process::Process;
pub use turn::CountedTurn;
