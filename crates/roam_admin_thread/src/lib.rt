//! The server's own thread while the others serve. It answers what it is asked for, keeps the session tables, and
//! makes all that is needed for the configuration that is to follow, before anything changes.
//!
//! It starts no thread that outlasts a call, and opens no hub: it has a seat of the one that is served. The parts of an
//! epoch's threads that name no hub are made here (`make_kits`), for the first epoch too.
#![tactic(auto)]

mod attending;
mod configured;
mod dealing;
mod fresh;
mod hub_end;
mod keeping;
mod kits;
mod losing;
mod manner;
mod next;
mod overview;
mod saving;
mod source;
mod tracing;
mod trial;
mod watch;

pub use attending::{Attendant, stopping};
pub use configured::{Configured, Handover};
pub use fresh::FreshMeans;
pub use hub_end::HubEnd;
pub use kits::{Kit, Kits, ThreadKits, fill_outboxes, make_kits, make_outboxes};
pub use losing::{declined_for, tell_what_went};
pub use manner::{Manner, StateFile};
pub use next::{Next, out_of_memory, widen_all};
pub use source::{Following, KeepEnd, Keeping, Source};
pub use watch::Watch;
