//! One epoch: the time under one configuration. Its hub is opened, its threads are made and run, and it is closed and
//! audited.
//!
//! Begin with `serve_over`. While the others serve, the server's own thread attends to who asks (`roam_admin_thread`).
//!
//! # Proved
//!
//! - of a hub that was closed: its histories were audited, the shards that are handed on stand where these end, and a
//!   configuration that follows may | `serve_over`: `ends`, `may`; `close_and_audit`: `ends`; `Source::following`
//! - of threads that ended, for each shard as many jobs were handed on to its worker as that one took over, or the
//!   audit fails | `close_after`: `jobs`; `given_back`
//! - each call by which the threads ask a hub is the hub's own, with its contract: so what is proved of them over any
//!   hub with these calls is proved over this one | `PausableHub`
#![tactic(auto)]

mod audit;
mod crew;
mod given_back;
mod hub_calls;
mod open_hub;
mod opening;
mod parts;
mod ready_threads;
mod room;
mod running;
mod start;
mod thread_parts;

pub use open_hub::serve_over;
pub use parts::{Means, Served, ServerParts, Unserved};
