//! The broker over shared tables: the same rules and the same answers as with a list for each realm,
//! at a cost for each event that doesn't grow with what is pending.
//!
//! Nothing here touches a socket or a clock: datagrams, moments and packets are values.
//!
//! The history of one shard: each event that it took, and what it answered. The events of its last steps are stored.
//!
//! Nothing here touches a socket, a clock or a lock: events, moments and packets are values.
//!
//! All shards of a paused hub follow another configuration.
//!
//! Nothing here touches a thread, a lock, a socket or a clock.
//!
//! # Proved
//!
//! - a shard answers each job and tick with the written answer, and says what happened by it; or memory is refused, and
//!   it is unchanged | `Shard::step`, `tick`: `turn`
//! - no memory is wanted where a job sends no packet, where nothing is due, where each entry that is due was
//!   answered, so that they only go, or where a tick is refused; whether something is due, it says, and whether at
//!   most so many entries are | `Shard::step`: `succeeds`; `tick`: `nothing_due`, `only_done`, `too_late`; `is_due`,
//!   `has_few_due`
//! - its realms begin at the starts that it is given; where one of them would go on, it says | `Shard::new`,
//!   `opening`, `start`
//! - over one shard for each number stands the same broker, from any starts | `Shards::new`, `fresh`; it is a
//!   `Stepper`
//! - a shard is taken from its configuration and goes on under it where it stands; memory for another configuration
//!   is taken first, and refused or not the shard stands as it did | `Shard::pause`, `resume`; `Paused::reserve`:
//!   `still`
//! - where it follows another configuration, for which that memory is there, each of its realms that is here in both
//!   goes on in what is carried over of its state, and any other has nothing, at the place of its random words and
//!   the ticket where the realm of its index stood; no allocation can fail there | `Paused::follow`: `stands`,
//!   `follow`
//! - a paused shard takes up what a file of ledgers has of its own realms, by their names, and nothing else of it changes |
//!   `Paused::restore`: `stands`, `states`
//! - what is looked at of a shard is what stands there: how many entries and sessions, of each realm that is its own |
//!   `Shard::gauges`
//! - the stored events are those of the last steps of a history of the shard: each is one of its own, and the shard
//!   stands where they end; what each was answered with is the written answer after the steps before | the invariant of
//!   `Traced`; `step`, `take`, `tick`: `Stores`, its `history`; `let_go`: `history`; `cut`
//! - to let go takes the stored steps out, and changes nothing else; it can't be refused; where nothing was let
//!   go of, what is stored is the whole history | `let_go`: `steps`, `gone`; `IsTrace`, `Ends`
//! - what is returned is the written answer to what is stored, with what happened by it; with an error nothing changes |
//!   `step`, `take`, `tick`: `Stores`, its `ok`, `answer` and `err`; `happening`
//! - `TraceFull` comes exactly when as many steps are stored as the limit | the same: its `full`
//! - all shards follow another configuration, or none does, and each realm is in the state in which it was | `follow`:
//!   `ok`, `err`
//! - where nobody agreed, they follow only where no realm loses a waiting request or a session of the state in which it
//!   stands there; they are declined for that only where one does, and else only out of memory | `follow`: `guarded`,
//!   `declined`
//! - what is told of a change's losses are those of each realm's state in its own shard | `follow`: `losses`, `declined`
#![tactic(auto)]

mod answers;
mod any_due;
mod declined;
mod done_tick;
mod event;
mod fault;
mod few_due;
mod following;
mod following_hub;
mod gathered;
mod jobs;
mod look;
mod losses;
mod octets;
mod opening;
mod paused;
mod realm_numbers;
mod rooms;
mod saving;
mod shard;
mod shards;
mod step;
mod stored_event;
mod storing;
mod trace_look;
mod traced;

pub use declined::Declined;
pub use event::{copy_of, job_event};
pub use fault::TraceFault;
pub use following::FreshNumbers;
pub use following_hub::follow;
pub use opening::{Opening, first_starts};
pub use paused::Paused;
pub use shard::Shard;
pub use shards::Shards;
pub use step::Step;
pub use trace_look::EventRef;
pub use traced::Traced;
