//! The entries of all realms of a shard in shared tables.
//!
//! [`Tables`] keeps what a list for each realm keeps, by the same contracts
//! ([`roam_pending::Entries`]). The entries lie in one slab; one index finds each by its realm and
//! ticket, one by its realm and request key, and one those that keep a round of a conversation, by its
//! realm and the round's hash. But for tickets, their hashes are keyed. Beside them each realm has three runs in order:
//! when its waiting entries are due, when its done ones are, and the tickets of the done ones.
//!
//! Nothing here builds or reads a packet, looks at a clock or chooses a target.
//!
//! # Proved
//!
//! - the entries of many realms in shared tables are each realm's list: the same contracts | `Tables`, which
//!   implements `Entries`
#![tactic(auto)]

mod due_mark;
mod entry_index;
mod growth;
mod places;
mod queue;
mod realm_queues;
mod realms;
mod round_runs;
mod rounds;
mod run;
mod slots;
mod tables;
mod words;

pub use tables::Tables;
