//! The broker of one realm: what a request, a reply and a tick do to the realm's state, and which
//! packets leave.
//!
//! The rules are written once, over whatever keeps the entries ([`roam_pending::Entries`]) and the
//! numbers that a realm hands out ([`roam_realm::RealmNumbers`]). [`Book`] is a realm with a plain list of entries.
//!
//! Nothing here touches a socket or a clock: moments and packets are values.
//!
//! # Proved
//!
//! - requests, replies and ticks get the written answers, whatever their code: packets, refusal and new state, in
//!   which are the position of the random words and the ledger of sessions | `Book::request`, `reply`, `tick`
//! - a peer's request is forwarded as the lists of the peer and of the realm, its Operator-Name and its question for
//!   a Chargeable-User-Identity shape it; an Access reply is returned to it, and a CoA-Request forwarded to it,
//!   without what these lists name, but that what names a session stays | the same: `turn`
//! - a request whose name's share is taken is refused, after `Exhausted` and before `NoIdentifier`; the entry of its
//!   key isn't counted | `Book::request`: `turn`
//! - out of memory leaves the state unchanged, the ledger too; no memory is needed by a request or reply that sends
//!   nothing, or by a tick at which each entry that is due was answered, so that they only go, or whose time is
//!   refused | the same: `turn`, `succeeds`, `only_done`, `too_late`
//! - silent servers: which home server a request goes to is one choice, for a new request and at failover; a link
//!   stands back only where `rest_after` of its requests were given up, and no reply from it was taken and returned
//!   since; and a target is chosen just where some link has a free Identifier, whichever links stand back | the same;
//!   law `rests`: `silent`, `choice`
//! - a tick that is lost for want of memory loses nothing for a realm of which no entry is due; where each due entry
//!   was answered, a tick sends nothing, and they alone go | law `lost_ticks`: `nothing`, `only_done`
//! - requests of one user for one service have one list of targets, and the first of them is taken where it isn't dead,
//!   is free and no conversation goes on | law `one_user_goes_to_one_server`
//! - without `rest` no link ever rests, and where none rests the first with a free Identifier is chosen; an access
//!   server never rests | law `silent_servers`
//! - the rules are those over whatever keeps the entries; the other realms' entries stay as they are |
//!   `RealmBroker::on_request`, `on_reply`, `on_tick`
//! - with its answer each event says what happened by it: of a request that it was refused, a duplicate, answered by a
//!   NAK and by which cause, or forwarded, where to and in whose place; of a reply that it was returned, and for which
//!   request; of a tick what became of each request that was due and waited, in order | `RealmBroker::on_request`,
//!   `on_reply`, `on_tick`: `turn`, its `happening`
//! - with its memory in hand a tick always answers | `tick_room`, `Book::tick_reserved`
//! - a tick is the least due entry, taken until none is left, and then none is due (where `wait` is at least 1, as in
//!   each configuration) | law `ticks_take_the_least_due_first`
//! - the ledger that is taken up from a file is the one that was saved, where the configuration is the same | law
//!   `restored_is_saved`
//! - what admission gives to a realm is what its rules take: a request that can be forwarded, from one with whom a
//!   secret is shared, or a packet from a link | law `events`
#![tactic(auto)]

mod book;
mod laws;
mod realm_broker;
mod rules;

pub use book::{Book, request_of_job};
pub use laws::{
    events, one_user_goes_to_one_server, restored_is_saved, silent_servers,
    ticks_take_the_least_due_first,
};
pub use realm_broker::RealmBroker;
pub use rules::evict_done::only_done_due;
pub use rules::requests::LATEST;
