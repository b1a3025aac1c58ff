//! Many realms: events, what answers them, and runs over lists of them.
//!
//! Nothing here touches a socket or a clock: datagrams, moments and packets are values.
//!
//! # Proved
//!
//! - each realm is isolated, from a fresh broker, from any starts, from any states | `run`:
//!   `isolated_from_start`, `isolated`
//! - all packets, and all states at the end, are the written answers to the events that weren't lost | `run`:
//!   `packets`, `states`
//! - every event is given in its turn and once: one that was answered led to the written states, one that was
//!   lost needed memory, a tick only where an entry was due that waits for a reply, and changed nothing |
//!   `run`: `given`, `lost`, `wanted`; both brokers say what their steps do (`Stepper::steps`)
//! - want of memory stays with whom it hits: of what was lost a realm misses an arrival that was given to it,
//!   and a tick at which one of its entries was due; else its packets and state are as if nothing was lost.
//!   Where each such entry was answered, its next tick makes that good | `run`: `lost_for_itself`; law
//!   `own_losses`: `own`, `made_good`
//! - packets for no realm are the broker's own answers: local rejects, and those to Status-Servers; every other
//!   one is for a realm that is there | `run`: `rejects`, `realms`
//! - where the outcome can't grow, the realms stand after a first part of the events, without those that were
//!   lost; the packets of that part aren't handed out | `run`: `err`
//! - an event gets the written answer, refusal included, or nothing changes | `Stepper::step`; `Broker` (a list
//!   for each realm) and `roam_shard::Shards` (shared tables, for each shard its own) are both such a stepper,
//!   so `run` promises the same over each
//! - what is refused before it comes to a realm needs no memory | `Stepper::step`: `memory`
//! - the written broker isolates its realms, in packets and in states | laws `isolated_realms`, `realms_open`
//! - in two worlds that agree on a realm's part, start and events, it sends the same | law `two_worlds`
//! - one arrival gives a realm the same under configurations that agree on the peers, the meaning of names,
//!   `max_attributes`, `max_hops`, `fresh` and its own table; where the number of shards is equal too, any events
//!   give it the same ones, whatever the seeds; and where the seed is, it sends the same from the same start |
//!   `roam_admission`, law `own_part`; law `own_part`: `events`, `packets`
//! - with one realm, the broker is the written one-realm broker and its own answers | law `one_realm`
//! - what is said to have happened by an event agrees with the packets that it sends: as many, in order, each to where
//!   it says; of each event of a realm, and of a list of events of the broker | law `happenings`: `realm`, `all`
//! - each packet of a realm comes from that realm's own events in one of three ways: it is the forwarded one of
//!   a request, an Access-Request with the random words of a position of the realm's stream; or the returned
//!   one of a reply that was taken for such a packet, of that very request, which its ticket names; or the NAK
//!   of a reverse request, sent in that request's own turn for the cause that held, or at a later tick with 505
//!   | `run`: `provenance`; law `provenance`: `packets`
//! - no two draws of a realm, of one tick or of two turns, take words of one position, below 2^66 draws; so the
//!   words of two turns are of different positions (RFC 2865, section 3) | law `provenance`: `words`, `apart`,
//!   `once`
//! - a ticket is given to one event, and so names one request | law `provenance`: `tickets`, `requests`
//! - each entry is that of such a request, and waits for what was forwarded, or holds what was returned, or its
//!   NAK | law `provenance`: `entries`
//! - which sessions a realm's ledger holds, that realm's own events alone decide: no other realm's accounting
//!   lets its reverse requests pass | law `isolated_ledgers`
//! - in a realm with `own_sessions` each Disconnect- or CoA-Request that is sent was of one session of the realm's
//!   ledger when it came: with one Acct-Session-Id, at most one User-Name, and just one session that has that id, is
//!   of its target and agrees with the access server that it names | law `own_sessions`: `admitted`, `sent`,
//!   `each`; and of what is forwarded over a realm's life, under the configuration of the time: `life`
//! - of a fresh broker over shared tables a proved caller concludes from contracts alone that each realm is
//!   isolated, where each packet comes from, and which events were given and which were lost | `fresh_run` of
//!   `test_callers`: `isolated`, `provenance`, `given`, `lost`, `wanted`
//! - over a realm's life, its events and the changes of its configuration one after the other, each packet has
//!   its origin in what happened, before or after a change, under the configuration of its time; and so has
//!   each entry that is held | laws `life_provenance`: `packets`, `entries`; `lives_over_changes`,
//!   `provenance_over_changes`
//! - a ticket is given to one event, and so names one request; the words of random numbers are drawn in order,
//!   no two draws take words of one position, below 2^66 draws; also where the realm begins anew | laws
//!   `life_tickets`, `life_draws`: `words`, `apart`; `tickets_over_changes`, `draws_apart_over_changes`
//! - the words of a position are drawn for one forwarding: two Access-Requests that were forwarded with them
//!   are the same packet for the same request, under the same ticket (RFC 2865, section 3) | law `life_draws`:
//!   `once`
//! - for whichever places and endpoints one counts: at most `tries` packets for each server among the targets of
//!   each request that came, by however many `out`, and one back for each; per request and per reply at most one
//!   packet, per tick at most one for each due entry; from any state | law `no_amplification`;
//!   `bounded_in_histories`
//! - of one request, by its ticket: at most `tries` packets to each server among its targets, by however many `out`,
//!   and one back | law `sent_for_one_request`
//! - no entry waits longer than `tries` x servers x (`wait` + g), of the servers among its request's targets, while
//!   moments don't go back and no event comes more than g after the tick before it. That ticks come is the premise,
//!   and not claimed | law `bounded_waits`; `bounded_waits_in_histories`
//! - a request that was sent in a round of ticks isn't due again in that round, whose moments are less than `wait` apart |
//!   law `sent_once_in_a_round`
//! - the same from any state on, and where moments go back: while no event finds an entry overdue by more than g. A
//!   round of ticks that leaves nothing due meets that, for all events up to g after it and at most `wait` before it |
//!   law `waits_on_time`: `entries`, `requests`, `rounds`
#![tactic(auto)]

mod bounds;
mod broker;
mod event;
mod laws;
mod runs;
mod shard_room;
mod stepper;

pub use bounds::{
    bounded_waits, no_amplification, sent_for_one_request, sent_once_in_a_round, waits_on_time,
};
pub use broker::Broker;
pub use event::Event;
pub use laws::{
    happenings, isolated_ledgers, isolated_realms, life_draws, life_provenance, life_tickets,
    one_realm, own_losses, own_part, own_sessions, provenance, realms_open, two_worlds,
};
pub use runs::{Outcome, run};
pub use shard_room::with_room;
pub use stepper::Stepper;
