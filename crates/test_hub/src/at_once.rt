//! A hub that two threads call at once: the second call comes while the first is held inside its
//! shard, with that shard's lock.

ghost use Rattle.std.specs.Prelude.{◌≡◌};
ghost use Rattle.roam_conf.specs.Shown.{shown};

use crate::caller::{Caller, FIRST, OTHER_FIRST, OTHER_REQUEST_7, REQUEST_7, sends};
use roam_conf::Config;
use roam_hub::{Gate, Hub, Opened, Receipt, Report, Seat, split};
use roam_realm::Start;
use std::alloc::Global;
use std::process::Abort;
use std::sync::Wait;
use std::sync::atomic::{AtomicU64, Ordering};
use std::thread;
use std::thread::Threads;
use std::time::{Clock, Duration};

/// The stage of two calls.
type Stage = u64;

/// No call is inside shard 0 yet.
const OUTSIDE: Stage = 0;

/// The first call is inside shard 0.
const INSIDE: Stage = 1;

/// The second call was answered meanwhile.
const ANSWERED: Stage = 2;

/// The first call waited for that in vain, and goes on.
const IN_VAIN: Stage = 3;

/// The number of times that a thread looks whether the other is inside.
const TURNS: u64 = 1_000_000;

/// The parts that two threads share.
#[derive(Drop)]
struct Meeting {
    stage: AtomicU64,
    /// The shards that the gate was told, each one more than its number, added up.
    shards: AtomicU64,
}

impl Meeting {
    /// Waits for a stage: looks this often at most, and after each hundredth time sleeps for a
    /// millisecond.
    fn wait_for<R: Clock>(&self, rt: &R, wanted: Stage, turns: u64) {
        for turn in 0..turns {
            if self.stage.load(Ordering::SeqCst) >= wanted {
                return;
            }
            if turn % 100 == 99 {
                thread::sleep(rt, Duration::from_millis(1));
            }
        }
    }

    /// Goes on from `INSIDE`, unless the other thread has done so.
    fn go_on(&self, next: Stage) {
        let _ = self
            .stage
            .compare_exchange(INSIDE, next, Ordering::SeqCst, Ordering::SeqCst);
    }
}

/// Holds the first call that comes inside shard 0, until the other is answered, or in vain for this
/// many turns.
#[derive(Drop)]
struct Held<'r, 'm, R> {
    rt: &'r R,
    meeting: &'m Meeting,
    turns: u64,
}

impl<R: Clock> Gate for Held<'_, '_, R> {
    fn inside(&self, shard: u16) {
        let meeting = self.meeting;
        meeting
            .shards
            .fetch_add(u64::from(shard) + 1, Ordering::SeqCst);
        if shard == 0 && meeting.stage.load(Ordering::SeqCst) == OUTSIDE {
            meeting.stage.store(INSIDE, Ordering::SeqCst);
            meeting.wait_for(self.rt, ANSWERED, self.turns);
            meeting.go_on(IN_VAIN);
        }
    }
}

/// The results of a caller of a hub that it called once.
#[derive(Drop)]
struct Called<N: Opened> {
    receipt: Receipt<Global, N>,
    seat: Seat<Global, N>,
}

/// A caller in a thread of its own submits its job.
fn submit_as<R: Abort + Wait, N: Opened, G: Gate>(
    rt: &R,
    mut caller: Caller<'_, '_, Global, N>,
    gate: &G,
) -> Called<N> {
    let receipt = caller.submit(rt, gate).expect(rt, "a receipt");
    let seat = caller.into_seat();
    Called { receipt, seat }
}

/// Another one does so while the first is inside, and says when it is answered.
fn submit_meanwhile<R: Abort + Wait + Clock, N: Opened, G: Gate>(
    rt: &R,
    caller: Caller<'_, '_, Global, N>,
    gate: &G,
    meeting: &Meeting,
) -> Called<N> {
    meeting.wait_for(rt, INSIDE, TURNS);
    let called = submit_as(rt, caller, gate);
    meeting.go_on(ANSWERED);
    called
}

/// The results of two callers of one hub, what it has at its end, the last stage, and the shards that the gate was
/// told, each one more than its number, added up.
#[derive(Drop)]
pub(crate) struct Ended<N: Opened> {
    pub(crate) receipts: (Receipt<Global, N>, Receipt<Global, N>),
    pub(crate) seats: (Seat<Global, N>, Seat<Global, N>),
    pub(crate) report: Report<Global, N>,
    pub(crate) stage: Stage,
    pub(crate) shards: u64,
}

/// The request of the second caller, for a realm.
fn request_of(realm: u16) -> &'static str {
    if realm == 0 {
        REQUEST_7
    } else {
        OTHER_REQUEST_7
    }
}

/// Two threads call a hub at once. The first submits a request of the first realm; the second one of this realm, for
/// whose answer the first waits so many turns.
pub(crate) fn called_at_once<N: Opened + Send + Sync, R: Abort + Threads + Wait + Clock + Sync>(
    rt: &R,
    alloc: Global,
    config: &Config,
    hub: Hub<'_, Global, N>,
    seat: Seat<Global, N>,
    realm: u16,
    turns: u64,
) -> Ended<N>
    requires { shown config.now ≡ N.opening.config }
{
    let Ok((first, second)) = split(seat) else {
        panic!(rt; "no second seat");
    };
    let first = Caller::new(rt, alloc, config, &hub, first, REQUEST_7);
    let second = Caller::new(rt, alloc, config, &hub, second, request_of(realm));
    let meeting = Meeting {
        stage: AtomicU64::new(OUTSIDE),
        shards: AtomicU64::new(0),
    };
    let gate = Held {
        rt,
        meeting: &meeting,
        turns,
    };
    let (first, second) = thread::join(
        rt,
        || submit_as(rt, first, &gate),
        || submit_meanwhile(rt, second, &gate, &meeting),
    );
    Ended {
        receipts: (first.receipt, second.receipt),
        seats: (first.seat, second.seat),
        report: hub.close(rt).expect(rt, "a report"),
        stage: meeting.stage.load(Ordering::SeqCst),
        shards: meeting.shards.load(Ordering::SeqCst),
    }
}

/// Returns whether a receipt is of this shard and number, and has just this packet.
fn is_receipt<N: Opened>(
    rt: &impl Abort,
    alloc: Global,
    receipt: &Receipt<Global, N>,
    (shard, number): (u16, u64),
    packet: &str,
) -> bool {
    sends(rt, alloc, &receipt.answer, packet) && receipt.shard == shard && receipt.number == number
}

/// Returns how many steps a shard has at the end; none where it isn't there.
fn steps_of<N: Opened>(report: &Report<Global, N>, shard: usize) -> Option<usize> {
    report.steps.get(shard).map(|steps| steps.len())
}

/// Returns whether the realms go on so, where each forwarded one Access-Request: it took four words and a ticket.
fn go_on<N: Opened>(report: &Report<Global, N>) -> bool {
    let next = Start {
        place: 4,
        ticket: 1,
    };
    report.starts.iter().all(|start| *start == next)
}

/// A shard in which a call is held keeps up no call of another shard: a request of a second realm, which has a shard of
/// its own, is answered meanwhile.
pub(crate) fn holds_up_no_other<N: Opened + Send + Sync, R: Abort + Threads + Wait + Clock + Sync>(
    rt: &R,
    alloc: Global,
    config: &Config,
    hub: Hub<'_, Global, N>,
    seat: Seat<Global, N>,
) -> bool
    requires { shown config.now ≡ N.opening.config }
{
    let ended = called_at_once(rt, alloc, config, hub, seat, 1, TURNS);
    let (first, second) = (&ended.receipts.0, &ended.receipts.1);
    let is_first = is_receipt(rt, alloc, first, (0, 0), FIRST);
    let is_second = is_receipt(rt, alloc, second, (1, 0), OTHER_FIRST);
    let steps = [steps_of(&ended.report, 0), steps_of(&ended.report, 1)];
    let told = (ended.stage, ended.shards) == (ANSWERED, 3);
    is_first && is_second && told && steps == [Some(1), Some(1)] && go_on(&ended.report)
}
