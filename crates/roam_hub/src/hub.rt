//! A lock for each shard.

ghost use Rattle.std.specs.Prelude.{◌≡◌, ◌≢◌, ◌<◌, ◌≤◌, ◌%◌, ◌↔◌, Some, slice_get, vec_len, IfErr, IfOk};
ghost use Rattle.std.specs.Prelude.{IsErrOf, OnErr, OnOk};
ghost use Rattle.roam_conf.specs.Shown.{shown};
ghost use Rattle.roam_admission.specs.Events.{IsEvent, arrival_of};
ghost use Rattle.roam_admission.specs.Shown.{shown_job};
ghost use Rattle.roam_core.specs.Events.{arrives, ticks};
ghost use Rattle.roam_core.specs.Shown.{shown_event};
ghost use Rattle.roam_history.specs.Entries.{steps_in};
ghost use Rattle.roam_history.specs.Seats.{front_of};
ghost use Rattle.roam_history.specs.Shown.{shown_step};
ghost use Rattle.roam_history.specs.Calls.{AreGone, Calls, IsCall, IsFull, IsLook, Sees, TicksIfDue, answered_step};

use crate::call::Call;
use crate::gate::Gate;
use crate::locked_trace::LockedTrace;
use crate::locking::wait_for;
use roam_admission::Job;
use roam_conf::{Config, ExchangeLines};
use roam_core::Event;
use roam_history::{Answered, HubFault, Opened, Receipt, Refused, Seat, Ticked};
use roam_shard::{Step, copy_of, job_event};
use std::alloc::Allocator;
use std::sync::{Mutex, MutexGuard, Wait};

/// Hub: the broker for many threads, with a lock of its own for each shard. `N` says in proofs how it
/// opened.
#[derive(Drop)]
pub struct Hub<'c, A: Allocator, N: Opened> {
    pub(crate) alloc: A,
    pub(crate) config: &'c Config,
    pub(crate) locks: Vec<Mutex<LockedTrace<'c, A, N>>, A>,
    ghost config_is: { shown config.now ≡ N.opening.config },
    ghost count: { vec_len locks ≡ N.opening.config.shards },
}

impl<'c, A: Allocator + Copy, N: Opened> Hub<'c, A, N> {
    /// Waits for a shard's lock. `NoShard` just where there is no such shard.
    fn lock<R: Wait>(
        &self,
        rt: &R,
        shard: u16,
    ) -> Result<MutexGuard<'_, LockedTrace<'c, A, N>>, HubFault>
        ensures there { OnOk result (shard < N.opening.config.shards) }
        ensures no_shard { IfErr result (λ f. (f ≡ HubFault.NoShard) × (N.opening.config.shards ≤ shard)) }
    {
        let Some(lock) = self.locks.get(usize::from(shard)) else {
            return Err(HubFault::NoShard);
        };
        Ok(wait_for(rt, lock))
    }

    /// Gives a job to the shard of its realm, at the call's moment, and waits for that shard's lock. The job's
    /// octets go into the stored step, so nothing is copied but what is answered. With the answer comes what happened
    /// by the job. The seat counts the call.
    ///
    /// # Errors
    ///
    /// `Misplaced`; `TraceFull` just where as many steps of the shard are stored as its trace can hold;
    /// `NoMemory`. Nothing is recorded then, and the job comes back as it was.
    pub fn answer<R: Wait, G: Gate>(
        &self,
        call: Call<'_, R, G>,
        seat: &mut Seat<A, N>,
        job: Job<A>,
    ) -> Result<Answered<A>, Refused<A>>
        requires { IsEvent N.opening.config (shown_job job) }
        ensures { Calls N.opening call.entry.lines (job.realm % N.opening.config.shards) call.entry.moment
            (shown_job job) seat.old seat.new result }
    {
        let shard = self.config.shard_of(job.realm);
        let mut kept = wait_for(call.rt, &self.locks[usize::from(shard)]);
        call.gate.inside(shard);
        kept.take(call, seat, shard, job)
    }

    /// For tests and rows.
    ///
    /// Gives a job that stays the caller's to its shard, and answers with a receipt. The job's octets are copied
    /// before the lock is taken, for the stored step and for the receipt.
    ///
    /// # Errors
    ///
    /// As `answer`.
    pub fn submit<R: Wait, G: Gate>(
        &self,
        rt: &R,
        seat: &mut Seat<A, N>,
        now: u64,
        job: &Job<A>,
        gate: &G,
    ) -> Result<Receipt<A, N>, HubFault>
        requires { IsEvent N.opening.config (shown_job job.now) }
        ensures call { IfOk result (λ r.
            IsCall N.opening r.shard seat.old seat.new r.number (shown_step r)) }
        ensures event { IfOk result (λ r. shown_event r.event
            ≡ arrives now (arrival_of (shown_job job.now))) }
        ensures shard { IfOk result (λ r. r.shard ≡ job.now.realm % N.opening.config.shards) }
        ensures front { IfOk result (λ r. r.front.entries ≡ front_of seat.new r.shard) }
        ensures seen { Sees (job.now.realm % N.opening.config.shards) seat.old seat.new }
        ensures times { seat.new.times ≡ seat.old.times }
        ensures err { OnErr result (seat.new.tallies ≡ seat.old.tallies) }
        ensures full { IsErrOf result HubFault.TraceFull
            → IsFull N.opening (job.now.realm % N.opening.config.shards) seat.new }
        ensures no_shard { IfErr result (λ f. f ≢ HubFault.NoShard) }
    {
        let event = job_event(self.alloc, now, job)?;
        let copy = copy_of(self.alloc, job)?;
        let call = Call {
            rt,
            gate,
            moment: now,
            lines: ExchangeLines::OfNone,
        };
        match self.answer(call, seat, copy) {
            Ok(answered) => Ok(receipt_of(seat, event, answered)),
            Err(refused) => Err(refused.fault),
        }
    }

    /// For tests and rows.
    ///
    /// Does a tick of a shard, at a moment in milliseconds, for whose lock it waits.
    ///
    /// # Errors
    ///
    /// `NoShard` just where there is no such shard; else as `answer`.
    pub fn tick<R: Wait, G: Gate>(
        &self,
        rt: &R,
        seat: &mut Seat<A, N>,
        now: u64,
        shard: u16,
        gate: &G,
    ) -> Result<Receipt<A, N>, HubFault>
        ensures call { IfOk result (λ r.
            IsCall N.opening shard seat.old seat.new r.number (shown_step r)) }
        ensures event { IfOk result (λ r. shown_event r.event ≡ ticks now shard) }
        ensures shard { IfOk result (λ r. r.shard ≡ shard) }
        ensures front { IfOk result (λ r. r.front.entries ≡ front_of seat.new shard) }
        ensures seen { Sees shard seat.old seat.new }
        ensures times { seat.new.times ≡ seat.old.times }
        ensures err { OnErr result (seat.new.tallies ≡ seat.old.tallies) }
        ensures full { IsErrOf result HubFault.TraceFull → IsFull N.opening shard seat.new }
        ensures no_shard { IsErrOf result HubFault.NoShard ↔ N.opening.config.shards ≤ shard }
    {
        let mut kept = self.lock(rt, shard)?;
        gate.inside(shard);
        let call = Call {
            rt,
            gate,
            moment: now,
            lines: ExchangeLines::OfNone,
        };
        let answered = kept.tick(call, seat, shard)?;
        Ok(receipt_of(seat, Event::Tick { now, shard }, answered))
    }

    /// Does a tick of a shard where something is due in it at the call's moment, and makes no receipt. Returns `None`
    /// where nothing is due: nothing is stored then, and no memory is wanted. With the answer comes what became of
    /// each request that was due and waited, in order.
    ///
    /// Where many entries are due, the tick's moment is an earlier one, at which few were, or the first at which any
    /// was; only what has been due for long is worked off at once. The caller asks again until no more is due:
    /// between two calls others have the lock.
    ///
    /// # Errors
    ///
    /// As `tick`.
    pub fn tick_if_due<R: Wait, G: Gate>(
        &self,
        call: Call<'_, R, G>,
        seat: &mut Seat<A, N>,
        shard: u16,
    ) -> Result<Option<Ticked<A>>, HubFault>
        ensures tick { TicksIfDue N.opening call.entry.lines shard call.entry.moment seat.old seat.new result }
        ensures no_shard { IsErrOf result HubFault.NoShard ↔ N.opening.config.shards ≤ shard }
    {
        let mut kept = self.lock(call.rt, shard)?;
        call.gate.inside(shard);
        kept.tick_if_due(call, seat, shard)
    }

    /// Returns whether anything of a shard is due at a moment in milliseconds, as it stands. Waits for the shard's
    /// lock, records nothing, and takes no memory.
    ///
    /// # Errors
    ///
    /// `NoShard` just where there is no such shard; `Misplaced`; `NoMemory` where the history has 2^64 - 1
    /// entries. The seat stays then.
    pub fn is_due<R: Wait>(
        &self,
        rt: &R,
        seat: &mut Seat<A, N>,
        now: u64,
        shard: u16,
    ) -> Result<bool, HubFault>
        ensures look { IfOk result (IsLook N.opening shard now seat.old seat.new) }
        ensures seen { Sees shard seat.old seat.new }
        ensures times { seat.new.times ≡ seat.old.times }
        ensures err { OnErr result (seat.new ≡ seat.old) }
        ensures causes { IfErr result (λ f. f ≢ HubFault.TraceFull) }
        ensures no_shard { IsErrOf result HubFault.NoShard ↔ N.opening.config.shards ≤ shard }
    {
        self.lock(rt, shard)?.is_due(seat, shard, now)
    }

    /// Lets go of the stored steps of a shard, for whose lock it waits: takes them out, and gives them
    /// back. All else of the shard stays as it is, and the history goes on. The seat counts it. Takes no memory, and a
    /// time that doesn't grow with the steps.
    ///
    /// # Errors
    ///
    /// `NoShard` just where there is no such shard; `Misplaced`; `NoMemory` where the history has 2^64 - 1
    /// entries. Nothing changes then.
    pub fn let_go<R: Wait>(
        &self,
        rt: &R,
        seat: &mut Seat<A, N>,
        shard: u16,
    ) -> Result<Vec<Step<A>, A>, HubFault>
        ensures gone { IfOk result (λ v. AreGone N.opening shard seat.old seat.new v.items) }
        ensures seen { Sees shard seat.old seat.new }
        ensures err { OnErr result (seat.new ≡ seat.old) }
        ensures no_shard { IsErrOf result HubFault.NoShard ↔ N.opening.config.shards ≤ shard }
    {
        self.lock(rt, shard)?.let_go(rt, seat, shard)
    }
}

/// Makes the receipt of a call that was recorded, as its seat has seen it. Takes no memory.
fn receipt_of<A: Allocator, N: Opened>(
    seat: &Seat<A, N>,
    event: Event<A>,
    answered: Answered<A>,
) -> Receipt<A, N>
    requires shard { answered.shard < N.opening.config.shards }
    requires stands { slice_get (steps_in (front_of seat.now answered.shard)) answered.number
        ≡ Some (answered_step (shown_event event) answered) }
    ensures shard { result.shard ≡ answered.shard }
    ensures number { result.number ≡ answered.number }
    ensures event { result.event ≡ event }
    ensures answer { result.answer ≡ answered.answer }
    ensures front { result.front.entries ≡ front_of seat.now answered.shard }
{
    let front = seat.front(answered.shard).again();
    Receipt {
        shard: answered.shard,
        number: answered.number,
        event,
        answer: answered.answer,
        front,
    }
}
