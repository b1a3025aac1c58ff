//! The queue of jobs that others received for one worker.

ghost use Rattle.std.specs.Prelude.{◌≡◌, ◌≤◌, ◌+◌, ◌-◌, ◌^◌, ◌↔◌, [], false, true, IsTrue, IfSome};
ghost use Rattle.std.specs.VecDeque.{deque_len};
ghost use Rattle.roam_workers.specs.Jobs.{IsPutBehind, queued};

use crate::job_counts::JobCounts;
use crate::queued_job::Jobs;
use roam_history::Opened;
use std::alloc::Global;
use std::collections::VecDeque;
use std::mem;

/// Limits how many jobs wait for one worker.
pub const MOST_JOBS: usize = 1024;

/// The jobs that wait for a worker, in the order in which they were handed on, and how many came and went. A worker
/// that waits for datagrams takes none, so nobody has to wake it.
pub(crate) struct JobQueue<N: Opened> {
    jobs: Jobs<N>,
    is_open: bool,
    /// Counts the jobs that were put behind others here.
    handed_on: u64,
    /// Counts those that were taken from the front.
    taken_over: u64,
    ghost few: { deque_len jobs ≤ 1024 },
    ghost closed: { is_open ≡ false → jobs.items ≡ [] },
    ghost balanced: { handed_on ≡ taken_over + deque_len jobs },
}

// By hand, so that a proof sees one call wherever it ends, and the crates above prove nothing of it.
impl<N: Opened> Drop for JobQueue<N> {
    fn drop(self) {
        let Self {
            jobs,
            is_open: _,
            handed_on: _,
            taken_over: _,
        } = self;
        drop(jobs);
    }
}

impl<N: Opened> JobQueue<N> {
    /// Makes a queue that takes no job yet. Takes no memory.
    pub fn new(alloc: Global) -> JobQueue<N> {
        JobQueue {
            jobs: VecDeque::new(alloc),
            is_open: false,
            handed_on: 0,
            taken_over: 0,
        }
    }

    /// Returns whether any job waits.
    pub fn holds_any(&self) -> bool
        ensures { IsTrue result → ¬ (self.now.jobs.items ≡ []) }
    {
        !self.jobs.is_empty()
    }

    /// Returns whether so many more may wait.
    fn takes(&self, more: usize) -> bool
        ensures { IsTrue result ↔ ((self.now.is_open ≡ true) × (deque_len self.now.jobs + more ≤ 1024)
            × (self.now.handed_on + more ≤ 2 ^ 64 - 1)) }
    {
        self.is_open
            && more <= MOST_JOBS - self.jobs.len()
            && more as u64 <= u64::MAX - self.handed_on
    }

    /// Puts jobs behind those that wait, all of them; or, where that isn't possible, none. Returns how many were put.
    pub fn hand_on(&mut self, more: &mut Jobs<N>) -> usize
        ensures { IsPutBehind (queued self.old.jobs.items self.old.handed_on self.old.taken_over)
            (queued self.new.jobs.items self.new.handed_on self.new.taken_over) more.old.items more.new.items result }
    {
        let count = more.len();
        if !self.takes(count) || self.jobs.append(more).is_err() {
            return 0;
        }
        self.handed_on += count as u64;
        count
    }

    /// Takes all that wait, in their order, in exchange for a list in which none is. Others are put from now on, or no
    /// more.
    pub fn take_over(&mut self, room: &mut Jobs<N>, goes_on: bool)
        requires { room.old.items ≡ [] }
        ensures taken { room.new.items ≡ self.old.jobs.items }
        ensures left { self.new.jobs.items ≡ [] }
        ensures counts { (self.new.handed_on ≡ self.old.handed_on)
            × (self.new.taken_over ≡ self.old.taken_over + deque_len room.new) }
        ensures open { self.new.is_open ≡ goes_on }
    {
        self.is_open = goes_on;
        mem::swap(&mut self.jobs, room);
        self.taken_over += room.len() as u64;
    }

    /// Takes no more, where none waits. Returns whether that is so.
    pub fn close(&mut self) -> bool
        ensures closed { IsTrue result → self.new.is_open ≡ false }
        ensures jobs { queued self.new.jobs.items self.new.handed_on self.new.taken_over
            ≡ queued self.old.jobs.items self.old.handed_on self.old.taken_over }
    {
        let is_empty = self.jobs.is_empty();
        self.is_open = self.is_open && !is_empty;
        is_empty
    }

    /// Returns how many jobs came and went, once nobody puts more, unless one is left here that nobody took.
    pub fn into_counts(self) -> Option<JobCounts>
        ensures { IfSome result (λ counts. counts.handed_on ≡ counts.taken_over) }
    {
        let counts = JobCounts {
            handed_on: self.handed_on,
            taken_over: self.taken_over,
        };
        let is_empty = self.jobs.is_empty();
        drop(self);
        if is_empty { Some(counts) } else { None }
    }
}
