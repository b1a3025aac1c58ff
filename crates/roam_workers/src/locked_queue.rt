//! The queue of one worker, which the others reach through its lock.

ghost use Rattle.std.specs.Prelude.{◌≡◌, [], IfOk, IfSome, length};
ghost use Rattle.roam_workers.specs.Jobs.{HaveGone};

use crate::job_counts::JobCounts;
use crate::job_queue::JobQueue;
use crate::queued_job::Jobs;
use roam_history::Opened;
use std::alloc::{AllocError, Global};
use std::sync::atomic::{AtomicU64, Ordering};
use std::sync::{Mutex, Wait};

/// Holds the jobs that others received for a worker's shard, and the time at which the worker last ticked that shard.
pub struct LockedQueue<N: Opened> {
    queue: Mutex<JobQueue<N>>,
    /// In milliseconds since the server's start.
    ticked_at: AtomicU64,
}

// By hand, so that a proof sees one call wherever it ends, and the crates above prove nothing of it.
impl<N: Opened> Drop for LockedQueue<N> {
    fn drop(self) {
        let Self { queue, ticked_at } = self;
        drop(queue);
        drop(ticked_at);
    }
}

/// Makes a queue for the worker of each of so many shards, in which nothing waits.
pub fn make_queues<N: Opened>(alloc: Global, shards: u16) -> Result<Vec<LockedQueue<N>>, AllocError>
    ensures { IfOk result (λ queues. length queues.items ≡ shards) }
{
    let mut queues = Vec::with_capacity(alloc, usize::from(shards))?;
    for _ in 0..shards {
        queues.push(LockedQueue::new(alloc))?;
    }
    Ok(queues)
}

impl<N: Opened> LockedQueue<N> {
    /// Makes a queue in which nothing waits, and that takes nothing yet. Takes no memory.
    fn new(alloc: Global) -> LockedQueue<N> {
        LockedQueue {
            queue: Mutex::new(JobQueue::new(alloc)),
            ticked_at: AtomicU64::new(0),
        }
    }

    /// Puts all of these jobs behind those that wait. Where the worker takes none, or fewer, all stay. Returns how
    /// many were put.
    pub fn hand_on<R: Wait>(&self, rt: &R, more: &mut Jobs<N>) -> usize
        ensures { HaveGone more.old.items more.new.items result }
    {
        self.queue.lock(rt).hand_on(more)
    }

    /// Takes what waits, in exchange for a list in which no job is. Others are taken from now on, or no more.
    pub fn take_over<R: Wait>(&self, rt: &R, room: &mut Jobs<N>, goes_on: bool)
        requires { room.old.items ≡ [] }
    {
        self.queue.lock(rt).take_over(room, goes_on);
    }

    /// Takes no more, where none waits. Returns whether that is so.
    pub fn close<R: Wait>(&self, rt: &R) -> bool {
        self.queue.lock(rt).close()
    }

    /// Returns whether any waits.
    pub fn holds_any<R: Wait>(&self, rt: &R) -> bool {
        self.queue.lock(rt).holds_any()
    }

    /// Returns how many jobs came and went, once all threads have ended, unless one is left that nobody took.
    pub fn into_counts(self) -> Option<JobCounts>
        ensures { IfSome result (λ counts. counts.handed_on ≡ counts.taken_over) }
    {
        let Self { queue, ticked_at } = self;
        drop(ticked_at);
        queue.into_inner().into_counts()
    }

    /// Notes that the worker ticks its shard at this moment.
    pub fn note_tick(&self, now: u64) {
        self.ticked_at.store(now, Ordering::SeqCst);
    }

    /// Returns whether the worker ticked its shard less than so many milliseconds ago.
    pub fn is_ticked(&self, now: u64, within: u64) -> bool {
        now.saturating_sub(self.ticked_at.load(Ordering::SeqCst)) < within
    }
}
