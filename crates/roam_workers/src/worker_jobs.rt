//! The jobs that a worker hands on to others, until they are handed on, and room for what others hand on to it.

ghost use Rattle.std.specs.Prelude.{◌≡◌, [], IfNone, IfOk, IfSome};
ghost use Rattle.roam_admission.specs.Events.{IsEvent};
ghost use Rattle.roam_admission.specs.Shown.{shown_job};
ghost use Rattle.roam_workers.specs.Jobs.{IsAdmitted, IsPutLast, jobs_of};

use crate::job_counts::{JobCounts, counts_for};
use crate::queued_job::{Jobs, QueuedJob};
use roam_admission::Job;
use roam_history::Opened;
use std::alloc::{AllocError, Global};
use std::collections::VecDeque;
use std::marker::PhantomData;

/// The number of a worker, which is that of its shard and of its queue, and the jobs that it hands on to others.
pub struct WorkerJobs<N: Opened> {
    pub number: usize,
    /// For each worker, the jobs that are handed on to it next. There is memory for as many as are handed on at once.
    pub for_others: Vec<Jobs<N>>,
    /// Room for what the worker takes over: nothing is in it.
    pub room: Jobs<N>,
    /// For each queue, how many jobs the worker handed on to it, and how many it took over from there.
    pub counts: Vec<JobCounts>,
    ghost empty: { room.items ≡ [] },
}

// By hand, so that a proof sees one call wherever it ends, and the crates above prove nothing of it.
impl<N: Opened> Drop for WorkerJobs<N> {
    fn drop(self) {
        drop(self.into_counts());
    }
}

impl<N: Opened> WorkerJobs<N> {
    /// Makes that of the worker of a number, of so many: nothing is handed on yet. There is room for so many jobs to
    /// each.
    pub fn new(
        alloc: Global,
        number: usize,
        workers: usize,
        jobs: usize,
    ) -> Result<WorkerJobs<N>, AllocError>
        ensures { IfOk result (λ made. made.number ≡ number) }
    {
        let mut for_others = Vec::with_capacity(alloc, workers)?;
        for _ in 0..workers {
            for_others.push(VecDeque::with_capacity(alloc, jobs)?)?;
        }
        Ok(WorkerJobs {
            number,
            for_others,
            room: VecDeque::new(alloc),
            counts: counts_for(alloc, workers)?,
        })
    }

    /// Returns what it counted.
    pub fn into_counts(self) -> Vec<JobCounts>
        ensures { result ≡ self.counts }
    {
        let Self {
            number: _,
            for_others,
            room,
            counts,
        } = self;
        drop(for_others);
        drop(room);
        counts
    }

    /// Sets a job aside behind those that are handed on next to a worker. Where there is no room, it comes back.
    pub fn set_aside(&mut self, worker: usize, job: Job<Global>) -> Option<Job<Global>>
        requires event { IsEvent N.opening.config (shown_job job) }
        requires admitted { IsAdmitted N.opening.config (shown_job job) }
        ensures aside { IfNone result (IsPutLast self.old.for_others.items self.new.for_others.items
            (λ q. jobs_of q.items (λ j. j.job)) worker (shown_job job)) }
        ensures back { IfSome result (λ same. (shown_job same ≡ shown_job job)
            × (self.new.for_others.items ≡ self.old.for_others.items)) }
    {
        if let Some(jobs) = self.for_others.get_mut(worker) {
            if jobs.len() < jobs.capacity() {
                jobs.push_back_reserved(QueuedJob {
                    job,
                    hub: PhantomData,
                });
                return None;
            }
        }
        Some(job)
    }
}
