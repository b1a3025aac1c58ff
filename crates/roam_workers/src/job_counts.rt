//! How many jobs are handed on and taken over, counted for each queue.

ghost use Rattle.std.specs.Prelude.{◌≡◌, IfOk, length};
ghost use Rattle.roam_workers.specs.JobCounts as spec;
ghost use Rattle.roam_workers.specs.JobCounts.{IsRaisedAt};

use std::alloc::{AllocError, Global};

/// Counts the jobs that one thread, or all, handed on to a worker's queue and took over from it.
#[derive(Clone, Copy, PartialEq, Eq)]
pub struct JobCounts {
    pub handed_on: u64,
    pub taken_over: u64,
}

impl JobCounts {
    /// Returns that none was handed on.
    pub fn none() -> JobCounts
        ensures { result ≡ spec.none }
    {
        JobCounts {
            handed_on: 0,
            taken_over: 0,
        }
    }

    /// Counts these and others, modulo 2^64.
    pub fn and(self, others: JobCounts) -> JobCounts
        ensures { result ≡ spec.both self others }
    {
        JobCounts {
            handed_on: self.handed_on.wrapping_add(others.handed_on),
            taken_over: self.taken_over.wrapping_add(others.taken_over),
        }
    }
}

/// Returns the counts of a thread that handed on nothing yet to any of so many queues.
pub fn counts_for(alloc: Global, queues: usize) -> Result<Vec<JobCounts>, AllocError>
    ensures { IfOk result (λ counts. length counts.items ≡ queues) }
{
    let mut counts = Vec::with_capacity(alloc, queues)?;
    for _ in 0..queues {
        counts.push(JobCounts::none())?;
    }
    Ok(counts)
}

/// Counts jobs that a thread handed on to the queue of a number, or took over from it.
pub fn count_jobs(counts: &mut Vec<JobCounts>, queue: usize, more: JobCounts)
    ensures { IsRaisedAt counts.old.items counts.new.items queue more }
{
    if let Some(count) = counts.get_mut(queue) {
        *count = count.and(more);
    }
}
