//! A job that one worker received and that another one gives to the hub.

ghost use Rattle.std.specs.Prelude.{◌≡◌};
ghost use Rattle.roam_admission.specs.Events.{IsEvent};
ghost use Rattle.roam_admission.specs.Shown.{shown_job};
ghost use Rattle.roam_workers.specs.Jobs.{IsAdmitted};

use roam_admission::Job;
use roam_history::Opened;
use std::alloc::Global;
use std::collections::VecDeque;
use std::marker::PhantomData;

/// A job that one worker received, and that the worker of its shard gives to the hub.
pub struct QueuedJob<N: Opened> {
    pub job: Job<Global>,
    pub hub: PhantomData<N>,
    ghost event: { IsEvent N.opening.config (shown_job job) },
    ghost admitted: { IsAdmitted N.opening.config (shown_job job) },
}

// By hand, so that a proof sees one call wherever it ends, and the crates above prove nothing of it.
impl<N: Opened> Drop for QueuedJob<N> {
    fn drop(self) {
        drop(self.into_job());
    }
}

impl<N: Opened> QueuedJob<N> {
    /// Returns its job.
    pub fn into_job(self) -> Job<Global>
        ensures job { result ≡ self.job }
        ensures event { IsEvent N.opening.config (shown_job result) }
        ensures admitted { IsAdmitted N.opening.config (shown_job result) }
    {
        let Self { job, hub: _ } = self;
        job
    }
}

/// Jobs in the order in which they came.
pub type Jobs<N> = VecDeque<QueuedJob<N>>;
