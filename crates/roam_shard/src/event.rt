//! The event of a job.

ghost use Rattle.std.specs.Prelude.{◌≡◌, IfOk};
ghost use Rattle.roam_admission.specs.Events.{arrival_of};
ghost use Rattle.roam_admission.specs.Shown.{shown_job};
ghost use Rattle.roam_core.specs.Events.{arrives};
ghost use Rattle.roam_core.specs.Shown.{shown_event};

use roam_admission::{Datagram, Job};
use roam_core::Event;
use roam_wire::{NoMemory, Octets};
use std::alloc::Allocator;

/// Makes the event of a job, at a moment in milliseconds: the arrival of its octets. Takes no memory.
pub(crate) fn event_of<A: Allocator>(now: u64, job: Job<A>) -> Event<A>
    ensures { shown_event result ≡ arrives now (arrival_of (shown_job job)) }
{
    let datagram = Datagram {
        at: job.place,
        from: job.from,
        octets: job.octets,
        seconds: None,
        keeps_session: job.keeps_session,
    };
    Event::Arrive { now, datagram }
}

/// Makes the event of a job, at a moment in milliseconds: the arrival of a copy of its octets.
pub fn job_event<A: Allocator>(alloc: A, now: u64, job: &Job<A>) -> Result<Event<A>, NoMemory>
    ensures { IfOk result (λ e. shown_event e ≡ arrives now (arrival_of (shown_job job.now))) }
{
    let octets = Octets::copy_of(alloc, job.octets.as_slice())?;
    let datagram = Datagram {
        at: job.place,
        from: job.from,
        octets,
        seconds: None,
        keeps_session: job.keeps_session,
    };
    Ok(Event::Arrive { now, datagram })
}

/// Makes an equal job.
pub fn copy_of<A: Allocator>(alloc: A, job: &Job<A>) -> Result<Job<A>, NoMemory>
    ensures { IfOk result (λ j. shown_job j ≡ shown_job job.now) }
{
    let octets = Octets::copy_of(alloc, job.octets.as_slice())?;
    Ok(Job {
        realm: job.realm,
        place: job.place,
        from: job.from,
        side: job.side,
        octets,
        named: job.named,
        keeps_session: job.keeps_session,
    })
}
