//! The parts of a page.

use crate::gauges::Gauge;
use roam_counters::{CountedEvent, Process, Subject};

/// The counts.
pub trait Counts {
    /// Returns how often an event was counted of a subject.
    fn event(&self, subject: Subject, event: CountedEvent) -> u64;

    /// Returns how often this was counted of the whole server.
    fn process(&self, process: Process) -> u64;

    /// Returns how this stands at the moment; none where that isn't known.
    fn gauge(&self, gauge: Gauge) -> Option<u64>;
}
