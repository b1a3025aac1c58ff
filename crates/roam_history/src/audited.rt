//! A report that passed its audit.

ghost use Rattle.std.specs.Prelude.{◌≡◌, ◌↔◌, ◌<◌, IfErr, IfOk, IsOk, vec_len};
ghost use Rattle.std.specs.List.{All};
ghost use mathlib.Core.List.{IsPrefix};
ghost use Rattle.roam_history.specs.Seats.{front_of};
ghost use Rattle.roam_history.specs.Shown.{recorded, whole_of};
ghost use Rattle.roam_history.specs.Audit.{AllAgree, HasSeen, IsFirstFault, IsPassed};
ghost use Rattle.roam_history.specs.Findings.{FindsPassed};

use crate::audit_fault::AuditFault;
use crate::opened::Opened;
use crate::report::Report;
use crate::seat::Seat;
use std::alloc::Allocator;

/// Audited: a report that passed its audit, and the seats by which it did. Who has one knows that the seats counted
/// just the steps that were recorded, and each letting go of them, and that all that each of them had seen of a
/// shard's history begins the report's.
pub struct Audited<A: Allocator, N: Opened> {
    report: Report<A, N>,
    seats: Vec<Seat<A, N>, A>,
    ghost agree: { AllAgree (recorded report) (whole_of report) seats.items },
    ghost begun: { All (HasSeen N.opening.config.shards (whole_of report)) seats.items },
}

// By hand, so that a proof sees one call wherever it ends, and the crates above prove nothing of it.
impl<A: Allocator, N: Opened> Drop for Audited<A, N> {
    fn drop(self) {
        let Self { report, seats } = self;
        drop(report);
        drop(seats);
    }
}

impl<A: Allocator, N: Opened> Audited<A, N> {
    /// Returns the report. Takes no memory.
    pub fn report(&self) -> &Report<A, N>
        ensures { result.now ≡ self.now.report }
    {
        &self.report
    }
}

impl<A: Allocator, N: Opened> Report<A, N> {
    /// Checks that all that a seat has seen of a shard begins that shard's history here, which is whole.
    fn has_seen(&self, seat: &Seat<A, N>, shard: usize)
        requires { shard < vec_len self.now.fronts }
        ensures { IsPrefix (front_of seat.now shard) (whole_of self.now shard) }
    {
        seat.front(shard as u16).begins_whole(&self.fronts[shard]);
    }

    /// Checks that all that a seat has seen of each shard begins that shard's history here, which is whole.
    fn has_all_of(&self, seat: &Seat<A, N>)
        ensures { HasSeen N.opening.config.shards (whole_of self.now) seat.now }
    {
        for shard in 0..self.fronts.len() {
            self.has_seen(seat, shard);
        }
    }

    /// Checks that all that any seat of the hub has seen of a shard begins that shard's history here: nothing is
    /// compared for that.
    pub fn has_all(&self, seats: &[Seat<A, N>])
        ensures { All (HasSeen N.opening.config.shards (whole_of self.now)) seats.now }
    {
        for seat in seats {
            self.has_all_of(seat);
        }
    }

    /// Audits the report by these seats, with no receipts.
    fn passes(&self, seats: &[Seat<A, N>]) -> Result<(), AuditFault>
        ensures { FindsPassed (recorded self.now) N.opening.config.shards (whole_of self.now)
            seats.now result }
    {
        match self.check_seats(seats) {
            Ok(()) => {
                self.has_all(seats);
                Ok(())
            }
            Err(fault) => Err(fault),
        }
    }

    /// Audits the report by these seats, with no receipts: see `audit`. Takes no memory.
    pub fn audited(self, seats: Vec<Seat<A, N>, A>) -> Result<Audited<A, N>, AuditFault>
        ensures ok { IsOk result
            ↔ IsPassed (recorded self) N.opening.config.shards (whole_of self) seats.items }
        ensures fault { IfErr result (IsFirstFault (recorded self) (whole_of self) seats.items) }
        ensures report { IfOk result (λ a. a.report ≡ self) }
        ensures seats { IfOk result (λ a. a.seats ≡ seats) }
    {
        match self.passes(seats.as_slice()) {
            Ok(()) => Ok(Audited {
                report: self,
                seats,
            }),
            Err(fault) => Err(fault),
        }
    }
}
