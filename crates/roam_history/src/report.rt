//! The record of all shards, and its audit.

ghost use Rattle.std.specs.Prelude.{◌≡◌, ◌-◌, ◌<◌, ◌^◌, min, vec_len};
ghost use Rattle.roam_history.specs.Fronts.{AreOfShards, AreWhole};
ghost use Rattle.roam_history.specs.StepCounts.{count_of_steps};

use crate::audit_fault::AuditFault;
use crate::front::Front;
use crate::opened::Opened;
use crate::receipt::Receipt;
use crate::seat::Seat;
use roam_realm::Start;
use roam_shard::Step;
use std::alloc::Allocator;

/// Report: what was recorded of all shards, once no caller is left.
pub struct Report<A: Allocator, N: Opened> {
    /// By shard, and in each the steps that are still stored, in the order in which they were recorded.
    pub steps: Vec<Vec<Step<A>, A>, A>,
    /// By realm, where it begins the next time.
    pub starts: Vec<Start, A>,
    /// By shard, its whole history: the steps that were let go of, and the stored ones. It is closed, so nothing was
    /// written into it later.
    pub fronts: Vec<Front<N>, A>,
    ghost few_shards: { vec_len fronts < 2 ^ 16 },
    ghost all_shards: { vec_len fronts ≡ N.opening.config.shards },
    ghost of_shards: { AreOfShards fronts.items },
    ghost whole: { AreWhole fronts.items },
}

// By hand, so that a proof sees one call wherever it ends, and the crates above prove nothing of it.
impl<A: Allocator, N: Opened> Drop for Report<A, N> {
    fn drop(self) {
        let Self {
            steps,
            starts,
            fronts,
        } = self;
        drop(steps);
        drop(starts);
        drop(fronts);
    }
}

/// Returns how many steps these histories have together; as many as 64 bits hold.
fn count_in<N: Opened>(fronts: &[Front<N>]) -> u64
    ensures { result ≡ min (count_of_steps fronts.now) (2 ^ 64 - 1) }
{
    let mut count = 0u64;
    for front in fronts {
        count = count.saturating_add(front.len());
    }
    count
}

impl<A: Allocator, N: Opened> Report<A, N> {
    ghost use Rattle.std.specs.Prelude.{◌≡◌, ◌↔◌, ◌-◌, ◌^◌, ℕ, Err, IsOk, min};
    ghost use Rattle.roam_history.specs.Shown.{recorded, shown_receipts, whole_of};
    ghost use Rattle.roam_history.specs.Audit.{IsInOrder, IsFirstUneven, AreOfFirstWrong};

    /// For tests. Compares what was recorded with what the callers have. Takes no memory.
    ///
    /// Each shard is looked at before any receipt. All steps count, also those that were dropped, and how often steps
    /// were dropped. A receipt costs a comparison of its number and a look at the receipts before it.
    pub fn audit(&self, seats: &[Seat<A, N>], receipts: &[Receipt<A, N>]) -> Result<(), AuditFault>
        ensures ok { IsOk result
            ↔ IsInOrder (recorded self.now) (whole_of self.now) seats.now (shown_receipts receipts.now) }
        ensures seats { (shard : ℕ) → (result ≡ Err (AuditFault.Seats shard))
            ↔ IsFirstUneven (recorded self.now) (whole_of self.now) seats.now shard }
        ensures receipt { (shard number : ℕ) → (result ≡ Err (AuditFault.Receipt shard number))
            ↔ AreOfFirstWrong (recorded self.now) (whole_of self.now) seats.now
            (shown_receipts receipts.now) shard number }
    {
        match self.check_seats(seats) {
            Ok(()) => self.check_receipts(receipts),
            Err(fault) => Err(fault),
        }
    }

    /// Returns how many steps were recorded of all shards, those that were let go of too; as many as 64 bits hold.
    pub fn count_steps(&self) -> u64
        ensures { result ≡ min (count_of_steps self.now.fronts.items) (2 ^ 64 - 1) }
    {
        count_in(self.fronts.as_slice())
    }
}
