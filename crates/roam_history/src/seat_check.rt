//! The check that the seats counted what was recorded.

ghost use Rattle.std.specs.Prelude.{◌≡◌, ◌↔◌, ◌<◌, length, vec_len, false, IsTrue};
ghost use Rattle.std.specs.List.{All};
ghost use Rattle.roam_history.specs.Entries.{times_let_go};
ghost use Rattle.roam_history.specs.Seats.{tally_of};
ghost use Rattle.roam_history.specs.Shown.{recorded, whole_of};
ghost use Rattle.roam_history.specs.Audit.{steps_of, calls_of, times_of_all, Agrees};
ghost use Rattle.roam_history.specs.Findings.{FindsUneven};

use crate::audit_fault::AuditFault;
use crate::opened::Opened;
use crate::report::Report;
use crate::seat::Seat;
use std::alloc::Allocator;

/// Returns how many calls of a shard the seats counted together.
fn calls_of<A: Allocator, N: Opened>(seats: &[Seat<A, N>], shard: usize) -> u128
    requires { shard < N.opening.config.shards }
    ensures { result ≡ calls_of seats.now shard }
{
    let mut calls = 0;
    for seat in seats {
        calls += u128::from(seat.calls(shard));
    }
    calls
}

/// Returns how often the seats let go of a shard's stored steps together.
fn times_of_all<A: Allocator, N: Opened>(seats: &[Seat<A, N>], shard: usize) -> u128
    requires { shard < N.opening.config.shards }
    ensures { result ≡ times_of_all seats.now shard }
{
    let mut times = 0;
    for seat in seats {
        times += u128::from(seat.times(shard));
    }
    times
}

/// Returns whether no seat is marked at a shard.
fn are_unmarked<A: Allocator, N: Opened>(seats: &[Seat<A, N>], shard: usize) -> bool
    requires { shard < N.opening.config.shards }
    ensures { IsTrue result ↔ All (λ seat. (tally_of seat.tallies shard).is_marked ≡ false) seats.now }
{
    seats.iter().all(|seat| !seat.is_marked(shard))
}

impl<A: Allocator, N: Opened> Report<A, N> {
    /// Returns how many steps a shard has: those that were let go of, and the stored ones.
    fn steps_at(&self, shard: usize) -> u64
        requires { shard < vec_len self.now.fronts }
        ensures { result ≡ length (steps_of (recorded self.now) shard) }
    {
        self.fronts[shard].len()
    }

    /// Returns how often a shard's stored steps were let go of.
    fn times_at(&self, shard: usize) -> u64
        requires { shard < vec_len self.now.fronts }
        ensures { result ≡ times_let_go (whole_of self.now shard) }
    {
        self.fronts[shard].times_let_go()
    }

    /// Returns whether the seats agree with a shard.
    fn agrees(&self, seats: &[Seat<A, N>], shard: usize) -> bool
        requires { shard < vec_len self.now.fronts }
        ensures { IsTrue result ↔ Agrees (recorded self.now) (whole_of self.now) seats.now shard }
    {
        calls_of(seats, shard) == u128::from(self.steps_at(shard))
            && times_of_all(seats, shard) == u128::from(self.times_at(shard))
            && are_unmarked(seats, shard)
    }

    /// Compares the seats with each shard in turn.
    pub(crate) fn check_seats(&self, seats: &[Seat<A, N>]) -> Result<(), AuditFault>
        ensures { FindsUneven (recorded self.now) (whole_of self.now) seats.now result }
    {
        for shard in 0..self.fronts.len() {
            if !self.agrees(seats, shard) {
                return Err(AuditFault::Seats {
                    shard: shard as u16,
                });
            }
        }
        Ok(())
    }
}
