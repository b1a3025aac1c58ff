//! At which moment a shard is ticked, so that one tick has few entries to work off.

ghost use Rattle.std.specs.Prelude.{◌≡◌, ◌+◌, ◌-◌, ◌<◌, ◌≤◌, IfNone, IfSome};
ghost use Rattle.roam_shard.specs.Turns.{NothingDue};
ghost use Rattle.roam_history.specs.Moments.{AreMoments, IsTickMoment};

use roam_shard::Shard;
use std::alloc::Allocator;

/// As many entries are due at a moment at most, but where more share one millisecond.
pub const MOST: u64 = 64;

/// Ticks that are later than so many milliseconds are made up for at once.
pub const LATE: u64 = 100;

/// Returns a moment between two, or `None` where nothing is between them.
fn between(few: u64, many: u64) -> Option<u64>
    requires { few < many }
    ensures some { IfSome result (λ m. (few < m) × (m < many)) }
    ensures none { IfNone result (many ≡ few + 1) }
{
    let apart = many - few;
    if apart <= 1 {
        return None;
    }
    Some(few + apart / 2)
}

/// Returns a moment at which few entries are due, and a later one at which some are, after a look at one between
/// them.
fn narrowed<A: Allocator + Copy>(
    shard: &Shard<'_, A>,
    few: u64,
    middle: u64,
    many: u64,
) -> (u64, u64)
    requires moments { AreMoments shard.now.states few many }
    requires later { few < middle }
    requires earlier { middle < many }
    ensures moments { AreMoments shard.now.states result.0 result.1 }
    ensures within { result.1 ≤ many }
    ensures from { few ≤ result.0 }
    ensures closer { result.1 - result.0 < many - few }
{
    if shard.has_few_due(middle, MOST) {
        return (middle, many);
    }
    (few, middle)
}

/// Finds the last moment at which few entries are due, between one at which few are and a later one at which some
/// are; or the first at which any is, where those are many.
fn parted<A: Allocator + Copy>(shard: &Shard<'_, A>, quiet: u64, now: u64) -> u64
    requires quiet { NothingDue quiet shard.now.states }
    requires due { NothingDue now shard.now.states → ⊥ }
    requires order { quiet < now }
    requires soon { now ≤ quiet + 100 }
    ensures { IsTickMoment now shard.now.states result }
{
    let mut few = quiet;
    let mut many = now;
    while let Some(middle) = between(few, many) {
        let (before, after) = narrowed(shard, few, middle, many);
        few = before;
        many = after;
    }
    if shard.is_due(few) {
        return few;
    }
    many
}

/// Returns the moment of a tick of a shard in which something is due at `now`, in milliseconds: `now`, where few
/// entries are due. Else the last moment at which few were, or the first at which any was. Entries that have been due
/// for long are worked off at `now`, however many there are: at the moments of long ago a request would be due again
/// at once, and be sent twice in a row.
pub fn moment_of_tick<A: Allocator + Copy>(shard: &Shard<'_, A>, now: u64) -> u64
    requires { NothingDue now shard.now.states → ⊥ }
    ensures { IsTickMoment now shard.now.states result }
{
    if shard.has_few_due(now, MOST) {
        return now;
    }
    let quiet = now.saturating_sub(LATE);
    if shard.is_due(quiet) {
        return now;
    }
    parted(shard, quiet, now)
}
