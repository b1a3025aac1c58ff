//! The ends of groups.

ghost use Rattle.std.specs.Prelude.{◌≡◌, ℕ, ◌<◌, ◌≤◌, ◌+◌, Option, None, Some, IsSome, OnOk, option_map};
ghost use Rattle.std.specs.Option.{option_map_or};
ghost use Rattle.indexmap.specs.IndexMap.{spare};
ghost use Rattle.roam_sessions.specs.Private.Groups.{IsLargest, PutsRow, ends_behind, ends_left, larger, newest_of};
ghost use Rattle.roam_sessions.specs.Maps.{ends_at};
ghost use Rattle.roam_sessions.specs.declared.ends.Ends.{Ends};
ghost use Rattle.roam_sessions.specs.declared.neighbours.Beside.{Beside};

use crate::kept_row::{KeptRow, SoughtRow};
use crate::neighbours::Beside;
use indexmap::IndexMap;
use roam_crypto::HashKey;
use roam_wire::NoMemory;
use std::alloc::Allocator;

/// The oldest and the newest number of a group, and how many it has.
#[derive(Clone, Copy)]
pub(crate) struct Ends {
    pub(crate) oldest: u64,
    pub(crate) newest: u64,
    pub(crate) count: usize,
}

/// The ends of each group, by its row. Peers pick what stands in a row, so the hash is keyed.
pub(crate) type GroupEnds<A> = IndexMap<KeptRow<A>, Ends, HashKey, A>;

/// Returns the newest number of a group, which may have none yet.
pub(crate) fn newest_of(ends: Option<Ends>) -> Option<u64>
    ensures { result ≡ newest_of ends }
{
    match ends {
        None => None,
        Some(ends) => Some(ends.newest),
    }
}

/// Returns the ends of a group, which may have none yet, with a number behind all that it has.
pub(crate) fn ends_behind(ends: Option<Ends>, number: u64) -> Ends
    ensures { result ≡ ends_behind number ends }
{
    match ends {
        None => Ends {
            oldest: number,
            newest: number,
            count: 1,
        },
        Some(ends) => Ends {
            oldest: ends.oldest,
            newest: number,
            count: ends.count.saturating_add(1),
        },
    }
}

/// Returns the ends of a group once a number with these neighbours went. Returns `None` where it was the only one.
pub(crate) fn ends_left(ends: Ends, beside: Beside) -> Option<Ends>
    ensures { result ≡ ends_left beside ends }
{
    let (oldest, newest) = match (beside.older, beside.newer) {
        (None, None) => return None,
        (None, Some(newer)) => (newer, ends.newest),
        (Some(older), None) => (ends.oldest, older),
        (Some(_), Some(_)) => (ends.oldest, ends.newest),
    };
    Some(Ends {
        oldest,
        newest,
        count: ends.count.saturating_sub(1),
    })
}

/// Returns the better of the ends that were the best so far, and others: those of the group that has more, or as many
/// and the older one.
pub(crate) fn larger(best: Option<Ends>, ends: Ends) -> Ends
    ensures { result ≡ larger best ends }
{
    match best {
        Some(best) if best.count > ends.count => best,
        Some(best) if best.count == ends.count && best.oldest <= ends.oldest => best,
        _ => ends,
    }
}

/// Returns the ends of a group.
pub(crate) fn ends_of<A: Allocator + Copy>(map: &GroupEnds<A>, row: &[u8]) -> Option<Ends>
    ensures { result ≡ ends_at map.now row.now }
{
    map.get(SoughtRow { octets: row }).copied()
}

/// Returns how many numbers a group has.
pub(crate) fn count_in<A: Allocator + Copy>(map: &GroupEnds<A>, row: &[u8]) -> usize
    ensures { result ≡ option_map_or (λ (e : Ends). e.count) (ends_at map.now row.now) 0 }
{
    match ends_of(map, row) {
        None => 0,
        Some(ends) => ends.count,
    }
}

/// Returns the oldest number of a group.
pub(crate) fn oldest_in<A: Allocator + Copy>(map: &GroupEnds<A>, row: &[u8]) -> Option<u64>
    ensures { result ≡ option_map (λ (e : Ends). e.oldest) (ends_at map.now row.now) }
{
    match ends_of(map, row) {
        None => None,
        Some(ends) => Some(ends.oldest),
    }
}

/// Finds the oldest number of the group that has most. Where several groups have most, it is the oldest of all
/// theirs. Looks at each group once.
pub(crate) fn oldest_of_largest<A: Allocator + Copy>(map: &GroupEnds<A>) -> Option<u64>
    ensures { (beside : ℕ → Option Beside)
        → IsLargest (record { ends = ends_at map.now; beside = beside }) result }
{
    let mut best: Option<Ends> = None;
    for i in 0..map.len() {
        if let Some((_row, ends)) = map.get_index(i) {
            best = Some(larger(best, *ends));
        }
    }
    match best {
        None => None,
        Some(ends) => Some(ends.oldest),
    }
}

/// Makes room for one group more. Nothing changes.
pub(crate) fn reserve_ends<A: Allocator + Copy>(map: &mut GroupEnds<A>) -> Result<(), NoMemory>
    ensures ok { OnOk result (1 ≤ spare map.new) }
    ensures room { spare map.old ≤ spare map.new }
    ensures same { ends_at map.new ≡ ends_at map.old }
{
    map.reserve(1)?;
    Ok(())
}

/// Notes the ends of a group, where there is room. Takes no memory.
pub(crate) fn note<A: Allocator + Copy>(map: &mut GroupEnds<A>, row: Vec<u8, A>, ends: Ends)
    requires { 0 < spare map.old }
    ensures puts { PutsRow (ends_at map.old) (ends_at map.new) row.items (Some ends) }
    ensures room { spare map.old ≤ spare map.new + 1 }
{
    let _old = map.insert(KeptRow { octets: row }, ends).unwrap();
}

/// Writes the ends of a group that has some.
fn write<A: Allocator + Copy>(map: &mut GroupEnds<A>, row: &[u8], ends: Ends)
    ensures puts { IsSome (ends_at map.old row.now)
        → PutsRow (ends_at map.old) (ends_at map.new) row.now (Some ends) }
    ensures room { spare map.new ≡ spare map.old }
{
    if let Some(place) = map.get_mut(SoughtRow { octets: row }) {
        *place = ends;
    }
}

/// Takes the ends of a group out.
fn forget<A: Allocator + Copy>(map: &mut GroupEnds<A>, row: &[u8])
    ensures puts { PutsRow (ends_at map.old) (ends_at map.new) row.now None }
    ensures room { spare map.old ≤ spare map.new }
{
    map.swap_remove(SoughtRow { octets: row });
}

/// Gives a group these ends from now on, or none any more.
pub(crate) fn set<A: Allocator + Copy>(map: &mut GroupEnds<A>, row: &[u8], ends: Option<Ends>)
    ensures puts { IsSome (ends_at map.old row.now)
        → PutsRow (ends_at map.old) (ends_at map.new) row.now ends }
    ensures room { spare map.old ≤ spare map.new }
{
    match ends {
        Some(ends) => write(map, row, ends),
        None => forget(map, row),
    }
}
