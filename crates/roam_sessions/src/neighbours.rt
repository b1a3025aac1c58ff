//! The neighbours of the numbers that are in groups.

ghost use Rattle.std.specs.Prelude.{◌≡◌, ℕ, ◌<◌, ◌≤◌, ◌+◌, None, Some, option_map};
ghost use Rattle.indexmap.specs.IndexMap.{spare};
ghost use Rattle.roam_sessions.specs.Private.Groups.{with_newer_at, with_older_at};
ghost use Rattle.roam_sessions.specs.Maps.{beside_at};
ghost use Rattle.roam_wire.specs.Numbered.{PutsAt};

use indexmap::IndexMap;
use std::alloc::Allocator;
use std::hash::{BuildHasherDefault, FoldHasher};

/// The next older and the next newer number of the same group.
#[derive(Clone, Copy)]
pub(crate) struct Beside {
    pub(crate) older: Option<u64>,
    pub(crate) newer: Option<u64>,
}

/// The neighbours of each number. Nobody outside picks these numbers.
pub(crate) type Neighbours<A> = IndexMap<u64, Beside, BuildHasherDefault<FoldHasher>, A>;

/// Puts a number with its neighbours, where there is room. Takes no memory.
pub(crate) fn put<A: Allocator + Copy>(map: &mut Neighbours<A>, number: u64, beside: Beside)
    requires { 0 < spare map.old }
    ensures puts { PutsAt (beside_at map.old) (beside_at map.new) number (Some beside) }
    ensures room { spare map.old ≤ spare map.new + 1 }
{
    let _old = map.insert(number, beside).unwrap();
}

/// Takes a number out, with its neighbours.
pub(crate) fn take<A: Allocator + Copy>(map: &mut Neighbours<A>, number: u64) -> Option<Beside>
    ensures was { result ≡ beside_at map.old number }
    ensures puts { PutsAt (beside_at map.old) (beside_at map.new) number None }
    ensures room { spare map.old ≤ spare map.new }
{
    map.swap_remove(&number)
}

/// Gives the session of this number, if there is one, this newer neighbour from now on.
pub(crate) fn set_newer<A: Allocator + Copy>(
    map: &mut Neighbours<A>,
    at: Option<u64>,
    newer: Option<u64>,
)
    ensures numbers { (u : ℕ) → beside_at map.new u
        ≡ option_map (with_newer_at at newer u) (beside_at map.old u) }
    ensures room { spare map.new ≡ spare map.old }
{
    if let Some(number) = at {
        if let Some(beside) = map.get_mut(&number) {
            beside.newer = newer;
        }
    }
}

/// Gives the session of this number, if there is one, this older neighbour from now on.
pub(crate) fn set_older<A: Allocator + Copy>(
    map: &mut Neighbours<A>,
    at: Option<u64>,
    older: Option<u64>,
)
    ensures numbers { (u : ℕ) → beside_at map.new u
        ≡ option_map (with_older_at at older u) (beside_at map.old u) }
    ensures room { spare map.new ≡ spare map.old }
{
    if let Some(number) = at {
        if let Some(beside) = map.get_mut(&number) {
            beside.older = older;
        }
    }
}
