//! The ends of the groups of buckets.

ghost use Rattle.std.specs.Prelude.{◌≡◌, ◌<◌, ◌≤◌, ◌+◌, Option, None, Some, IsSome, OnOk, option_map};
ghost use Rattle.std.specs.Option.{option_map_or};
ghost use Rattle.indexmap.specs.IndexMap.{spare};
ghost use Rattle.roam_sessions.specs.Kept.{shown_session};
ghost use Rattle.roam_sessions.specs.Maps.{ends_by};
ghost use Rattle.roam_sessions.specs.Private.Buckets.{bucket_in, id_bucket, whole_bucket};
ghost use Rattle.roam_sessions.specs.declared.ends.Ends.{Ends};
ghost use Rattle.roam_wire.specs.Numbered.{PutsAt};

use crate::asked::SessionRef;
use crate::buckets::{Buckets, Places};
use crate::ends::Ends;
use crate::row::Row;
use indexmap::IndexMap;
use roam_crypto::HashKey;
use roam_wire::NoMemory;
use std::alloc::Allocator;
use std::hash::{BuildHasherDefault, FoldHasher};

/// The ends of the group of each bucket that has sessions. Nobody outside picks the number of a bucket.
pub(crate) type BucketEnds<A> = IndexMap<u32, Ends, BuildHasherDefault<FoldHasher>, A>;

impl Buckets {
    /// Returns the buckets of a table with at most so many sessions: one for each 16 of them.
    pub(crate) fn for_limit(key: HashKey, limit: u32) -> Buckets {
        Buckets {
            key,
            count: 1 + limit / 16,
        }
    }

    /// Returns the bucket of a row.
    pub(crate) fn of(&self, row: &[u8]) -> u32
        ensures { result ≡ bucket_in self.now row.now }
    {
        (self.key.hash_of(0, row) % u64::from(self.count)) as u32
    }

    /// Returns the buckets of a session.
    pub(crate) fn places(&self, session: SessionRef<'_>) -> Places
        ensures whole { result.whole ≡ whole_bucket self.now (shown_session session.entry) }
        ensures id { result.id ≡ id_bucket self.now (shown_session session.entry) }
    {
        let asked = session.asked();
        Places {
            whole: self.of(Row::of(asked).as_slice()),
            id: self.of(Row::of(asked.without_names()).as_slice()),
        }
    }
}

/// Returns the ends of a bucket's group.
pub(crate) fn ends_in<A: Allocator + Copy>(map: &BucketEnds<A>, bucket: u32) -> Option<Ends>
    ensures { result ≡ ends_by map.now bucket }
{
    map.get(&bucket).copied()
}

/// Returns how many sessions are in a bucket.
pub(crate) fn count_of<A: Allocator + Copy>(map: &BucketEnds<A>, bucket: u32) -> usize
    ensures { result ≡ option_map_or (λ (e : Ends). e.count) (ends_by map.now bucket) 0 }
{
    match ends_in(map, bucket) {
        None => 0,
        Some(ends) => ends.count,
    }
}

/// Returns the ticket of the oldest session in a bucket.
pub(crate) fn oldest_of<A: Allocator + Copy>(map: &BucketEnds<A>, bucket: u32) -> Option<u64>
    ensures { result ≡ option_map (λ (e : Ends). e.oldest) (ends_by map.now bucket) }
{
    match ends_in(map, bucket) {
        None => None,
        Some(ends) => Some(ends.oldest),
    }
}

/// Makes room for the group of one bucket more. Nothing changes.
pub(crate) fn reserve_buckets<A: Allocator + Copy>(map: &mut BucketEnds<A>) -> Result<(), NoMemory>
    ensures ok { OnOk result (1 ≤ spare map.new) }
    ensures room { spare map.old ≤ spare map.new }
    ensures same { ends_by map.new ≡ ends_by map.old }
{
    map.reserve(1)?;
    Ok(())
}

/// Notes the ends of a bucket's group, where there is room. Takes no memory.
pub(crate) fn note_in<A: Allocator + Copy>(map: &mut BucketEnds<A>, bucket: u32, ends: Ends)
    requires { 0 < spare map.old }
    ensures puts { PutsAt (ends_by map.old) (ends_by map.new) bucket (Some ends) }
    ensures room { spare map.old ≤ spare map.new + 1 }
{
    let _old = map.insert(bucket, ends).unwrap();
}

/// Writes the ends of a bucket's group that has some.
fn write<A: Allocator + Copy>(map: &mut BucketEnds<A>, bucket: u32, ends: Ends)
    ensures puts { IsSome (ends_by map.old bucket)
        → PutsAt (ends_by map.old) (ends_by map.new) bucket (Some ends) }
    ensures room { spare map.new ≡ spare map.old }
{
    if let Some(place) = map.get_mut(&bucket) {
        *place = ends;
    }
}

/// Takes the ends of a bucket's group out.
fn forget<A: Allocator + Copy>(map: &mut BucketEnds<A>, bucket: u32)
    ensures puts { PutsAt (ends_by map.old) (ends_by map.new) bucket None }
    ensures room { spare map.old ≤ spare map.new }
{
    map.swap_remove(&bucket);
}

/// Gives a bucket's group these ends from now on, or none any more.
pub(crate) fn set_in<A: Allocator + Copy>(map: &mut BucketEnds<A>, bucket: u32, ends: Option<Ends>)
    ensures puts { IsSome (ends_by map.old bucket)
        → PutsAt (ends_by map.old) (ends_by map.new) bucket ends }
    ensures room { spare map.old ≤ spare map.new }
{
    match ends {
        Some(ends) => write(map, bucket, ends),
        None => forget(map, bucket),
    }
}
