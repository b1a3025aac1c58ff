//! The groups of buckets, whose numbers have their neighbours in the table of all facets.

ghost use Rattle.std.specs.Prelude.{◌≡◌, ℕ, ◌<◌, ◌≤◌, ◌+◌, List, Option, Some};
ghost use Rattle.indexmap.specs.IndexMap.{spare};
ghost use Rattle.roam_sessions.specs.Maps.{OthersStay, SessionsStay, chained, linked_at};
ghost use Rattle.roam_sessions.specs.Private.Buckets.{bucket_text};
ghost use Rattle.roam_sessions.specs.Private.Groups.{Comes, Goes, IsGrouped};
ghost use Rattle.roam_sessions.specs.Private.Links.{no_beside};

use crate::bucket_ends::{BucketEnds, ends_in, note_in, set_in};
use crate::ends::{ends_behind, ends_left, newest_of};
use crate::links::{Facet, beside_in, link_newer, link_older};
use crate::session_map::SessionMap;
use std::alloc::Allocator;

/// Puts a number last in the group of a bucket, where there is room. It has no neighbours there yet. Takes no memory.
pub(crate) fn enter_bucket<A: Allocator + Copy>(
    ends: &mut BucketEnds<A>,
    links: &mut SessionMap<A>,
    facet: Facet,
    number: u64,
    bucket: u32,
)
    requires { 0 < spare ends.old }
    ensures grouped { (f g : ℕ → Option (List ℕ)) → IsGrouped f (chained facet ends.old links.old)
        → linked_at facet links.old number ≡ Some no_beside
        → Comes f g number (Some (bucket_text bucket)) → IsGrouped g (chained facet ends.new links.new) }
    ensures others { OthersStay facet links.old links.new }
    ensures room { spare ends.old ≤ spare ends.new + 1 }
    ensures stay { SessionsStay links.old links.new }
{
    let ends_now = ends_in(ends, bucket);
    let older = newest_of(ends_now);
    note_in(ends, bucket, ends_behind(ends_now, number));
    link_older(links, facet, Some(number), older);
    link_newer(links, facet, older, Some(number));
}

/// Takes a number out of the group of a bucket: its neighbours are each other's from now on.
pub(crate) fn leave_bucket<A: Allocator + Copy>(
    ends: &mut BucketEnds<A>,
    links: &mut SessionMap<A>,
    facet: Facet,
    number: u64,
    bucket: u32,
)
    ensures grouped { (f g : ℕ → Option (List ℕ)) → IsGrouped f (chained facet ends.old links.old)
        → Goes f g number (Some (bucket_text bucket)) → IsGrouped g (chained facet ends.new links.new) }
    ensures others { OthersStay facet links.old links.new }
    ensures room { spare ends.old ≤ spare ends.new }
    ensures stay { SessionsStay links.old links.new }
{
    let Some(ends_now) = ends_in(ends, bucket) else {
        return;
    };
    let Some(beside) = beside_in(links, facet, number) else {
        return;
    };
    link_newer(links, facet, beside.older, beside.newer);
    link_older(links, facet, beside.newer, beside.older);
    set_in(ends, bucket, ends_left(ends_now, beside));
}
