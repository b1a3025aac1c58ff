//! The groups of a facet, whose numbers have their neighbours in the table of all facets.

ghost use Rattle.std.specs.Prelude.{◌≡◌, ℕ, ◌<◌, ◌≤◌, ◌+◌, List, Option, Some, option_map};
ghost use Rattle.indexmap.specs.IndexMap.{spare};
ghost use Rattle.roam_sessions.specs.Kept.{shown_asked};
ghost use Rattle.roam_sessions.specs.Maps.{OthersStay, SessionsStay, linked, linked_at};
ghost use Rattle.roam_sessions.specs.Private.Groups.{Comes, Goes, IsGrouped};
ghost use Rattle.roam_sessions.specs.Private.Links.{no_beside};
ghost use Rattle.roam_sessions.specs.Private.Row.{row_text};

use crate::asked::AskedRef;
use crate::ends::{GroupEnds, ends_behind, ends_left, ends_of, newest_of, note, set};
use crate::links::{Facet, beside_in, link_newer, link_older};
use crate::row::Row;
use crate::session_map::SessionMap;
use std::alloc::Allocator;

/// Puts a number last in the group of a row, if one is given, where there is room. It has no neighbours there yet.
/// Takes no memory.
pub(crate) fn join<A: Allocator + Copy>(
    ends: &mut GroupEnds<A>,
    links: &mut SessionMap<A>,
    facet: Facet,
    number: u64,
    row: Option<Vec<u8, A>>,
)
    requires { 0 < spare ends.old }
    ensures grouped { (f g : ℕ → Option (List ℕ)) → IsGrouped f (linked facet ends.old links.old)
        → linked_at facet links.old number ≡ Some no_beside
        → Comes f g number (option_map (λ r. r.items) row) → IsGrouped g (linked facet ends.new links.new) }
    ensures others { OthersStay facet links.old links.new }
    ensures room { spare ends.old ≤ spare ends.new + 1 }
    ensures stay { SessionsStay links.old links.new }
{
    let Some(row) = row else {
        return;
    };
    let ends_now = ends_of(ends, row.as_slice());
    let older = newest_of(ends_now);
    note(ends, row, ends_behind(ends_now, number));
    link_older(links, facet, Some(number), older);
    link_newer(links, facet, older, Some(number));
}

/// Takes a number out of the group of a row: its neighbours are each other's from now on.
fn unlink<A: Allocator + Copy>(
    ends: &mut GroupEnds<A>,
    links: &mut SessionMap<A>,
    facet: Facet,
    number: u64,
    row: &[u8],
)
    ensures grouped { (f g : ℕ → Option (List ℕ)) → IsGrouped f (linked facet ends.old links.old)
        → Goes f g number (Some row.now) → IsGrouped g (linked facet ends.new links.new) }
    ensures others { OthersStay facet links.old links.new }
    ensures room { spare ends.old ≤ spare ends.new }
    ensures stay { SessionsStay links.old links.new }
{
    let Some(ends_now) = ends_of(ends, row) else {
        return;
    };
    let Some(beside) = beside_in(links, facet, number) else {
        return;
    };
    link_newer(links, facet, beside.older, beside.newer);
    link_older(links, facet, beside.newer, beside.older);
    set(ends, row, ends_left(ends_now, beside));
}

/// Takes a number out of the group of what its session is asked for, if it is in one.
pub(crate) fn part<A: Allocator + Copy>(
    ends: &mut GroupEnds<A>,
    links: &mut SessionMap<A>,
    facet: Facet,
    number: u64,
    asked: Option<AskedRef<'_>>,
)
    ensures grouped { (f g : ℕ → Option (List ℕ)) → IsGrouped f (linked facet ends.old links.old)
        → Goes f g number (option_map row_text (option_map shown_asked asked.entry))
        → IsGrouped g (linked facet ends.new links.new) }
    ensures others { OthersStay facet links.old links.new }
    ensures room { spare ends.old ≤ spare ends.new }
    ensures stay { SessionsStay links.old links.new }
{
    if let Some(asked) = asked {
        unlink(ends, links, facet, number, Row::of(asked).as_slice());
    }
}
