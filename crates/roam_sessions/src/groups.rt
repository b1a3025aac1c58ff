//! Numbers in groups. Each group is a chain of its numbers in rising order, so that none of them costs more to take out
//! than another, and whatever is asked of a group costs the same however many there are.

ghost use Rattle.std.specs.Prelude.{◌≡◌, ℕ, ◌<◌, ◌+◌, List, Option, None, Some, IsOk, OnOk, option_map};
ghost use Rattle.roam_sessions.specs.Private.Groups.{Comes, Goes, IsGrouped};
ghost use Rattle.roam_sessions.specs.Maps.{HasRoom, groups_of};

use crate::ends::{GroupEnds, ends_behind, ends_left, ends_of, newest_of, note, set};
use crate::neighbours::{Beside, Neighbours, put, set_newer, set_older, take};
use indexmap::IndexMap;
use roam_crypto::HashKey;
use roam_wire::NoMemory;
use std::alloc::Allocator;

/// Numbers, each in the group of a row. Which row that is stands with who has the numbers.
pub(crate) struct Groups<A: Allocator> {
    pub(crate) ends: GroupEnds<A>,
    pub(crate) beside: Neighbours<A>,
}

// By hand, as those of what holds groups: so a proof sees one call wherever a ledger ends, and not each of its maps.
impl<A: Allocator> Drop for Groups<A> {
    fn drop(self) {
        let Self { ends, beside } = self;
        drop(ends);
        drop(beside);
    }
}

impl<A: Allocator + Copy> Groups<A> {
    /// Makes groups without numbers. Takes no memory.
    pub(crate) fn new(alloc: A, key: HashKey) -> Groups<A>
        ensures { (f : ℕ → Option (List ℕ)) → ((t : ℕ) → f t ≡ None)
            → IsGrouped f (groups_of result) }
    {
        Groups {
            ends: IndexMap::with_hasher(alloc, key),
            beside: IndexMap::new(alloc),
        }
    }

    /// Makes room for one number more. Nothing changes.
    pub(crate) fn reserve(&mut self) -> Result<(), NoMemory>
        ensures ok { OnOk result (HasRoom 1 self.new) }
        ensures succeeds { HasRoom 1 self.old → IsOk result }
        ensures room { (n : ℕ) → HasRoom n self.old → HasRoom n self.new }
        ensures same { groups_of self.new ≡ groups_of self.old }
    {
        self.ends.reserve(1)?;
        self.beside.reserve(1)?;
        Ok(())
    }

    /// Puts a number last in the group of a row, if one is given, where there is room. Takes no memory.
    pub(crate) fn append(&mut self, number: u64, row: Option<Vec<u8, A>>)
        requires { HasRoom 1 self.old }
        ensures grouped { (f g : ℕ → Option (List ℕ)) → IsGrouped f (groups_of self.old)
            → Comes f g number (option_map (λ r. r.items) row) → IsGrouped g (groups_of self.new) }
        ensures room { (n : ℕ) → HasRoom (n + 1) self.old → HasRoom n self.new }
    {
        let Some(row) = row else {
            return;
        };
        let ends = ends_of(&self.ends, row.as_slice());
        let older = newest_of(ends);
        note(&mut self.ends, row, ends_behind(ends, number));
        let beside = Beside { older, newer: None };
        put(&mut self.beside, number, beside);
        set_newer(&mut self.beside, older, Some(number));
    }

    /// Takes a number out of the group of its row: its neighbours are each other's from now on.
    pub(crate) fn remove(&mut self, number: u64, row: &[u8])
        ensures grouped { (f g : ℕ → Option (List ℕ)) → IsGrouped f (groups_of self.old)
            → Goes f g number (Some row.now) → IsGrouped g (groups_of self.new) }
        ensures room { (n : ℕ) → HasRoom n self.old → HasRoom n self.new }
    {
        let Some(ends) = ends_of(&self.ends, row) else {
            return;
        };
        let Some(beside) = take(&mut self.beside, number) else {
            return;
        };
        set_newer(&mut self.beside, beside.older, beside.newer);
        set_older(&mut self.beside, beside.newer, beside.older);
        set(&mut self.ends, row, ends_left(ends, beside));
    }
}
