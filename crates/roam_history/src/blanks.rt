//! Histories with no entry, one for each shard.

ghost use Rattle.std.specs.Prelude.{◌≡◌, IfOk};
ghost use Rattle.roam_history.specs.Books.{count_of};

use crate::blank::Blank;
use roam_wire::NoMemory;
use std::alloc::Allocator;

/// Histories with no entry, one for each shard of a hub that is to be opened.
#[derive(Drop)]
pub struct Blanks<A: Allocator> {
    pub blanks: Vec<Blank, A>,
}

impl<A: Allocator> Blanks<A> {
    /// Makes so many histories with no entry.
    pub fn new(alloc: A, shards: u16) -> Result<Blanks<A>, NoMemory>
        ensures { IfOk result (λ b. count_of b ≡ shards) }
    {
        let mut blanks = Vec::with_capacity(alloc, usize::from(shards))?;
        for _ in 0..shards {
            blanks.push(Blank::new())?;
        }
        Ok(Blanks { blanks })
    }
}
