//! The steps that were handed over by answers that weren't taken whole.

use std::alloc::{AllocError, Global};
use std::sync::atomic::{AtomicU64, Ordering};

/// Stored steps of a shard that an answer has, and those that are missing before them: so many. They are stored no
/// more.
#[derive(Clone, Copy)]
pub struct Handed {
    pub shard: u16,
    pub steps: u64,
}

/// The number of stored steps of each shard that answers cleared which weren't taken whole, and that aren't reported
/// yet.
#[derive(Drop)]
pub struct Missing {
    of_shards: Vec<AtomicU64>,
}

impl Missing {
    /// Makes the count where nothing is missing of so many shards.
    pub fn new(alloc: Global, shards: u16) -> Result<Missing, AllocError> {
        let mut of_shards = Vec::with_capacity(alloc, usize::from(shards))?;
        for _ in 0..shards {
            of_shards.push(AtomicU64::new(0))?;
        }
        Ok(Missing { of_shards })
    }

    /// Adds steps that weren't taken whole.
    pub fn add(&self, handed: Handed) {
        if let Some(count) = self.of_shards.get(usize::from(handed.shard)) {
            count.fetch_add(handed.steps, Ordering::SeqCst);
        }
    }

    /// Returns how many of a shard are missing of which that isn't said yet. It is said from now on.
    pub fn take(&self, shard: u16) -> u64 {
        match self.of_shards.get(usize::from(shard)) {
            Some(count) => count.swap(0, Ordering::SeqCst),
            None => 0,
        }
    }
}
