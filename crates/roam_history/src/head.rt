//! The word of a shard's history.

ghost use Rattle.std.specs.Prelude.{◌≡◌};
ghost use Rattle.roam_history.specs.Rules.{head_of};

use crate::opened::Opened;
use crate::rule::{HistoryEntry, OneHistory};
use logbook::Word;
use std::marker::PhantomData;

/// The word of a shard's history, which counts its entries. It lies under the shard's lock.
pub struct Head<N: Opened> {
    pub shard: u16,
    pub(crate) word: Word<HistoryEntry, u64, OneHistory>,
    hub: PhantomData<N>,
    ghost word_is: { word ≡ head_of (N.books shard) },
}

// By hand, so that a proof sees one call wherever it ends, and the crates above prove nothing of it.
impl<N: Opened> Drop for Head<N> {
    fn drop(self) {
        let Self {
            shard: _,
            word,
            hub: _,
        } = self;
        drop(word);
    }
}

impl<N: Opened> Head<N> {
    /// Makes the word of a history. Takes no memory.
    pub(crate) fn new(shard: u16, word: Word<HistoryEntry, u64, OneHistory>) -> Head<N>
        requires { word ≡ head_of (N.books shard) }
        ensures { result.shard ≡ shard }
    {
        Head {
            shard,
            word,
            hub: PhantomData,
        }
    }
}
