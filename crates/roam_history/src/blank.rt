//! A history with no entry, which has no name yet.

ghost use Rattle.std.specs.Prelude.{◌≡◌, []};
ghost use Rattle.roam_history.specs.Rules.{head_of};

use crate::front::Front;
use crate::head::Head;
use crate::opened::Opened;
use crate::rule::{HistoryEntry, OneHistory};
use logbook::{Seen, Start, Word};

/// A history with no entry, which has no name yet.
pub struct Blank {
    pub(crate) word: Word<HistoryEntry, u64, OneHistory>,
    pub(crate) seen: Seen<HistoryEntry, u64, OneHistory>,
    ghost empty: { seen.log ≡ [] },
    ghost word_is: { word ≡ head_of seen.book },
}

// By hand, so that a proof sees one call wherever it ends, and the crates above prove nothing of it.
impl Drop for Blank {
    fn drop(self) {
        let Self { word, seen } = self;
        drop(word);
        drop(seen);
    }
}

impl Blank {
    /// Makes a history with no entry. Takes no memory.
    pub fn new() -> Blank {
        let (seen, mut first, _second) = Seen::open(Start::alone(), 0, 0);
        Blank {
            word: Word::tracked(0, &mut first),
            seen,
        }
    }

    /// Names it: the history of this shard of the hub. Its word, and the front that has seen nothing.
    /// Takes no memory.
    pub fn named<N: Opened>(self, shard: u16) -> (Head<N>, Front<N>)
        requires { self.seen.book ≡ N.books shard }
        ensures head { result.0.shard ≡ shard }
        ensures front { result.1 ≡ record { shard = shard; entries = [] } }
    {
        let Blank { word, seen } = self;
        (Head::new(shard, word), Front::new(shard, seen))
    }
}
