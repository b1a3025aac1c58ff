//! The refusals under one number within a second.

ghost use Rattle.std.specs.Prelude.{◌≡◌, ◌<◌, ◌↔◌, ◌∷◌, [], IsTrue, IfOk, IfSome, IfNone, All, MatchOption, length};
ghost use Rattle.std.specs.Prelude.{slice_set};
ghost use Rattle.roam_log.specs.Tallies.{IsNoted, IsOfKind, one_more, tally_at};

use crate::origin::{Origin, OriginKind};
use crate::tally::RefusalCount;
use roam_wire::Refusal;
use std::alloc::{AllocError, Global};
use std::marker::Model;

/// The number of kinds of one number that are tallied apart within a second. All others are tallied together.
pub const KINDS: usize = 8;

/// The refusals under one number within a second. A contract sees its tallies, in the order in which they began: at
/// most `KINDS`, each of a kind of its own, and behind them one of all others.
#[derive(Drop)]
pub struct Row {
    tallies: Vec<RefusalCount>,
}

impl Model for Row {
    ghost use Rattle.std.specs.Prelude.{List, ◌≤◌, vec_len, vec_capacity};
    ghost use Rattle.roam_log.specs.declared.tally.RefusalCount.{RefusalCount};

    ghost Value = { List RefusalCount };

    ghost view = { λ row. row.tallies.items };

    ghost invariant = { λ row. (vec_len row.tallies ≤ 9) × (9 ≤ vec_capacity row.tallies) };
}

impl Row {
    /// Makes the row where nothing was refused.
    pub fn new(alloc: Global) -> Result<Row, AllocError>
        ensures { IfOk result (λ row. row ≡ []) }
    {
        Ok(Row {
            tallies: Vec::with_capacity(alloc, KINDS + 1)?,
        })
    }

    /// Returns whether nothing was refused.
    pub fn is_empty(&self) -> bool
        ensures { IsTrue result ↔ (self.now ≡ []) }
    {
        self.tallies.is_empty()
    }

    /// Finds the place of the tally of a kind.
    fn place_of(&self, kind: OriginKind) -> Option<usize>
        ensures found { IfSome result (λ i. (i < length self.now) × IsOfKind kind (tally_at self.now i)) }
        ensures none { IfNone result (All (λ tally. ¬ (IsOfKind kind tally)) self.now) }
    {
        for (i, tally) in self.tallies.iter().enumerate() {
            if tally.is_of(kind) {
                return Some(i);
            }
        }
        None
    }

    /// Counts one more in the tally of this place.
    fn count_at(&mut self, at: usize)
        requires { at < length self.old }
        ensures { self.new ≡ slice_set self.old at (one_more (tally_at self.old at)) }
    {
        self.tallies[at].count_one();
    }

    /// Counts one more refusal of this row's number: in the tally of its kind; else in a new one, where fewer than
    /// `KINDS` stand here; else in that of all others.
    pub fn note(&mut self, refusal: Refusal, origin: Origin)
        ensures { IsNoted refusal origin self.old self.new }
    {
        let len = self.tallies.len();
        match self.place_of(origin.kind()) {
            Some(at) => self.count_at(at),
            None if len < KINDS => self.tallies.push_reserved(RefusalCount {
                refusal,
                origin: Some(origin),
                count: 1,
            }),
            None if len == KINDS => self.tallies.push_reserved(RefusalCount {
                refusal,
                origin: None,
                count: 1,
            }),
            None => self.count_at(KINDS),
        }
    }

    /// Takes out the tally that began first.
    pub fn take_first(&mut self) -> Option<RefusalCount>
        ensures { MatchOption result ((self.old ≡ []) × (self.new ≡ [])) (λ tally. self.old ≡ tally ∷ self.new) }
    {
        if self.tallies.is_empty() {
            None
        } else {
            Some(self.tallies.remove(0))
        }
    }
}
