//! The refusals within a second, by number.

ghost use Rattle.std.specs.Prelude.{◌≡◌, ◌≢◌, ◌<◌, ℕ, ◌∷◌, [], IfOk, IfSome, IfNone, length, replicate};
ghost use Rattle.roam_log.specs.Repeats.{AreEmptyBelow, IsFirstRow, all_tallies, row_at, row_of};
ghost use Rattle.roam_log.specs.Tallies.{IsNoted};

use crate::origin::Origin;
use crate::row::Row;
use crate::tally::RefusalCount;
use roam_wire::Refusal;
use std::alloc::{AllocError, Global};
use std::marker::Model;

/// The number of numbers that refusals have.
const NUMBERS: usize = 29;

/// The refusals within a second. A contract sees a row of tallies for each number, from 1 to 29.
#[derive(Drop)]
pub struct Repeats {
    rows: Vec<Row>,
}

impl Model for Repeats {
    ghost use Rattle.std.specs.Prelude.{◌≡◌, List, vec_len};
    ghost use Rattle.roam_log.specs.declared.tally.RefusalCount.{RefusalCount};

    ghost Value = { List (List RefusalCount) };

    ghost view = { λ repeats. repeats.rows.items };

    ghost invariant = { λ repeats. vec_len repeats.rows ≡ 29 };
}

impl Repeats {
    /// Makes the rows where nothing was refused.
    pub fn new(alloc: Global) -> Result<Repeats, AllocError>
        ensures { IfOk result (λ repeats. repeats ≡ replicate 29 []) }
    {
        let mut rows = Vec::new(alloc);
        for _ in 0..NUMBERS {
            rows.push(Row::new(alloc)?)?;
        }
        Ok(Repeats { rows })
    }

    /// Counts one more refusal, among those of its number: those of other numbers stay as they are.
    pub fn note(&mut self, refusal: Refusal, origin: Origin)
        ensures row { IsNoted refusal origin (row_at self.old (row_of refusal))
            (row_at self.new (row_of refusal)) }
        ensures other { (i : ℕ) → i ≢ row_of refusal
            → row_at self.new i ≡ row_at self.old i }
        ensures rows { length self.new ≡ length self.old }
    {
        let row = usize::from(refusal.number() - 1);
        self.rows[row].note(refusal, origin);
    }

    /// Finds the first row in which something was refused.
    fn first_row(&self) -> Option<usize>
        ensures first { IfSome result (λ i. IsFirstRow self.now i) }
        ensures none { IfNone result (AreEmptyBelow self.now (length self.now)) }
    {
        for i in 0..self.rows.len() {
            if !self.rows[i].is_empty() {
                return Some(i);
            }
        }
        None
    }

    /// Takes out the tally that is told first.
    pub fn take_first(&mut self) -> Option<RefusalCount>
        ensures some { IfSome result (λ tally. all_tallies self.old ≡ tally ∷ all_tallies self.new) }
        ensures none { IfNone result ((all_tallies self.old ≡ []) × (self.new ≡ self.old)) }
    {
        match self.first_row() {
            Some(row) => self.rows[row].take_first(),
            None => None,
        }
    }
}
