//! Ends of exchanges that are told together, where they are alike and come within a second.

ghost use Rattle.std.specs.Prelude.{◌≡◌, ◌<◌, ◌↔◌, ◌∷◌, [], IsTrue, IfOk, IfSome, IfNone, All, MatchOption, length};
ghost use Rattle.std.specs.Prelude.{slice_set};
ghost use Rattle.roam_log.specs.Folded.{EndAlike, IsAlike, IsCounted, line_at, once_more};

use crate::details::is_same;
use crate::exchange::Exchange;
use std::alloc::{AllocError, Global};
use std::marker::Model;

/// The number of lines that tell of such ends within a second. All others stand in one line more.
const LINES: usize = 8;

/// Returns whether two requests of the same peer ended in the same way and for the same cause, in the same realm.
fn end_alike(a: &Exchange, b: &Exchange) -> bool
    ensures { IsTrue result ↔ EndAlike a.now b.now }
{
    a.outcome == b.outcome && a.why == b.why && a.realm == b.realm && a.peer == b.peer
}

/// Returns whether they did, and have the same User-Name, the same Calling-Station-Id and the same details.
fn is_alike(a: &Exchange, b: &Exchange) -> bool
    ensures { IsTrue result ↔ IsAlike a.now b.now }
{
    end_alike(a, b)
        && is_same(&a.user, &b.user)
        && is_same(&a.station, &b.station)
        && a.details.are_same(&b.details)
}

/// Ends of exchanges, of one kind, that are told together. A contract sees their lines, in the order in which they
/// began: at most eight, each of requests that are alike, and behind them one of all others.
#[derive(Drop)]
pub struct FoldedLines {
    lines: Vec<Exchange>,
}

impl Model for FoldedLines {
    ghost use Rattle.std.specs.Prelude.{List, ◌≤◌, vec_len, vec_capacity};
    ghost use Rattle.roam_log.specs.declared.exchange.Exchange.{Exchange};

    ghost Value = { List Exchange };

    ghost view = { λ folded. folded.lines.items };

    ghost invariant = { λ folded. (vec_len folded.lines ≤ 9) × (9 ≤ vec_capacity folded.lines) };
}

impl FoldedLines {
    /// Makes the lines where nothing has ended.
    pub fn new(alloc: Global) -> Result<FoldedLines, AllocError>
        ensures { IfOk result (λ folded. folded ≡ []) }
    {
        Ok(FoldedLines {
            lines: Vec::with_capacity(alloc, LINES + 1)?,
        })
    }

    /// Finds the place of the line of requests that are like this one.
    fn place_of(&self, exchange: &Exchange) -> Option<usize>
        ensures found { IfSome result (λ i. (i < length self.now) × IsAlike (line_at self.now i) exchange.now) }
        ensures none { IfNone result (All (λ line. ¬ (IsAlike line exchange.now)) self.now) }
    {
        for (i, line) in self.lines.iter().enumerate() {
            if is_alike(line, exchange) {
                return Some(i);
            }
        }
        None
    }

    /// Counts one more in the line of this place.
    fn count_at(&mut self, at: usize)
        requires { at < length self.old }
        ensures { self.new ≡ slice_set self.old at (once_more (line_at self.old at)) }
    {
        self.lines[at].count_one();
    }

    /// Counts one more: in the line of those that are like it; else in a new one, where fewer than eight stand here;
    /// else in that of all others. Takes no memory.
    pub fn count(&mut self, exchange: &Exchange)
        ensures { IsCounted exchange.now self.old self.new }
    {
        let len = self.lines.len();
        match self.place_of(exchange) {
            Some(at) => self.count_at(at),
            None if len < LINES => self.lines.push_reserved(*exchange),
            None if len == LINES => self.lines.push_reserved(Exchange::unsaid(exchange.outcome)),
            None => self.count_at(LINES),
        }
    }

    /// Takes out the line that began first.
    pub fn take_first(&mut self) -> Option<Exchange>
        ensures { MatchOption result ((self.old ≡ []) × (self.new ≡ [])) (λ line. self.old ≡ line ∷ self.new) }
    {
        if self.lines.is_empty() {
            None
        } else {
            Some(self.lines.remove(0))
        }
    }
}
