//! The runs in which each growth of a call is refused in turn.

ghost use Rattle.test_support.specs.Refusal.{IsNextRun};
ghost use Rattle.std.specs.Iterator.{at_most};
ghost use Rattle.std.specs.Prelude.{◌≡◌, ◌-◌, ◌^◌};

use crate::refusing::Refusing;
use std::alloc::Allocator;

/// The numbers 1, 2, .. of the growths to be refused, up to the run that meets no refusal.
///
/// Made by [`Refusing::each_growth`].
#[derive(Drop)]
pub struct EachGrowth<'a, B: Allocator> {
    refusing: &'a Refusing<B>,
    /// The last run's number, and 0 before the first.
    last: u64,
}

impl<'a, B: Allocator> EachGrowth<'a, B> {
    pub(crate) fn new(refusing: &'a Refusing<B>) -> EachGrowth<'a, B>
        ensures { result.last ≡ 0 }
    {
        EachGrowth { refusing, last: 0 }
    }
}

impl<'a, B: Allocator> Iterator for EachGrowth<'a, B> {
    type Item = u64;

    ghost next_gives = { λ old result new. IsNextRun old.last result new.last };

    ghost remaining = { λ runs. at_most (2 ^ 64 - 1 - runs.last) };

    /// The next run's number, where the run before it met its refusal. The first always comes.
    fn next(&mut self) -> Option<u64> {
        let is_over = self.last > 0 && self.refusing.has_run_out();
        self.refusing.refuse_nth(0);
        if is_over || self.last == u64::MAX {
            return None;
        }
        self.last += 1;
        Some(self.last)
    }
}
