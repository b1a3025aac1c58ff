//! The allocator that refuses one growth.

ghost use Rattle.std.specs.Prelude.{◌≡◌};

use crate::each_growth::EachGrowth;
use crate::plan::Plan;
use std::alloc::{AllocError, Allocator};
use std::cell::Cell;

/// An allocator that refuses the growth that a test names, and asks the one below for all others.
///
/// A growth is any block that is asked for: a first one, a larger or a smaller one.
#[derive(Drop)]
pub struct Refusing<B: Allocator> {
    inner: B,
    plan: Cell<Plan>,
}

impl<B: Allocator> Refusing<B> {
    /// Over `inner`, with no growth to be refused.
    pub fn new(inner: B) -> Refusing<B>
        ensures { result.inner ≡ inner }
    {
        Refusing {
            inner,
            plan: Cell::new(Plan::refuse(0)),
        }
    }

    /// Refuses the `n`-th growth that is asked for from now on, counted from 1, and that one alone.
    ///
    /// With 0 it refuses none. What was to be refused before is forgotten.
    pub fn refuse_nth(&self, n: u64) {
        self.plan.set(Plan::refuse(n));
    }

    /// Returns whether a growth was refused since the last `refuse_nth`.
    pub fn was_refused(&self) -> bool {
        self.plan.get().has_refused()
    }

    /// Returns how many growths were asked for since the last `refuse_nth`, the refused one among them.
    pub fn growths(&self) -> u64 {
        self.plan.get().asked
    }

    /// The runs in which each growth of a call is refused in turn, as the head of the crate shows.
    ///
    /// Each run begins with nothing to be refused, and says `refuse_nth(n)` before the call. The
    /// first run whose growth `n` isn't asked for is the last. A run that never says `refuse_nth`
    /// is followed by another, so the runs of a test that forgets it don't end.
    pub fn each_growth(&self) -> EachGrowth<'_, B>
        ensures { result.last ≡ 0 }
    {
        EachGrowth::new(self)
    }

    /// Returns whether a growth is to be refused that wasn't asked for.
    pub(crate) fn has_run_out(&self) -> bool {
        self.plan.get().has_run_out()
    }
}

/// Counts a growth, and says whether it is the one to be refused.
fn counts_refused(plan: &Cell<Plan>) -> bool {
    let now = plan.get().after_growth();
    plan.set(now);
    now.refuses_last()
}

unsafe impl<B: Allocator> Allocator for Refusing<B> {
    ghost dealloc_token = { λ heap ty ptr. B.dealloc_token heap.inner ty ptr };

    fn allocate(&self, size: usize, align: usize) -> Result<*mut u8, AllocError> {
        if counts_refused(&self.plan) {
            return Err(AllocError);
        }
        self.inner.allocate(size, align)
    }

    unsafe fn deallocate(&self, ptr: *mut u8, size: usize, align: usize) {
        self.inner.deallocate(ptr, size, align);
    }
}
