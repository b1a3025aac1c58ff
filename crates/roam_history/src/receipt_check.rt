//! The check that receipts stand in what was recorded.

ghost use Rattle.std.specs.Prelude.{◌≡◌, ◌↔◌, IsTrue, Some, false, slice_get};
ghost use Rattle.std.specs.List.{All};
ghost use Rattle.roam_history.specs.Entries.{steps_in};
ghost use Rattle.roam_history.specs.Shown.{recorded, shown_receipt, shown_receipts, shown_step};
ghost use Rattle.roam_history.specs.Audit.{Stands, are_of_one_call};
ghost use Rattle.roam_history.specs.Findings.{IsRightAfter, FindsWrong};

use crate::audit_fault::AuditFault;
use crate::front::Front;
use crate::opened::Opened;
use crate::receipt::Receipt;
use crate::report::Report;
use std::alloc::Allocator;

/// Returns whether two receipts are of one call.
fn are_of_one_call<A: Allocator, N: Opened>(one: &Receipt<A, N>, other: &Receipt<A, N>) -> bool
    ensures { result ≡ are_of_one_call (shown_receipt one.now) (shown_receipt other.now) }
{
    one.shard == other.shard && one.number == other.number
}

/// Returns whether none of these receipts is of the call of another one.
fn is_alone<A: Allocator, N: Opened>(before: &[Receipt<A, N>], receipt: &Receipt<A, N>) -> bool
    ensures { IsTrue result ↔ All (λ earlier. are_of_one_call (shown_receipt earlier)
        (shown_receipt receipt.now) ≡ false) before.now }
{
    before
        .iter()
        .all(|earlier| !are_of_one_call(earlier, receipt))
}

/// Returns whether a receipt stands in the whole history of its shard. What it has seen of that history begins
/// the whole, so it does; or the whole begins that, and its number tells.
fn stands_in<A: Allocator, N: Opened>(receipt: &Receipt<A, N>, whole: &Front<N>) -> bool
    requires { whole.now.shard ≡ receipt.now.shard }
    ensures { IsTrue result ↔ (slice_get (steps_in whole.now.entries) receipt.now.number
        ≡ Some (shown_step receipt.now)) }
{
    if receipt.front.begins(whole) {
        return true;
    }
    receipt.number < whole.len()
}

impl<A: Allocator, N: Opened> Report<A, N> {
    /// Returns whether a receipt's shard has its step at its number.
    fn has(&self, receipt: &Receipt<A, N>) -> bool
        ensures { IsTrue result ↔ Stands (recorded self.now) (shown_receipt receipt.now) }
    {
        match self.fronts.get(usize::from(receipt.shard)) {
            Some(whole) => stands_in(receipt, whole),
            None => false,
        }
    }

    /// Returns whether a receipt is right after others.
    fn is_right(&self, before: &[Receipt<A, N>], receipt: &Receipt<A, N>) -> bool
        ensures { IsTrue result ↔ IsRightAfter (recorded self.now) (shown_receipts before.now)
            (shown_receipt receipt.now) }
    {
        self.has(receipt) && is_alone(before, receipt)
    }

    /// Compares each receipt in turn with the steps, and with the receipts before it.
    pub(crate) fn check_receipts(&self, receipts: &[Receipt<A, N>]) -> Result<(), AuditFault>
        ensures { FindsWrong (recorded self.now) (shown_receipts receipts.now) result }
    {
        for place in 0..receipts.len() {
            let receipt = &receipts[place];
            if !self.is_right(receipts.split_at(place).0, receipt) {
                return Err(AuditFault::Receipt {
                    shard: receipt.shard,
                    number: receipt.number,
                });
            }
        }
        Ok(())
    }
}
