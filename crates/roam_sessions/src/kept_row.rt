//! Rows as the keys of a map. Their octets are hashed at once.

ghost use Rattle.std.proofs.Common.{ap};
ghost use Rattle.std.specs.Prelude.{nat_eq};
ghost use Rattle.std.specs.Cmp.{on_equiv, on_per, partial_equiv_from_equiv};
ghost use Rattle.std.specs.Cmp.Lexicographic.{bytes_decides, nat_list_eq_equiv, pointwise};
ghost use Rattle.roam_sessions.specs.Private.Row.{row_fed};

use indexmap::Equivalent;
use std::alloc::Allocator;
use std::hash::{Hash, Hasher};

/// A row with memory of its own.
#[derive(Drop)]
pub(crate) struct KeptRow<A: Allocator> {
    pub(crate) octets: Vec<u8, A>,
}

// By hand, since the derived ones want the allocator to be equal too.
impl<A: Allocator> PartialEq for KeptRow<A> {
    ghost eq = { λ x y. pointwise nat_eq x.octets.items y.octets.items };

    ghost laws = { on_per (λ x. x.octets.items) (partial_equiv_from_equiv nat_list_eq_equiv) };

    fn eq(&self, other: &KeptRow<A>) -> bool {
        self.octets.as_slice() == other.octets.as_slice()
    }
}

impl<A: Allocator> Eq for KeptRow<A> {
    ghost laws = { on_equiv (λ x. x.octets.items) nat_list_eq_equiv };
}

impl<A: Allocator> Hash for KeptRow<A> {
    ghost hash_input = { λ row. row_fed row.octets.items };

    ghost respects_eq = { λ x y same. ap row_fed ((bytes_decides x.octets.items y.octets.items).0 same) };

    fn hash<H: Hasher>(&self, state: &mut H) {
        state.write(self.octets.as_slice());
    }
}

/// A row where it lies, by which a map is asked.
#[derive(Clone, Copy, PartialEq, Eq)]
pub(crate) struct SoughtRow<'a> {
    pub(crate) octets: &'a [u8],
}

impl<'a> Hash for SoughtRow<'a> {
    ghost hash_input = { λ row. row_fed row.octets.now };

    ghost respects_eq = { λ x y same. ap row_fed ((bytes_decides x.octets.now y.octets.now).0 same) };

    fn hash<H: Hasher>(&self, state: &mut H) {
        state.write(self.octets);
    }
}

impl<'a, A: Allocator> Equivalent<KeptRow<A>> for SoughtRow<'a> {
    ghost equivalent = { λ row key. pointwise nat_eq row.octets.now key.octets.items };

    ghost respects_hash = { λ row key same. ap row_fed ((bytes_decides row.octets.now key.octets.items).0 same) };

    ghost respects_eq = { λ row x y. nat_list_eq_equiv.congr row.octets.now x.octets.items y.octets.items };

    fn equivalent(&self, key: &KeptRow<A>) -> bool {
        self.octets == key.octets.as_slice()
    }
}
