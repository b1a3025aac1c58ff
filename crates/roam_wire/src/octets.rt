//! A list of octets on the heap.

ghost use Rattle.std.specs.Prelude.{◌≡◌, ℕ, List, length, IfOk};

use crate::refusal::NoMemory;
use std::alloc::Allocator;
use std::marker::Model;

/// A list of octets. Contracts see it as that list, and not as a `Vec` with its capacity and place.
pub struct Octets<A: Allocator> {
    octets: Vec<u8, A>,
}

// By hand, so that a proof sees one call wherever it ends, and the crates above prove nothing of it.
impl<A: Allocator> Drop for Octets<A> {
    fn drop(self) {
        let Self { octets } = self;
        drop(octets);
    }
}

impl<A: Allocator> Model for Octets<A> {
    ghost Value = { List ℕ };

    ghost view = { λ o. o.octets.items };
}

impl<A: Allocator> Octets<A> {
    /// Makes octets of a `Vec`. Takes no memory.
    pub fn from_vec(octets: Vec<u8, A>) -> Octets<A>
        ensures { result ≡ octets.items }
    {
        Octets { octets }
    }

    /// For tests. Returns the `Vec` again. Takes no memory.
    pub fn into_vec(self) -> Vec<u8, A>
        ensures { result.items ≡ self }
    {
        let Self { octets } = self;
        octets
    }

    /// Returns the octets where they lie.
    pub fn as_slice(&self) -> &[u8]
        ensures { result.now ≡ self.now }
    {
        self.octets.as_slice()
    }

    /// Returns how many there are.
    pub fn len(&self) -> usize
        ensures { result ≡ length self.now }
    {
        self.octets.len()
    }

    /// Makes a copy of these octets.
    pub fn copy_of(alloc: A, octets: &[u8]) -> Result<Octets<A>, NoMemory>
        ensures { IfOk result (λ o. o ≡ octets.now) }
    {
        let octets = Vec::from_slice(alloc, octets).map_err(|_| NoMemory)?;
        Ok(Octets { octets })
    }
}
