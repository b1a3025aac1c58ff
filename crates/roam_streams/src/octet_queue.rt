//! Octets in a row: further ones come behind them, and the first ones go.

ghost use Rattle.std.specs.Prelude.{◌≡◌, ◌≤◌, ℕ, List, length, drop};
ghost use Rattle.std.specs.Vec.{vec_len};

use roam_wire::NoMemory;
use std::alloc::Allocator;
use std::marker::Model;

/// Octets in a row. Contracts see them as a list.
pub struct OctetQueue<A: Allocator> {
    octets: Vec<u8, A>,
    /// The number of these that are gone.
    gone: usize,
}

// By hand, so that a proof sees one call wherever it ends, and the crates above prove nothing of it.
impl<A: Allocator> Drop for OctetQueue<A> {
    fn drop(self) {
        let Self { octets, gone: _ } = self;
        drop(octets);
    }
}

impl<A: Allocator> Model for OctetQueue<A> {
    ghost Value = { List ℕ };

    ghost view = { λ q. drop q.gone q.octets.items };

    ghost invariant = { λ q. q.gone ≤ vec_len q.octets };
}

/// Removes the first octets, without giving memory back.
fn remove_first<A: Allocator>(octets: &mut Vec<u8, A>, count: usize)
    requires { count ≤ vec_len octets.old }
    ensures { octets.new.items ≡ drop count octets.old.items }
{
    let left = octets.len() - count;
    octets.copy_within(count.., 0);
    octets.truncate(left);
}

/// Returns the octets from an index on.
fn octets_from(octets: &[u8], start: usize) -> &[u8]
    requires { start ≤ length octets.now }
    ensures { result.now ≡ drop start octets.now }
{
    octets.split_at(start).1
}

impl<A: Allocator> OctetQueue<A> {
    ghost use Rattle.std.specs.Prelude.{[], ◌++◌, IfOk, OnOk, OnErr};

    /// Returns a queue without octets, with memory for so many.
    pub fn with_capacity(alloc: A, capacity: usize) -> Result<OctetQueue<A>, NoMemory>
        ensures { IfOk result (λ q. q ≡ []) }
    {
        Ok(OctetQueue {
            octets: Vec::with_capacity(alloc, capacity)?,
            gone: 0,
        })
    }

    /// Returns the octets where they lie.
    pub fn as_slice(&self) -> &[u8]
        ensures { result.now ≡ self.now }
    {
        octets_from(self.octets.as_slice(), self.gone)
    }

    /// Returns how many there are.
    pub fn len(&self) -> usize
        ensures { result ≡ length self.now }
    {
        self.octets.len() - self.gone
    }

    /// Adds octets behind the others.
    pub fn push(&mut self, octets: &[u8]) -> Result<(), NoMemory>
        ensures ok { OnOk result (self.new ≡ self.old ++ octets.now) }
        ensures err { OnErr result (self.new ≡ self.old) }
    {
        remove_first(&mut self.octets, self.gone);
        self.gone = 0;
        self.octets.extend_from_slice(octets)?;
        Ok(())
    }

    /// Removes the first octets, all where there are no more than so many.
    pub fn remove(&mut self, count: usize)
        ensures { self.new ≡ drop count self.old }
    {
        let left = self.octets.len() - self.gone;
        self.gone += count.min(left);
    }
}
