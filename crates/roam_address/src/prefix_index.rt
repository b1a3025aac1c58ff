//! The longest prefix that has an address, at a cost that doesn't grow with the number of prefixes.

ghost use Rattle.std.specs.Prelude.{◌≡◌, ◌≤◌};
ghost use Rattle.roam_address.specs.Keys.{slot, AreMarked};

use crate::{Address, Leading, Prefix};
use indexmap::IndexSet;
use std::alloc::{AllocError, Allocator};
use std::hash::{BuildHasherDefault, FoldHasher};

/// The number of pairs of a kind and a length: 33 of IPv4 and 129 of IPv6.
const LENGTHS: usize = 162;

/// Returns where it is marked that a prefix of this kind and length is there.
fn slot(is_ipv6: bool, length: u8) -> usize
    ensures { result ≡ slot is_ipv6 length }
{
    if is_ipv6 {
        33 + length as usize
    } else {
        length as usize
    }
}

/// The bits of a list of prefixes, none of them twice. It owns no prefix: each is meant by its place in the list.
#[derive(Drop)]
pub struct PrefixIndex<A: Allocator + Copy> {
    /// In the order of the list.
    keys: IndexSet<Leading, BuildHasherDefault<FoldHasher>, A>,
    /// Of which kinds and lengths there are prefixes: those of another aren't looked for.
    lengths: [bool; LENGTHS],
    ghost marked: { AreMarked lengths keys.keys },
}

impl<A: Allocator + Copy> PrefixIndex<A> {
    ghost use Rattle.std.specs.Prelude.{List, IfOk, MatchOption};
    ghost use Rattle.std.specs.Net.Addr.{is_ipv6};
    ghost use Rattle.roam_address.specs.Addresses.{ip_of};
    ghost use Rattle.roam_address.specs.Bits.{width, leading};
    ghost use Rattle.roam_address.specs.declared.prefix.Prefix.{Prefix};
    ghost use Rattle.roam_address.specs.Keys.{marks_of, count_marked};
    ghost use Rattle.roam_address.specs.Longest.{IsLongestMatch, HasTwice};
    ghost use Rattle.roam_address.specs.Stands.{StandsFor, place_of, marks};

    /// Makes the index of these prefixes. Returns `None` where two of them are the same.
    pub fn new(alloc: A, prefixes: &[Prefix]) -> Result<Option<PrefixIndex<A>>, AllocError>
        ensures { IfOk result (λ made. MatchOption made (HasTwice prefixes.now)
            (λ index. StandsFor index prefixes.now × (¬ (HasTwice prefixes.now)))) }
    {
        let mut keys = IndexSet::new(alloc);
        let mut lengths = [false; LENGTHS];
        for prefix in prefixes {
            let key = prefix.leading();
            lengths[slot(key.is_ipv6, key.length)] = true;
            if !keys.insert(key)? {
                return Ok(None);
            }
        }
        Ok(Some(PrefixIndex { keys, lengths }))
    }

    /// Finds the place of the prefix that is just the leftmost `length` bits of the address.
    fn place_of(&self, address: Address, length: u8) -> Option<usize>
        requires { length ≤ width (ip_of address) }
        ensures { result ≡ place_of self.now (leading length (ip_of address)) }
    {
        if !self.lengths[slot(address.is_ipv6(), length)] {
            return None;
        }
        self.keys.get_index_of(&Leading::of(address, length))
    }

    /// Finds the place of the longest prefix that has the address. Each length for which there is a prefix of its
    /// kind costs one look-up.
    pub fn longest(&self, address: Address) -> Option<usize>
        ensures { (prefixes : List Prefix) → StandsFor self.now prefixes → IsLongestMatch prefixes address result }
    {
        for behind in 0..address.width() + 1 {
            if let Some(place) = self.place_of(address, address.width() - behind) {
                return Some(place);
            }
        }
        None
    }

    /// For tests. Counts the look-ups that an address of a kind costs at most: one for each length of which there is
    /// a prefix.
    pub fn look_ups(&self, of_ipv6: bool) -> usize
        ensures { result ≡ count_marked (marks_of (marks self.now) of_ipv6) }
    {
        let marks = if of_ipv6 {
            &self.lengths[33..]
        } else {
            &self.lengths[..33]
        };
        marks.iter().filter(|mark| **mark).count()
    }
}
