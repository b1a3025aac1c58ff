//! The octets of one connection: those that came and weren't sent on, and those that are to be written.

ghost use Rattle.std.specs.Prelude.{◌≡◌, ◌≤◌, length, take, IfOk, OnOk};

use crate::front::{Front, front_of};
use crate::octet_queue::OctetQueue;
use crate::stream_fault::StreamFault;
use roam_wire::NoMemory;
use std::alloc::Allocator;

/// The most octets that came and weren't sent on: a rest and a reading.
const MOST_UNSENT: usize = 20_479;

/// The most octets that are to be written.
const MOST_UNWRITTEN: usize = 65_536;

/// The octets of one connection: those that came and weren't sent on, and those that are to be written.
pub struct Stream<A: Allocator> {
    pub(crate) unsent: OctetQueue<A>,
    pub(crate) unwritten: OctetQueue<A>,
    ghost few_unsent: { length unsent ≤ 20479 },
    ghost few_unwritten: { length unwritten ≤ 65536 },
}

// By hand, so that a proof sees one call wherever it ends, and the crates above prove nothing of it.
impl<A: Allocator> Drop for Stream<A> {
    fn drop(self) {
        let Self { unsent, unwritten } = self;
        drop(unsent);
        drop(unwritten);
    }
}

/// Replaces octets by others.
fn replace<A: Allocator>(octets: &mut Vec<u8, A>, others: &[u8]) -> Result<(), NoMemory>
    ensures { OnOk result (octets.new.items ≡ others.now) }
{
    octets.clear();
    octets.extend_from_slice(others)?;
    Ok(())
}

/// Returns the first octets, so many.
fn first_octets(octets: &[u8], count: usize) -> &[u8]
    requires { count ≤ length octets.now }
    ensures { result.now ≡ take count octets.now }
{
    octets.split_at(count).0
}

impl<A: Allocator + Copy> Stream<A> {
    ghost use Rattle.roam_streams.specs.Streams.{kept_of, none_kept};

    /// Returns a stream on which nothing came and nothing is to be written. It has memory for all that it may keep.
    pub fn new(alloc: A) -> Result<Stream<A>, NoMemory>
        ensures { IfOk result (λ s. kept_of s ≡ none_kept) }
    {
        Ok(Stream {
            unsent: OctetQueue::with_capacity(alloc, MOST_UNSENT)?,
            unwritten: OctetQueue::with_capacity(alloc, MOST_UNWRITTEN)?,
        })
    }
}

impl<A: Allocator> Stream<A> {
    ghost use Rattle.std.specs.Prelude.{◌⊎◌, ◌↔◌, ◌+◌, ◌<◌, OnErr, IfErr};
    ghost use Rattle.std.specs.Result.{IsErrOf};
    ghost use Rattle.roam_streams.specs.Cutting.{IsFront};
    ghost use Rattle.roam_streams.specs.Streams.{IsStep, came, kept_of, put, sent, wrote};

    /// Returns the octets that came and weren't sent on.
    pub fn unsent(&self) -> &[u8]
        ensures { result.now ≡ self.now.unsent }
    {
        self.unsent.as_slice()
    }

    /// Returns the octets that are to be written.
    pub fn unwritten(&self) -> &[u8]
        ensures { result.now ≡ self.now.unwritten }
    {
        self.unwritten.as_slice()
    }

    /// Looks for a packet at the front of the octets that came and weren't sent on.
    pub fn front(&self) -> Front
        ensures { IsFront self.now.unsent result }
    {
        front_of(self.unsent.as_slice())
    }

    /// Takes octets that came.
    ///
    /// # Errors
    ///
    /// `NoMemory`, also where more than 20,479 would be kept: nothing is changed.
    pub fn take_in(&mut self, octets: &[u8]) -> Result<(), StreamFault>
        ensures ok { OnOk result (IsStep (came octets.now) (kept_of self.old) (kept_of self.new)) }
        ensures err { OnErr result (kept_of self.new ≡ kept_of self.old) }
        ensures cause { IfErr result (λ e. e ≡ StreamFault.NoMemory) }
    {
        if octets.len() > MOST_UNSENT - self.unsent.len() {
            return Err(StreamFault::NoMemory);
        }
        match self.unsent.push(octets) {
            Ok(()) => Ok(()),
            Err(_) => Err(StreamFault::NoMemory),
        }
    }

    /// Moves the packet at the front, of so many octets, out of those that came.
    ///
    /// # Errors
    ///
    /// `NoMemory`: nothing is changed.
    pub fn move_front(&mut self, size: usize, packet: &mut Vec<u8, A>) -> Result<(), StreamFault>
        requires { IsFront self.old.unsent (Front.Packet size) }
        ensures ok { OnOk result (IsStep (sent packet.new.items) (kept_of self.old) (kept_of self.new)) }
        ensures err { OnErr result (kept_of self.new ≡ kept_of self.old) }
        ensures cause { IfErr result (λ e. e ≡ StreamFault.NoMemory) }
    {
        match replace(packet, first_octets(self.unsent.as_slice(), size)) {
            Ok(()) => {
                self.unsent.remove(size);
                Ok(())
            }
            Err(_) => Err(StreamFault::NoMemory),
        }
    }

    /// Puts a packet behind those that are to be written.
    ///
    /// # Errors
    ///
    /// `Full` where more than 65,536 octets would be to be written; `NoMemory`. Nothing is changed.
    pub fn put(&mut self, packet: &[u8]) -> Result<(), StreamFault>
        ensures ok { OnOk result (IsStep (put packet.now) (kept_of self.old) (kept_of self.new)) }
        ensures err { OnErr result (kept_of self.new ≡ kept_of self.old) }
        ensures full { IsErrOf result StreamFault.Full ↔ (65536 < length self.old.unwritten + length packet.now) }
        ensures causes { IfErr result (λ e. (e ≡ StreamFault.Full) ⊎ (e ≡ StreamFault.NoMemory)) }
    {
        if packet.len() > MOST_UNWRITTEN - self.unwritten.len() {
            return Err(StreamFault::Full);
        }
        match self.unwritten.push(packet) {
            Ok(()) => Ok(()),
            Err(_) => Err(StreamFault::NoMemory),
        }
    }

    /// Removes the first octets to write, so many, which the system took.
    pub fn remove_written(&mut self, count: usize)
        ensures { IsStep (wrote (take count self.old.unwritten)) (kept_of self.old) (kept_of self.new) }
    {
        self.unwritten.remove(count);
    }
}
