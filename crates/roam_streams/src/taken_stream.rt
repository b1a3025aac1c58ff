//! A connection that a RADIUS client made: its packets go to the broker, and the broker's to it.

ghost use Rattle.std.specs.Prelude.{◌≡◌, ◌≤◌, length, slice_index, IfOk};
ghost use Rattle.roam_streams.specs.Requests.{way_of_code};
ghost use Rattle.roam_streams.specs.Streams.{kept_of, none_kept};
ghost use Rattle.roam_streams.specs.Waits.{none_waits};

use crate::front::{Front, is_packet};
use crate::identifier_waits::{IdentifierWaits, Way};
use crate::stream::Stream;
use crate::stream_fault::StreamFault;
use roam_wire::NoMemory;
use std::alloc::Allocator;

/// The code of an Accounting-Request (RFC 2866, section 3).
const ACCOUNTING_REQUEST: u8 = 4;

/// The time that a packet may be unfinished, in milliseconds.
const UNFINISHED: u64 = 10_000;

/// The next step with the packet at the front of a connection.
#[derive(Clone, Copy, Debug, PartialEq, Eq)]
pub enum Next {
    /// It is sent there.
    Send(Way),
    /// It waits, since its Identifier does.
    Wait,
    /// There is none.
    Nothing,
}

/// A connection that a RADIUS client made: its packets go to the broker, and the broker's to it.
pub struct TakenStream<A: Allocator> {
    stream: Stream<A>,
    waits: IdentifierWaits,
    /// The time when a packet was last sent on, or the connection was taken.
    packet_at: u64,
    /// Since when the packet at the front is unfinished.
    unfinished_since: Option<u64>,
}

// By hand, so that a proof sees one call wherever it ends, and the crates above prove nothing of it.
impl<A: Allocator> Drop for TakenStream<A> {
    fn drop(self) {
        let Self {
            stream,
            waits: _,
            packet_at: _,
            unfinished_since: _,
        } = self;
        drop(stream);
    }
}

/// Returns where in the broker a packet of this code goes.
fn way_of(code: u8) -> Way
    ensures { result ≡ way_of_code code }
{
    match code {
        ACCOUNTING_REQUEST => Way::Acct,
        _ => Way::Auth,
    }
}

/// A packet at the front: where it goes, its Identifier and its size in octets.
#[derive(Clone, Copy)]
struct Head {
    way: Way,
    id: u8,
    size: usize,
}

/// Reads the head of a packet at the front of octets.
fn head_of(octets: &[u8], size: usize) -> Head
    requires { 20 ≤ length octets.now }
    ensures way { result.way ≡ way_of_code (slice_index octets.now 0) }
    ensures id { result.id ≡ slice_index octets.now 1 }
    ensures size { result.size ≡ size }
{
    Head {
        way: way_of(octets[0]),
        id: octets[1],
        size,
    }
}

impl<A: Allocator + Copy> TakenStream<A> {
    /// Returns a connection that was taken at this moment, with memory for all that it may keep.
    pub fn new(alloc: A, now: u64) -> Result<TakenStream<A>, NoMemory>
        ensures kept { IfOk result (λ s. kept_of s.stream ≡ none_kept) }
        ensures waits { IfOk result (λ s. s.waits ≡ none_waits) }
        ensures packet_at { IfOk result (λ s. s.packet_at ≡ now) }
        ensures unfinished { IfOk result (λ s. s.unfinished_since ≡ None) }
    {
        Ok(TakenStream {
            stream: Stream::new(alloc)?,
            waits: IdentifierWaits::none(),
            packet_at: now,
            unfinished_since: None,
        })
    }
}

impl<A: Allocator> TakenStream<A> {
    ghost use Rattle.std.specs.Prelude.{◌↔◌, take, IsTrue, IfErr, OnOk, OnErr};
    ghost use Rattle.std.specs.Result.{IsErrOf};
    ghost use Rattle.roam_streams.specs.Cutting.{IsFaulty, IsFront, IsPacket};
    ghost use Rattle.roam_streams.specs.Requests.{GivesNext, IsSilent, unfinished_after};
    ghost use Rattle.roam_streams.specs.Streams.{IsStep, came, put, sent, wrote};
    ghost use Rattle.roam_streams.specs.Waits.{held_until, with_free_at};

    /// Takes octets that came.
    ///
    /// # Errors
    ///
    /// `NoMemory`, also where more than 20,479 would be kept: nothing is changed.
    pub fn take_in(&mut self, octets: &[u8]) -> Result<(), StreamFault>
        ensures ok { OnOk result (IsStep (came octets.now) (kept_of self.old.stream) (kept_of self.new.stream)) }
        ensures err { OnErr result (kept_of self.new.stream ≡ kept_of self.old.stream) }
        ensures waits { self.new.waits ≡ self.old.waits }
    {
        self.stream.take_in(octets)
    }

    /// Moves the packet at the front out of those that came, since it is sent at this moment.
    fn send_front(
        &mut self,
        head: Head,
        now: u64,
        packet: &mut Vec<u8, A>,
    ) -> Result<(), StreamFault>
        requires packet { IsFront self.old.stream.unsent (Front.Packet head.size) }
        ensures ok { OnOk result (IsStep (sent packet.new.items) (kept_of self.old.stream) (kept_of self.new.stream)) }
        ensures waits { OnOk result (self.new.waits ≡ with_free_at self.old.waits head.way head.id (held_until now)) }
        ensures times { OnOk result ((self.new.packet_at ≡ now) × (self.new.unfinished_since ≡ None)) }
        ensures err { OnErr result ((kept_of self.new.stream ≡ kept_of self.old.stream)
            × (self.new.waits ≡ self.old.waits)) }
        ensures cause { IfErr result (λ e. e ≡ StreamFault.NoMemory) }
    {
        self.stream.move_front(head.size, packet)?;
        self.waits.begin(head.way, head.id, now);
        self.packet_at = now;
        self.unfinished_since = None;
        Ok(())
    }

    /// Notes that the octets that came are less than a packet, where there are some.
    fn begin_unfinished(&mut self, now: u64)
        ensures kept { kept_of self.new.stream ≡ kept_of self.old.stream }
        ensures waits { self.new.waits ≡ self.old.waits }
        ensures packet_at { self.new.packet_at ≡ self.old.packet_at }
        ensures since { self.new.unfinished_since
            ≡ unfinished_after self.old.stream.unsent self.old.unfinished_since now }
    {
        self.unfinished_since = if self.stream.unsent().is_empty() {
            None
        } else {
            Some(self.unfinished_since.unwrap_or(now))
        };
    }

    /// Looks at the front, and moves the packet there out of those that came where it is to be sent at this moment.
    ///
    /// # Errors
    ///
    /// `Length`, where no packet can come any more; `NoMemory`. What is kept is unchanged.
    pub fn next(&mut self, now: u64, packet: &mut Vec<u8, A>) -> Result<Next, StreamFault>
        ensures ok { IfOk result (λ next. GivesNext now packet.new.items next
            (kept_of self.old.stream) (kept_of self.new.stream) self.old.waits self.new.waits) }
        ensures err { OnErr result ((kept_of self.new.stream ≡ kept_of self.old.stream)
            × (self.new.waits ≡ self.old.waits)) }
        ensures length { IsErrOf result StreamFault.Length ↔ IsFaulty self.old.stream.unsent }
    {
        match self.stream.front() {
            Front::Faulty => Err(StreamFault::Length),
            Front::Unfinished => {
                self.begin_unfinished(now);
                Ok(Next::Nothing)
            }
            Front::Packet(size) => {
                let head = head_of(self.stream.unsent(), size);
                if now < self.waits.free_at(head.way, head.id) {
                    return Ok(Next::Wait);
                }
                self.send_front(head, now, packet)?;
                Ok(Next::Send(head.way))
            }
        }
    }

    /// Takes a datagram that came from the broker: it is put to be written.
    ///
    /// # Errors
    ///
    /// `Place` where it isn't a packet; `Full`, `NoMemory`. What is kept is unchanged.
    pub fn reply(&mut self, way: Way, datagram: &[u8]) -> Result<(), StreamFault>
        ensures ok { OnOk result (IsPacket datagram.now
            × IsStep (put datagram.now) (kept_of self.old.stream) (kept_of self.new.stream)
            × (self.new.waits ≡ with_free_at self.old.waits way (slice_index datagram.now 1) 0)) }
        ensures err { OnErr result (kept_of self.new.stream ≡ kept_of self.old.stream) }
        ensures place { IsErrOf result StreamFault.Place ↔ (¬ (IsPacket datagram.now)) }
    {
        if !is_packet(datagram) {
            return Err(StreamFault::Place);
        }
        self.waits.end(way, datagram[1]);
        self.stream.put(datagram)
    }

    /// Returns the octets that are to be written.
    pub fn unwritten(&self) -> &[u8]
        ensures { result.now ≡ self.now.stream.unwritten }
    {
        self.stream.unwritten()
    }

    /// Removes the first octets to write, so many, which the system took.
    pub fn remove_written(&mut self, count: usize)
        ensures step { IsStep (wrote (take count self.old.stream.unwritten))
            (kept_of self.old.stream) (kept_of self.new.stream) }
        ensures waits { self.new.waits ≡ self.old.waits }
    {
        self.stream.remove_written(count);
    }

    /// Returns whether no packet came for `idle` milliseconds, or one is unfinished for 10,000 ms.
    pub fn is_silent(&self, now: u64, idle: u64) -> bool
        ensures { IsTrue result ↔ IsSilent now idle self.now.packet_at self.now.unfinished_since }
    {
        let is_idle = idle <= now.saturating_sub(self.packet_at);
        match self.unfinished_since {
            Some(since) => is_idle || UNFINISHED <= now.saturating_sub(since),
            None => is_idle,
        }
    }
}
