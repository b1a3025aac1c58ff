//! A connection toward a home server: a realm's requests go to it, and its replies to the realm.

ghost use Rattle.std.specs.Prelude.{◌≡◌, ◌≤◌, ◌↔◌, length, take, drop, IsTrue, IfOk};
ghost use Rattle.roam_streams.specs.Requests.{IsRequest, IsRequestCode, destination_of_code, none_put};
ghost use Rattle.roam_streams.specs.Streams.{kept_of, none_kept};

use crate::front::{Front, is_packet};
use crate::stream::Stream;
use crate::stream_fault::StreamFault;
use roam_wire::NoMemory;
use std::alloc::Allocator;

/// The code of an Access-Request (RFC 2865, section 4.1).
const ACCESS_REQUEST: u8 = 1;

/// The code of an Accounting-Request (RFC 2866, section 4.1).
const ACCOUNTING_REQUEST: u8 = 4;

/// The code of a Disconnect-Request (RFC 5176, section 3).
const DISCONNECT_REQUEST: u8 = 40;

/// The code of a CoA-Request (RFC 5176, section 3).
const COA_REQUEST: u8 = 43;

/// The destination of a packet of a home server.
#[derive(Clone, Copy, Debug, PartialEq, Eq)]
pub enum Destination {
    /// The realm's socket from which its requests come.
    Out,
    /// The realm's socket for Disconnect- and CoA-Requests.
    Reverse,
}

/// A connection toward a home server: a realm's requests go to it, and its replies to the realm.
pub struct DialedStream<A: Allocator> {
    stream: Stream<A>,
    /// The Authenticator of the last request with each Identifier that was put.
    last: [Option<[u8; 16]>; 256],
    /// The time when the first packet was put after octets came last.
    awaited_since: Option<u64>,
}

// By hand, so that a proof sees one call wherever it ends, and the crates above prove nothing of it.
impl<A: Allocator> Drop for DialedStream<A> {
    fn drop(self) {
        let Self {
            stream,
            last: _,
            awaited_since: _,
        } = self;
        drop(stream);
    }
}

/// Returns where a packet of this code goes that a home server sent.
fn destination_of(code: u8) -> Destination
    ensures { result ≡ destination_of_code code }
{
    match code {
        DISCONNECT_REQUEST | COA_REQUEST => Destination::Reverse,
        _ => Destination::Out,
    }
}

/// Returns whether a code is one of requests that go to a home server.
fn is_request(code: u8) -> bool
    ensures { IsTrue result ↔ IsRequestCode code }
{
    code == ACCESS_REQUEST || code == ACCOUNTING_REQUEST
}

/// Returns whether octets are a request that goes to a home server.
pub fn is_request_packet(datagram: &[u8]) -> bool
    ensures { IsTrue result ↔ IsRequest datagram.now }
{
    is_packet(datagram) && is_request(datagram[0])
}

/// Returns the Authenticator of a packet (RFC 2865, section 3).
fn authenticator_of(packet: &[u8]) -> [u8; 16]
    requires { 20 ≤ length packet.now }
    ensures { result ≡ take 16 (drop 4 packet.now) }
{
    let mut authenticator = [0; 16];
    authenticator.copy_from_slice(&packet[4..20]);
    authenticator
}

impl<A: Allocator + Copy> DialedStream<A> {
    /// Returns a connection that was just dialed, with memory for all that it may keep.
    pub fn new(alloc: A) -> Result<DialedStream<A>, NoMemory>
        ensures kept { IfOk result (λ s. kept_of s.stream ≡ none_kept) }
        ensures last { IfOk result (λ s. s.last ≡ none_put) }
        ensures awaited { IfOk result (λ s. s.awaited_since ≡ None) }
    {
        Ok(DialedStream {
            stream: Stream::new(alloc)?,
            last: [None; 256],
            awaited_since: None,
        })
    }
}

impl<A: Allocator> DialedStream<A> {
    ghost use Rattle.std.specs.Prelude.{◌⊎◌, ◌-◌, OnOk, OnErr, IfErr, unwrap_or};
    ghost use Rattle.std.specs.Result.{IsErrOf};
    ghost use Rattle.roam_streams.specs.Cutting.{IsFaulty, IsPacket};
    ghost use Rattle.roam_streams.specs.Requests.{GivesNextReply, IsAwaited, PutsRequest, last_at};
    ghost use Rattle.roam_streams.specs.Streams.{IsStep, came, put, wrote};

    /// Takes octets that came: none is awaited from then on.
    ///
    /// # Errors
    ///
    /// `NoMemory`, also where more than 20,479 would be kept: what is kept is unchanged.
    pub fn take_in(&mut self, octets: &[u8]) -> Result<(), StreamFault>
        ensures ok { OnOk result (IsStep (came octets.now) (kept_of self.old.stream) (kept_of self.new.stream)) }
        ensures err { OnErr result (kept_of self.new.stream ≡ kept_of self.old.stream) }
        ensures last { self.new.last ≡ self.old.last }
        ensures awaited { self.new.awaited_since ≡ None }
    {
        self.awaited_since = None;
        self.stream.take_in(octets)
    }

    /// Moves the packet at the front out of those that came, and says where it goes. `None` where there is none.
    ///
    /// # Errors
    ///
    /// `Length`, where no packet can come any more; `NoMemory`. Nothing is changed.
    pub fn next(&mut self, packet: &mut Vec<u8, A>) -> Result<Option<Destination>, StreamFault>
        ensures ok { IfOk result (λ next. GivesNextReply packet.new.items next
            (kept_of self.old.stream) (kept_of self.new.stream)) }
        ensures err { OnErr result (kept_of self.new.stream ≡ kept_of self.old.stream) }
        ensures length { IsErrOf result StreamFault.Length ↔ IsFaulty self.old.stream.unsent }
        ensures last { self.new.last ≡ self.old.last }
        ensures awaited { self.new.awaited_since ≡ self.old.awaited_since }
    {
        match self.stream.front() {
            Front::Faulty => Err(StreamFault::Length),
            Front::Unfinished => Ok(None),
            Front::Packet(size) => {
                let destination = destination_of(self.stream.unsent()[0]);
                self.stream.move_front(size, packet)?;
                Ok(Some(destination))
            }
        }
    }

    /// Puts a packet to be written; octets are awaited from then on, where they aren't already.
    fn put(&mut self, packet: &[u8], now: u64) -> Result<(), StreamFault>
        ensures ok { OnOk result (IsStep (put packet.now) (kept_of self.old.stream) (kept_of self.new.stream)) }
        ensures awaited { OnOk result (self.new.awaited_since ≡ Some (unwrap_or self.old.awaited_since now)) }
        ensures err { OnErr result (kept_of self.new.stream ≡ kept_of self.old.stream) }
        ensures causes { IfErr result (λ e. (e ≡ StreamFault.Full) ⊎ (e ≡ StreamFault.NoMemory)) }
        ensures last { self.new.last ≡ self.old.last }
    {
        self.stream.put(packet)?;
        self.awaited_since = Some(self.awaited_since.unwrap_or(now));
        Ok(())
    }

    /// Returns whether a request is the last one with its Identifier that was put.
    fn is_put(&self, id: u8, authenticator: [u8; 16]) -> bool
        ensures { IsTrue result ↔ (last_at self.now.last id ≡ Some authenticator) }
    {
        match self.last[usize::from(id)] {
            Some(last) => last == authenticator,
            None => false,
        }
    }

    /// Takes a request that came from the realm: it is put to be written where the last one with its Identifier that
    /// was put on this connection had another Authenticator (RFC 6613, section 2.6.1). Answers whether it was put.
    ///
    /// # Errors
    ///
    /// `Place` where it isn't a packet of code 1 or 4; `Full`, `NoMemory`. What is kept is unchanged.
    pub fn put_request(&mut self, datagram: &[u8], now: u64) -> Result<bool, StreamFault>
        ensures ok { IfOk result (λ is_put. PutsRequest datagram.now is_put
            (kept_of self.old.stream) (kept_of self.new.stream) self.old.last self.new.last) }
        ensures err { OnErr result ((kept_of self.new.stream ≡ kept_of self.old.stream)
            × (self.new.last ≡ self.old.last)) }
        ensures place { IsErrOf result StreamFault.Place ↔ (¬ (IsRequest datagram.now)) }
    {
        if !is_request_packet(datagram) {
            return Err(StreamFault::Place);
        }
        let id = datagram[1];
        let authenticator = authenticator_of(datagram);
        if self.is_put(id, authenticator) {
            return Ok(false);
        }
        self.put(datagram, now)?;
        self.last[usize::from(id)] = Some(authenticator);
        Ok(true)
    }

    /// Takes an answer to a Disconnect- or CoA-Request that came from the realm: it is put to be written.
    ///
    /// # Errors
    ///
    /// `Place` where it isn't a packet; `Full`, `NoMemory`. What is kept is unchanged.
    pub fn put_answer(&mut self, datagram: &[u8], now: u64) -> Result<(), StreamFault>
        ensures ok { OnOk result (IsPacket datagram.now
            × IsStep (put datagram.now) (kept_of self.old.stream) (kept_of self.new.stream)) }
        ensures err { OnErr result (kept_of self.new.stream ≡ kept_of self.old.stream) }
        ensures place { IsErrOf result StreamFault.Place ↔ (¬ (IsPacket datagram.now)) }
        ensures last { self.new.last ≡ self.old.last }
    {
        if !is_packet(datagram) {
            return Err(StreamFault::Place);
        }
        self.put(datagram, now)
    }

    /// Returns the octets that are to be written.
    pub fn unwritten(&self) -> &[u8]
        ensures { result.now ≡ self.now.stream.unwritten }
    {
        self.stream.unwritten()
    }

    /// Removes the first octets to write, so many, which the system took.
    pub fn remove_written(&mut self, count: usize)
        ensures step { IsStep (wrote (take count self.old.stream.unwritten))
            (kept_of self.old.stream) (kept_of self.new.stream) }
        ensures last { self.new.last ≡ self.old.last }
    {
        self.stream.remove_written(count);
    }

    /// Returns whether octets are awaited for `silence` milliseconds.
    pub fn is_silent(&self, now: u64, silence: u64) -> bool
        ensures { IsTrue result ↔ IsAwaited self.now.awaited_since now silence }
    {
        match self.awaited_since {
            Some(since) => silence <= now.saturating_sub(since),
            None => false,
        }
    }
}
