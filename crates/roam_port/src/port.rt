//! The interface of a socket.

use roam_conf::{Endpoint, Place};

/// A receive failed.
#[derive(Clone, Copy, PartialEq, Eq)]
pub struct PortFault;

/// The cause why a packet isn't sent.
#[derive(Clone, Copy, PartialEq, Eq)]
pub enum SendFault {
    /// The socket has no room for it now.
    WouldBlock,
    /// There is no way to its destination.
    Unreachable,
    /// The system doesn't permit it.
    NotPermitted,
    /// Any other reason.
    Other,
}

/// A socket for datagrams, of the system or of a test; or several, from each of which a packet of its place is sent.
pub trait Port {
    ghost use Rattle.std.specs.Prelude.{◌≤◌, List, Option, IfOk, IfSome, length};
    ghost use Rattle.roam_port.specs.Port.{PortCall, IsOneCall, receive_call, send_call};

    /// Every call so far with its answer, the oldest first; none where no account is kept of them,
    /// as at a socket of the system.
    ghost calls: { Self → Option (List PortCall) };

    /// Says that from one state to another just this send was made, with its answer.
    ghost hands: { Self → Self → PortCall → Type 0 };

    /// Receives a datagram into the front of the buffer: its size in octets and its source, or none
    /// where none is there.
    fn receive(&mut self, buffer: &mut [u8]) -> Result<Option<(usize, Endpoint)>, PortFault>
        ensures within { IfOk result (λ got. IfSome got (λ g. g.0 ≤ length buffer.new)) }
        ensures call { IsOneCall (calls self.old) (calls self.new)
            (receive_call result buffer.new) };

    /// Sends these octets as one datagram, from the socket of a place, where there are several.
    fn send(&mut self, from: Place, to: Endpoint, octets: &[u8]) -> Result<(), SendFault>
        ensures { hands self.old self.new (send_call result from to octets.now) };
}
