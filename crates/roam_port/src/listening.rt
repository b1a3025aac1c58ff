//! One receive at a socket.

ghost use Rattle.std.specs.Prelude.{◌≤◌};
ghost use Rattle.roam_port.specs.Listening.{Listens, IsHeard, shown_heard};
ghost use Rattle.roam_port.specs.Port.{receive_failed};
ghost use Rattle.roam_conf.specs.declared.place.Place.{Place};

use crate::{FAULTS_TO_GIVE_UP, Heard, Port};
use roam_admission::Datagram;
use roam_conf::Place;
use roam_wire::Octets;
use std::alloc::Allocator;
use std::mem;

/// Receives once at the socket of a place, and counts the receives that failed in a row.
///
/// A receive that doesn't fail sets the count to 0. What comes stays where it was received: the datagram takes the
/// buffer's block along, and the buffer is empty until it is given one again. Takes no memory.
pub fn listen<P: Port, A: Allocator>(
    alloc: A,
    port: &mut P,
    at: Place,
    buffer: &mut Vec<u8, A>,
    faults: &mut u32,
) -> Heard<A>
    requires { faults.old ≤ FAULTS_TO_GIVE_UP }
    ensures bound { faults.new ≤ FAULTS_TO_GIVE_UP }
    ensures listens { Listens (P.calls port.old) (P.calls port.new) at
        faults.old faults.new result }
{
    match port.receive(buffer.as_mut_slice()) {
        Err(_) => after_fault(faults),
        Ok(None) => {
            *faults = 0;
            Heard::Nothing
        }
        Ok(Some((size, from))) => {
            *faults = 0;
            let mut octets = mem::replace(buffer, Vec::new(alloc));
            octets.truncate(size);
            Heard::Datagram(Datagram {
                at,
                from,
                octets: Octets::from_vec(octets),
                seconds: None,
                keeps_session: true,
            })
        }
    }
}

/// Counts a receive that failed.
fn after_fault<A: Allocator>(faults: &mut u32) -> Heard<A>
    requires { faults.old ≤ FAULTS_TO_GIVE_UP }
    ensures bound { faults.new ≤ FAULTS_TO_GIVE_UP }
    ensures heard { (at : Place)
        → IsHeard receive_failed at faults.old faults.new (shown_heard result) }
{
    *faults = (*faults + 1).min(FAULTS_TO_GIVE_UP);
    if *faults == FAULTS_TO_GIVE_UP {
        Heard::GiveUp
    } else {
        Heard::Nothing
    }
}
