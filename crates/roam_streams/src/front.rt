//! The front of the octets that came on a stream: a packet, or none (RFC 6613, section 2.6.4; RFC 2865, section 3).

ghost use Rattle.std.specs.Prelude.{◌≡◌, ◌≤◌, ◌↔◌, length, IsTrue};
ghost use Rattle.roam_wire.specs.Reading.{length_field};
ghost use Rattle.roam_streams.specs.Cutting.{IsFront, IsPacket};

/// The octets of a packet's Code, Identifier and Length.
const BEGINNING: usize = 4;

/// The fewest octets that a packet has (RFC 2865, section 3).
const LEAST: usize = 20;

/// The most octets that a packet has (RFC 2865, section 3).
const MOST: usize = 4096;

/// The front of octets.
#[derive(Clone, Copy, Debug, PartialEq, Eq)]
pub enum Front {
    /// A whole packet, of so many octets.
    Packet(usize),
    /// Less than a packet.
    Unfinished,
    /// A Length that no packet has.
    Faulty,
}

/// Reads the Length of a packet that begins so.
fn length_of(octets: &[u8]) -> usize
    requires { 4 ≤ length octets.now }
    ensures value { result ≡ length_field octets.now }
    ensures small { result ≤ 65535 }
{
    usize::from(octets[2]) * 256 + usize::from(octets[3])
}

/// Looks for a packet at the front.
pub fn front_of(octets: &[u8]) -> Front
    ensures { IsFront octets.now result }
{
    if octets.len() < BEGINNING {
        return Front::Unfinished;
    }
    let size = length_of(octets);
    if size < LEAST || size > MOST {
        return Front::Faulty;
    }
    if octets.len() < size {
        Front::Unfinished
    } else {
        Front::Packet(size)
    }
}

/// Returns whether these octets are one packet, as many as its Length says.
pub fn is_packet(octets: &[u8]) -> bool
    ensures { IsTrue result ↔ IsPacket octets.now }
{
    LEAST <= octets.len() && octets.len() <= MOST && length_of(octets) == octets.len()
}
