//! The number of packets that may wait for one port.

ghost use Rattle.std.specs.Prelude.{◌≡◌, ◌≤◌};
ghost use Rattle.roam_port.specs.Sharing as spec;

/// The number of packets that may wait for one port at most.
pub const GREATEST_SHARE: usize = 256;

/// The number that may wait for each, however many ports there are.
pub const LEAST_SHARE: usize = 32;

/// The number of places that the ports share, where they are not so many that each has the least share.
pub const PLACES: usize = 65536;

/// Returns how many packets may wait for each port, of so many ports.
pub fn share_of(ports: usize) -> usize
    ensures value { result ≡ spec.share_of ports }
    ensures least { LEAST_SHARE ≤ result }
    ensures greatest { result ≤ GREATEST_SHARE }
{
    LEAST_SHARE.max(GREATEST_SHARE.min(PLACES / ports.max(1)))
}
