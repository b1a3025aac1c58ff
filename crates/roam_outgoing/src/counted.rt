//! The parts of packets that are seen where they are counted.

ghost use Rattle.std.specs.Prelude.{◌≡◌};
ghost use Rattle.roam_admission.specs.Shown.{shown_job};
ghost use Rattle.roam_outgoing.specs.Packets as spec;

use roam_admission::Job;
use roam_counters::CountedTurn;
use std::alloc::Global;

/// Returns the code of a packet (RFC 2865, section 3).
fn code_of(octets: &[u8]) -> u8
    ensures { result ≡ spec.code_of octets.now }
{
    match octets {
        [code, ..] => *code,
        [] => 0,
    }
}

/// Returns a job in the form in which it is counted.
pub fn turn_of(job: &Job<Global>) -> CountedTurn
    ensures { result ≡ spec.turn_of (shown_job job.now) }
{
    CountedTurn {
        realm: job.realm,
        side: job.side,
        code: code_of(job.octets.as_slice()),
        keeps_session: job.keeps_session,
    }
}
