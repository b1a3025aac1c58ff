//! The datagrams that are requests, and the jobs that may lose their session.

ghost use Rattle.std.specs.Prelude.{◌≡◌};
ghost use Rattle.roam_admission.specs.Shown.{shown_job};
ghost use Rattle.roam_workers.specs.Requests as requests;

use roam_admission::Job;
use roam_conf::Place;
use roam_wire::code::{
    ACCESS_REQUEST, ACCOUNTING_REQUEST, ACCOUNTING_RESPONSE, COA_REQUEST, DISCONNECT_REQUEST,
    STATUS_SERVER,
};
use std::alloc::Global;

/// Returns whether a datagram is a request, by its code (RFC 2865 section 3, RFC 5997 section 3, RFC 5176 section
/// 2.3).
pub fn is_request(octets: &[u8]) -> bool
    ensures { result ≡ requests.is_request octets.now }
{
    match octets.first() {
        Some(code) => {
            *code == ACCESS_REQUEST
                || *code == ACCOUNTING_REQUEST
                || *code == STATUS_SERVER
                || *code == DISCONNECT_REQUEST
                || *code == COA_REQUEST
        }
        None => false,
    }
}

/// Returns whether a job may be taken without its session: an Accounting-Response that came from a home server.
pub(crate) fn may_lose_session(job: &Job<Global>) -> bool
    ensures { result ≡ requests.may_lose_session (shown_job job.now) }
{
    match (job.place, job.octets.as_slice()) {
        (Place::Out(_, _), [code, ..]) => *code == ACCOUNTING_RESPONSE,
        _ => false,
    }
}
