//! The event that a packet of a code is counted as, by what happened.

ghost use Rattle.std.specs.Prelude.{◌≡◌};
ghost use Rattle.roam_counters.specs.Increments as spec;

use crate::event::CountedEvent;
use crate::kinds::{NakCause, ReplyKind, RequestKind};
use roam_wire::code::{COA_REQUEST, DISCONNECT_REQUEST};

/// Returns the event that a request of this code was forwarded, sent again, or sent to another server.
pub(crate) fn forwarded(code: u8) -> Option<CountedEvent>
    ensures { result ≡ spec.forwarded_event code }
{
    match RequestKind::of(code) {
        Some(kind) => Some(CountedEvent::Forwarded(kind)),
        None => None,
    }
}

pub(crate) fn sent_again(code: u8) -> Option<CountedEvent>
    ensures { result ≡ spec.sent_again_event code }
{
    match RequestKind::of(code) {
        Some(kind) => Some(CountedEvent::SentAgain(kind)),
        None => None,
    }
}

pub(crate) fn taken_over(code: u8) -> Option<CountedEvent>
    ensures { result ≡ spec.taken_over_event code }
{
    match RequestKind::of(code) {
        Some(kind) => Some(CountedEvent::TakenOver(kind)),
        None => None,
    }
}

/// Returns the event that a reply of this code was returned, or that it answered a request at once.
pub(crate) fn returned(code: u8) -> Option<CountedEvent>
    ensures { result ≡ spec.returned_event code }
{
    match ReplyKind::of(code) {
        Some(kind) => Some(CountedEvent::Returned(kind)),
        None => None,
    }
}

pub(crate) fn answered(code: u8) -> Option<CountedEvent>
    ensures { result ≡ spec.answered_event code }
{
    match ReplyKind::of(code) {
        Some(kind) => Some(CountedEvent::Answered(kind)),
        None => None,
    }
}

/// Returns the NAK that answers a Disconnect- or CoA-Request of this code (RFC 5176, section 3).
fn nak_for(code: u8) -> Option<ReplyKind>
    ensures { result ≡ spec.nak_for code }
{
    match code {
        DISCONNECT_REQUEST => Some(ReplyKind::DisconnectNak),
        COA_REQUEST => Some(ReplyKind::CoaNak),
        _ => None,
    }
}

/// Returns the event that such a NAK answered it at once, or in a tick.
pub(crate) fn nak_at_once(code: u8) -> Option<CountedEvent>
    ensures { result ≡ spec.nak_at_once code }
{
    match nak_for(code) {
        Some(kind) => Some(CountedEvent::Answered(kind)),
        None => None,
    }
}

pub(crate) fn nak_by_tick(code: u8) -> Option<CountedEvent>
    ensures { result ≡ spec.nak_by_tick code }
{
    match nak_for(code) {
        Some(kind) => Some(CountedEvent::AnsweredByTick(kind)),
        None => None,
    }
}

/// Returns why it did.
pub(crate) fn nak_cause(cause: u32) -> Option<CountedEvent>
    ensures { result ≡ spec.nak_cause cause }
{
    match NakCause::of(cause) {
        Some(cause) => Some(CountedEvent::Nak(cause)),
        None => None,
    }
}
