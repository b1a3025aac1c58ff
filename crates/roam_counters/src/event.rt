//! The events that are counted of a realm, a home server or a peer.

ghost use Rattle.std.specs.Prelude.{◌≡◌, ◌<◌};
ghost use Rattle.roam_counters.specs.Events as spec;

use crate::delay::Delay;
use crate::kinds::{NakCause, ReplyKind, RequestKind};
use roam_wire::Refusal;

/// The number of events that are told apart.
pub const EVENTS: usize = 103;

/// An event that is counted of a realm, a home server or a peer.
#[derive(Clone, Copy, PartialEq, Eq)]
pub enum CountedEvent {
    /// A request came that is for a realm.
    Request(RequestKind),
    /// A new request was forwarded.
    Forwarded(RequestKind),
    /// A request was sent to the same server again, since no reply came.
    SentAgain(RequestKind),
    /// A request came again that waits for its reply: nothing was sent.
    Waiting,
    /// A reply came that is for a realm.
    Reply(ReplyKind),
    /// The reply of a home server, or of a peer to a reverse request, was returned.
    Returned(ReplyKind),
    /// A request was answered at once: by the reply that is held for its duplicates, by a NAK or by the broker
    /// itself.
    Answered(ReplyKind),
    /// A reverse request was answered by a tick, since its time was over.
    AnsweredByTick(ReplyKind),
    /// Something was refused.
    Refused(Refusal),
    /// A request was sent here since another server kept silent.
    TakenOver(RequestKind),
    /// A server kept silent about a request, which was then sent to another one.
    FailedOver,
    /// A request was given up: no server was left for it.
    GivenUp,
    /// A request that waited made way for another one of the same source, port and Identifier.
    Replaced,
    /// A request that was answered came again: the reply that is held was sent once more.
    AnsweredAgain,
    /// The broker rejected a request by itself, before a realm was asked.
    LocalReject,
    /// The broker answered a reverse request by a NAK of its own.
    Nak(NakCause),
    /// A reply was taken that came within so long of its request's last sending.
    AnswerWithin(Delay),
    /// The time that all these took together, in milliseconds.
    AnswerTime,
    /// A request that waited was dropped where another configuration followed.
    DroppedRequest,
    /// A reply that was held for duplicates of its request was dropped there.
    DroppedReply,
    /// An open session was dropped there.
    DroppedSession,
    /// There was no memory for a session: the reply was returned without it.
    LostSession,
    /// A conversation was left: nobody went on from its last Challenge while that was held.
    Abandoned,
}

impl CountedEvent {
    /// Returns its place among all events.
    pub fn place(self) -> usize
        ensures value { result ≡ spec.event_place self }
        ensures below { result < 103 }
    {
        match self {
            CountedEvent::Request(kind) => kind.place(),
            CountedEvent::Forwarded(kind) => 4 + kind.place(),
            CountedEvent::SentAgain(kind) => 8 + kind.place(),
            CountedEvent::Waiting => 12,
            CountedEvent::Reply(kind) => 13 + kind.place(),
            CountedEvent::Returned(kind) => 21 + kind.place(),
            CountedEvent::Answered(kind) => 29 + kind.place(),
            CountedEvent::AnsweredByTick(kind) => 37 + kind.place(),
            CountedEvent::Refused(refusal) => 44 + usize::from(refusal.number()),
            CountedEvent::TakenOver(kind) => 74 + kind.place(),
            CountedEvent::FailedOver => 78,
            CountedEvent::GivenUp => 79,
            CountedEvent::Replaced => 80,
            CountedEvent::AnsweredAgain => 81,
            CountedEvent::LocalReject => 82,
            CountedEvent::Nak(cause) => 83 + cause.place(),
            CountedEvent::AnswerWithin(delay) => 89 + delay.place(),
            CountedEvent::AnswerTime => 97,
            CountedEvent::DroppedRequest => 98,
            CountedEvent::DroppedReply => 99,
            CountedEvent::DroppedSession => 100,
            CountedEvent::LostSession => 101,
            CountedEvent::Abandoned => 102,
        }
    }
}
