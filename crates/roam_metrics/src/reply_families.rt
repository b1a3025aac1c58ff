//! The counts of replies, answers and refusals. The numbers of the refusals are compared with `roam_wire`'s by
//! `tools/lists.py`.

use crate::family::Family;
use roam_counters::{CountedEvent, NakCause, ReplyKind};
use roam_wire::Refusal;

pub const REPLIES: Family = Family {
    realm: "roam_realm_replies_total",
    server: "roam_server_replies_total",
    peer: "roam_peer_replies_total",
    help: "Replies that came, accepted or dropped.",
    label: Some("code"),
    samples: &[
        (
            "access_accept",
            CountedEvent::Reply(ReplyKind::AccessAccept),
        ),
        (
            "access_reject",
            CountedEvent::Reply(ReplyKind::AccessReject),
        ),
        (
            "access_challenge",
            CountedEvent::Reply(ReplyKind::AccessChallenge),
        ),
        (
            "accounting_response",
            CountedEvent::Reply(ReplyKind::AccountingResponse),
        ),
        (
            "disconnect_ack",
            CountedEvent::Reply(ReplyKind::DisconnectAck),
        ),
        (
            "disconnect_nak",
            CountedEvent::Reply(ReplyKind::DisconnectNak),
        ),
        ("coa_ack", CountedEvent::Reply(ReplyKind::CoaAck)),
        ("coa_nak", CountedEvent::Reply(ReplyKind::CoaNak)),
    ],
};

pub const RETURNED: Family = Family {
    realm: "roam_realm_returned_total",
    server: "roam_server_returned_total",
    peer: "roam_peer_returned_total",
    help: "Replies accepted and returned.",
    label: Some("code"),
    samples: &[
        (
            "access_accept",
            CountedEvent::Returned(ReplyKind::AccessAccept),
        ),
        (
            "access_reject",
            CountedEvent::Returned(ReplyKind::AccessReject),
        ),
        (
            "access_challenge",
            CountedEvent::Returned(ReplyKind::AccessChallenge),
        ),
        (
            "accounting_response",
            CountedEvent::Returned(ReplyKind::AccountingResponse),
        ),
        (
            "disconnect_ack",
            CountedEvent::Returned(ReplyKind::DisconnectAck),
        ),
        (
            "disconnect_nak",
            CountedEvent::Returned(ReplyKind::DisconnectNak),
        ),
        ("coa_ack", CountedEvent::Returned(ReplyKind::CoaAck)),
        ("coa_nak", CountedEvent::Returned(ReplyKind::CoaNak)),
    ],
};

pub(crate) const ANSWERED: Family = Family {
    realm: "roam_realm_answered_total",
    server: "roam_server_answered_total",
    peer: "roam_peer_answered_total",
    help: "Requests answered at once: duplicates by a held reply, NAKs, and the proxy's own answers.",
    label: Some("code"),
    samples: &[
        (
            "access_accept",
            CountedEvent::Answered(ReplyKind::AccessAccept),
        ),
        (
            "access_reject",
            CountedEvent::Answered(ReplyKind::AccessReject),
        ),
        (
            "access_challenge",
            CountedEvent::Answered(ReplyKind::AccessChallenge),
        ),
        (
            "accounting_response",
            CountedEvent::Answered(ReplyKind::AccountingResponse),
        ),
        (
            "disconnect_ack",
            CountedEvent::Answered(ReplyKind::DisconnectAck),
        ),
        (
            "disconnect_nak",
            CountedEvent::Answered(ReplyKind::DisconnectNak),
        ),
        ("coa_ack", CountedEvent::Answered(ReplyKind::CoaAck)),
        ("coa_nak", CountedEvent::Answered(ReplyKind::CoaNak)),
    ],
};

pub(crate) const ANSWERED_BY_TICK: Family = Family {
    realm: "roam_realm_answered_by_tick_total",
    server: "roam_server_answered_by_tick_total",
    peer: "roam_peer_answered_by_tick_total",
    help: "Disconnect- and CoA-Requests that were given up.",
    label: Some("code"),
    samples: &[
        (
            "access_accept",
            CountedEvent::AnsweredByTick(ReplyKind::AccessAccept),
        ),
        (
            "access_reject",
            CountedEvent::AnsweredByTick(ReplyKind::AccessReject),
        ),
        (
            "access_challenge",
            CountedEvent::AnsweredByTick(ReplyKind::AccessChallenge),
        ),
        (
            "accounting_response",
            CountedEvent::AnsweredByTick(ReplyKind::AccountingResponse),
        ),
        (
            "disconnect_ack",
            CountedEvent::AnsweredByTick(ReplyKind::DisconnectAck),
        ),
        (
            "disconnect_nak",
            CountedEvent::AnsweredByTick(ReplyKind::DisconnectNak),
        ),
        ("coa_ack", CountedEvent::AnsweredByTick(ReplyKind::CoaAck)),
        ("coa_nak", CountedEvent::AnsweredByTick(ReplyKind::CoaNak)),
    ],
};

pub(crate) const NAKS: Family = Family {
    realm: "roam_realm_naks_total",
    server: "roam_server_naks_total",
    peer: "roam_peer_naks_total",
    help: "Disconnect- and CoA-Requests that the proxy answered with a NAK of its own.",
    label: Some("error_cause"),
    samples: &[
        ("401", CountedEvent::Nak(NakCause::UnsupportedAttribute)),
        ("404", CountedEvent::Nak(NakCause::InvalidRequest)),
        ("502", CountedEvent::Nak(NakCause::RequestNotRoutable)),
        ("503", CountedEvent::Nak(NakCause::SessionNotFound)),
        (
            "505",
            CountedEvent::Nak(NakCause::OtherProxyProcessingError),
        ),
        ("508", CountedEvent::Nak(NakCause::MultipleSessions)),
    ],
};

pub const REFUSED: Family = Family {
    realm: "roam_realm_refusals_total",
    server: "roam_server_refusals_total",
    peer: "roam_peer_refusals_total",
    help: "Datagrams that were dropped, by the number of the refusal.",
    label: Some("number"),
    samples: &[
        ("1", CountedEvent::Refused(Refusal::Short)),
        ("2", CountedEvent::Refused(Refusal::BadLength)),
        ("3", CountedEvent::Refused(Refusal::BadAttribute)),
        ("4", CountedEvent::Refused(Refusal::UnknownSource)),
        ("5", CountedEvent::Refused(Refusal::WrongCode)),
        ("6", CountedEvent::Refused(Refusal::BadAuthenticator)),
        ("7", CountedEvent::Refused(Refusal::BadMessageAuthenticator)),
        (
            "8",
            CountedEvent::Refused(Refusal::MissingMessageAuthenticator),
        ),
        ("9", CountedEvent::Refused(Refusal::NoRealm)),
        ("10", CountedEvent::Refused(Refusal::TooLong)),
        ("11", CountedEvent::Refused(Refusal::Exhausted)),
        ("12", CountedEvent::Refused(Refusal::NoIdentifier)),
        ("13", CountedEvent::Refused(Refusal::Busy)),
        ("14", CountedEvent::Refused(Refusal::NoEntry)),
        ("15", CountedEvent::Refused(Refusal::WrongReply)),
        ("16", CountedEvent::Refused(Refusal::BadReply)),
        (
            "17",
            CountedEvent::Refused(Refusal::BadReplyMessageAuthenticator),
        ),
        ("18", CountedEvent::Refused(Refusal::ReplyTooLong)),
        ("19", CountedEvent::Refused(Refusal::Moment)),
        ("20", CountedEvent::Refused(Refusal::NoShard)),
        ("21", CountedEvent::Refused(Refusal::NoMemory)),
        ("22", CountedEvent::Refused(Refusal::TraceFull)),
        ("23", CountedEvent::Refused(Refusal::Misplaced)),
        ("24", CountedEvent::Refused(Refusal::TooManyHops)),
        ("25", CountedEvent::Refused(Refusal::NotForPeer)),
        ("26", CountedEvent::Refused(Refusal::AccountingDropped)),
        ("27", CountedEvent::Refused(Refusal::ShareTaken)),
        ("28", CountedEvent::Refused(Refusal::TooManyAttributes)),
        ("29", CountedEvent::Refused(Refusal::Stale)),
    ],
};
