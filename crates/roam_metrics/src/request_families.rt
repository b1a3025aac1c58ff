//! The counts of requests.

use crate::family::Family;
use roam_counters::{CountedEvent, RequestKind};

pub const CAME: Family = Family {
    realm: "roam_realm_requests_total",
    server: "roam_server_requests_total",
    peer: "roam_peer_requests_total",
    help: "Requests that passed all checks.",
    label: Some("code"),
    samples: &[
        ("access_request", CountedEvent::Request(RequestKind::Access)),
        (
            "accounting_request",
            CountedEvent::Request(RequestKind::Accounting),
        ),
        (
            "disconnect_request",
            CountedEvent::Request(RequestKind::Disconnect),
        ),
        ("coa_request", CountedEvent::Request(RequestKind::Coa)),
    ],
};

pub const FORWARDED: Family = Family {
    realm: "roam_realm_forwarded_total",
    server: "roam_server_forwarded_total",
    peer: "roam_peer_forwarded_total",
    help: "New requests that were forwarded.",
    label: Some("code"),
    samples: &[
        (
            "access_request",
            CountedEvent::Forwarded(RequestKind::Access),
        ),
        (
            "accounting_request",
            CountedEvent::Forwarded(RequestKind::Accounting),
        ),
        (
            "disconnect_request",
            CountedEvent::Forwarded(RequestKind::Disconnect),
        ),
        ("coa_request", CountedEvent::Forwarded(RequestKind::Coa)),
    ],
};

pub const SENT_AGAIN: Family = Family {
    realm: "roam_realm_sent_again_total",
    server: "roam_server_sent_again_total",
    peer: "roam_peer_sent_again_total",
    help: "Requests sent again to the same server, since no reply came.",
    label: Some("code"),
    samples: &[
        (
            "access_request",
            CountedEvent::SentAgain(RequestKind::Access),
        ),
        (
            "accounting_request",
            CountedEvent::SentAgain(RequestKind::Accounting),
        ),
        (
            "disconnect_request",
            CountedEvent::SentAgain(RequestKind::Disconnect),
        ),
        ("coa_request", CountedEvent::SentAgain(RequestKind::Coa)),
    ],
};

pub const TAKEN_OVER: Family = Family {
    realm: "roam_realm_taken_over_total",
    server: "roam_server_taken_over_total",
    peer: "roam_peer_taken_over_total",
    help: "Requests sent to this server since another one did not answer.",
    label: Some("code"),
    samples: &[
        (
            "access_request",
            CountedEvent::TakenOver(RequestKind::Access),
        ),
        (
            "accounting_request",
            CountedEvent::TakenOver(RequestKind::Accounting),
        ),
        (
            "disconnect_request",
            CountedEvent::TakenOver(RequestKind::Disconnect),
        ),
        ("coa_request", CountedEvent::TakenOver(RequestKind::Coa)),
    ],
};

pub(crate) const WAITING: Family = Family {
    realm: "roam_realm_waiting_duplicates_total",
    server: "roam_server_waiting_duplicates_total",
    peer: "roam_peer_waiting_duplicates_total",
    help: "Requests that came again while the first one waited: nothing was sent.",
    label: None,
    samples: &[("", CountedEvent::Waiting)],
};

pub(crate) const ANSWERED_AGAIN: Family = Family {
    realm: "roam_realm_answered_duplicates_total",
    server: "roam_server_answered_duplicates_total",
    peer: "roam_peer_answered_duplicates_total",
    help: "Requests that came again: the held reply was sent once more.",
    label: None,
    samples: &[("", CountedEvent::AnsweredAgain)],
};

pub(crate) const FAILED_OVER: Family = Family {
    realm: "roam_realm_failed_over_total",
    server: "roam_server_failed_over_total",
    peer: "roam_peer_failed_over_total",
    help: "Requests that a server left without an answer, and that went to another one.",
    label: None,
    samples: &[("", CountedEvent::FailedOver)],
};

pub(crate) const GIVEN_UP: Family = Family {
    realm: "roam_realm_given_up_total",
    server: "roam_server_given_up_total",
    peer: "roam_peer_given_up_total",
    help: "Requests that no server answered in time.",
    label: None,
    samples: &[("", CountedEvent::GivenUp)],
};

pub(crate) const ABANDONED: Family = Family {
    realm: "roam_realm_abandoned_total",
    server: "roam_server_abandoned_total",
    peer: "roam_peer_abandoned_total",
    help: "Logins that stopped midway: no request followed the last Access-Challenge within hold.",
    label: None,
    samples: &[("", CountedEvent::Abandoned)],
};

pub(crate) const REPLACED: Family = Family {
    realm: "roam_realm_replaced_total",
    server: "roam_server_replaced_total",
    peer: "roam_peer_replaced_total",
    help: "Waiting requests that were replaced by another of the same source, port and Identifier.",
    label: None,
    samples: &[("", CountedEvent::Replaced)],
};

pub(crate) const DROPPED: Family = Family {
    realm: "roam_realm_dropped_total",
    server: "roam_server_dropped_total",
    peer: "roam_peer_dropped_total",
    help: "Waiting requests that a reload with --lose dropped.",
    label: None,
    samples: &[("", CountedEvent::DroppedRequest)],
};

pub(crate) const DROPPED_REPLIES: Family = Family {
    realm: "roam_realm_dropped_replies_total",
    server: "roam_server_dropped_replies_total",
    peer: "roam_peer_dropped_replies_total",
    help: "Held replies that a reload with --lose dropped.",
    label: None,
    samples: &[("", CountedEvent::DroppedReply)],
};

pub(crate) const DROPPED_SESSIONS: Family = Family {
    realm: "roam_realm_dropped_sessions_total",
    server: "roam_server_dropped_sessions_total",
    peer: "roam_peer_dropped_sessions_total",
    help: "Open sessions that a reload with --lose dropped.",
    label: None,
    samples: &[("", CountedEvent::DroppedSession)],
};

pub(crate) const LOST_SESSIONS: Family = Family {
    realm: "roam_realm_lost_sessions_total",
    server: "roam_server_lost_sessions_total",
    peer: "roam_peer_lost_sessions_total",
    help: "Sessions for which there was no memory: the Accounting-Response was returned without them.",
    label: None,
    samples: &[("", CountedEvent::LostSession)],
};

pub(crate) const LOCAL_REJECTS: Family = Family {
    realm: "roam_realm_local_rejects_total",
    server: "roam_server_local_rejects_total",
    peer: "roam_peer_local_rejects_total",
    help: "Access-Requests that the proxy rejected before a home server was asked.",
    label: None,
    samples: &[("", CountedEvent::LocalReject)],
};
