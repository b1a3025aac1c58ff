//! The totals of a realm, a home server or a peer, of requests and replies of all kinds.

use crate::servers::Seen;
use crate::{
    CAME, Counts, FORWARDED, Family, Gauge, REFUSED, REPLIES, RETURNED, SENT_AGAIN, TAKEN_OVER,
};
use roam_counters::{CountedEvent, ReplyKind, RequestKind, Subject};

/// The totals of a realm, a home server or a peer.
#[derive(Clone, Copy)]
pub struct Totals {
    pub requests: u64,
    pub forwarded: u64,
    pub sent_again: u64,
    pub taken_over: u64,
    pub failed_over: u64,
    pub given_up: u64,
    pub abandoned: u64,
    pub duplicates: u64,
    pub replies: u64,
    pub returned: u64,
    pub local_rejects: u64,
    pub refused: u64,
}

/// Returns how often all of a family was counted.
fn sum_of<C: Counts>(counts: &C, subject: Subject, family: &Family) -> u64 {
    let mut sum = 0u64;
    for (_, event) in family.samples {
        sum = sum.wrapping_add(counts.event(subject, *event));
    }
    sum
}

/// Returns whether an event is of a peer's own request: not of a Disconnect or CoA that went to it.
fn is_own(event: CountedEvent) -> bool {
    !matches!(
        event,
        CountedEvent::Request(RequestKind::Disconnect | RequestKind::Coa)
            | CountedEvent::Forwarded(RequestKind::Disconnect | RequestKind::Coa)
            | CountedEvent::Returned(
                ReplyKind::DisconnectAck
                    | ReplyKind::DisconnectNak
                    | ReplyKind::CoaAck
                    | ReplyKind::CoaNak
            )
    )
}

/// Returns how often what is a peer's own was counted of a family.
fn own_sum_of<C: Counts>(counts: &C, subject: Subject, family: &Family) -> u64 {
    let mut sum = 0u64;
    for (_, event) in family.samples {
        if is_own(*event) {
            sum = sum.wrapping_add(counts.event(subject, *event));
        }
    }
    sum
}

impl Totals {
    /// Returns those of a peer, of its own requests: those that were rejected here are requests too, and what went to
    /// it is none.
    pub fn of_peer<C: Counts>(counts: &C, peer: u16) -> Totals {
        let subject = Subject::Peer(peer);
        let mut totals = Totals::of(counts, subject);
        totals.requests = own_sum_of(counts, subject, &CAME).wrapping_add(totals.local_rejects);
        totals.forwarded = own_sum_of(counts, subject, &FORWARDED);
        totals.returned = own_sum_of(counts, subject, &RETURNED);
        totals
    }

    /// Returns the totals of a subject.
    pub fn of<C: Counts>(counts: &C, subject: Subject) -> Totals {
        Totals {
            requests: sum_of(counts, subject, &CAME),
            forwarded: sum_of(counts, subject, &FORWARDED),
            sent_again: sum_of(counts, subject, &SENT_AGAIN),
            taken_over: sum_of(counts, subject, &TAKEN_OVER),
            failed_over: counts.event(subject, CountedEvent::FailedOver),
            given_up: counts.event(subject, CountedEvent::GivenUp),
            abandoned: counts.event(subject, CountedEvent::Abandoned),
            duplicates: counts
                .event(subject, CountedEvent::Waiting)
                .wrapping_add(counts.event(subject, CountedEvent::AnsweredAgain)),
            replies: sum_of(counts, subject, &REPLIES),
            returned: sum_of(counts, subject, &RETURNED),
            local_rejects: counts.event(subject, CountedEvent::LocalReject),
            refused: sum_of(counts, subject, &REFUSED),
        }
    }
}

/// The endpoint of a home server that is meant.
#[derive(Clone, Copy, PartialEq, Eq)]
pub enum Service {
    Auth,
    Acct,
}

impl Service {
    /// Returns the kind of the requests that go there.
    fn request(self) -> RequestKind {
        match self {
            Service::Auth => RequestKind::Access,
            Service::Acct => RequestKind::Accounting,
        }
    }

    /// Returns the kinds of the replies that come from there.
    fn replies(self) -> &'static [ReplyKind] {
        match self {
            Service::Auth => &[
                ReplyKind::AccessAccept,
                ReplyKind::AccessReject,
                ReplyKind::AccessChallenge,
            ],
            Service::Acct => &[ReplyKind::AccountingResponse],
        }
    }

    /// Returns how long it rests.
    fn rest(self, realm: u16, server: u8) -> Gauge {
        match self {
            Service::Auth => Gauge::AuthRest(realm, server),
            Service::Acct => Gauge::AcctRest(realm, server),
        }
    }

    /// Returns how many requests it left without an answer.
    fn unanswered(self, realm: u16, server: u8) -> Gauge {
        match self {
            Service::Auth => Gauge::AuthUnanswered(realm, server),
            Service::Acct => Gauge::AcctUnanswered(realm, server),
        }
    }

    /// Returns how many Identifiers are in use toward it.
    pub fn in_use(self, realm: u16, server: u8) -> Gauge {
        match self {
            Service::Auth => Gauge::AuthInUse(realm, server),
            Service::Acct => Gauge::AcctInUse(realm, server),
        }
    }

    /// Returns how many of its replies came, and how many were taken.
    fn count_replies<C: Counts>(self, counts: &C, subject: Subject) -> (u64, u64) {
        let mut came = 0u64;
        let mut taken = 0u64;
        for kind in self.replies() {
            came = came.wrapping_add(counts.event(subject, CountedEvent::Reply(*kind)));
            taken = taken.wrapping_add(counts.event(subject, CountedEvent::Returned(*kind)));
        }
        (came, taken)
    }

    /// Returns how many packets were sent there.
    fn count_asked<C: Counts>(self, counts: &C, subject: Subject) -> u64 {
        let kind = self.request();
        counts
            .event(subject, CountedEvent::Forwarded(kind))
            .wrapping_add(counts.event(subject, CountedEvent::SentAgain(kind)))
            .wrapping_add(counts.event(subject, CountedEvent::TakenOver(kind)))
    }

    /// Returns counts of the packets that were sent there: new requests, those that were sent again, and those that
    /// another server left; and of the replies from there: all, and those that weren't taken.
    pub fn totals<C: Counts>(self, counts: &C, realm: u16, server: u8) -> [u64; 5] {
        let subject = Subject::Server(realm, server);
        let kind = self.request();
        let (replied, taken) = self.count_replies(counts, subject);
        [
            counts.event(subject, CountedEvent::Forwarded(kind)),
            counts.event(subject, CountedEvent::SentAgain(kind)),
            counts.event(subject, CountedEvent::TakenOver(kind)),
            replied,
            replied.saturating_sub(taken),
        ]
    }

    /// Returns what was seen of it.
    pub fn seen<C: Counts>(self, counts: &C, realm: u16, server: u8) -> Seen {
        let subject = Subject::Server(realm, server);
        let (replied, taken) = self.count_replies(counts, subject);
        Seen {
            rest: counts.gauge(self.rest(realm, server)).unwrap_or(0),
            unanswered: counts.gauge(self.unanswered(realm, server)).unwrap_or(0),
            asked: self.count_asked(counts, subject),
            replied,
            taken,
        }
    }
}
