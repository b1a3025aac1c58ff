//! The metrics of how something stands at a moment.

use roam_counters::Subject;

/// A number that stands at a moment.
#[derive(Clone, Copy, PartialEq, Eq)]
pub enum Gauge {
    /// The requests of this realm that wait for a reply: as many Identifiers are in use.
    Waiting(u16),
    /// The replies of this realm that are held for duplicates.
    Held(u16),
    /// The sessions that are open in this realm's table.
    Sessions(u16),
    /// The Identifiers in use toward the `auth` endpoint of a home server, by the realm's index and its own.
    AuthInUse(u16, u8),
    /// The same of its `acct` endpoint.
    AcctInUse(u16, u8),
    /// The milliseconds for which its `auth` endpoint is dead still; 0 where it isn't.
    AuthRest(u16, u8),
    /// The same of its `acct` endpoint.
    AcctRest(u16, u8),
    /// The requests that were given up at its `auth` endpoint since a reply of it was last taken: at most 256.
    AuthUnanswered(u16, u8),
    /// The same of its `acct` endpoint.
    AcctUnanswered(u16, u8),
    /// The octets of the datagrams of all stored steps.
    HistoryOctets,
}

/// The metrics of such.
#[derive(Clone, Copy, PartialEq, Eq)]
pub(crate) enum OfGauges {
    Waiting,
    Held,
    Sessions,
    InUse,
    Rests,
    Unanswered,
}

/// All of them.
pub(crate) const OF_GAUGES: [OfGauges; 6] = [
    OfGauges::Waiting,
    OfGauges::Held,
    OfGauges::Sessions,
    OfGauges::InUse,
    OfGauges::Rests,
    OfGauges::Unanswered,
];

impl OfGauges {
    /// Returns the name of the metric.
    pub(crate) fn name(self) -> &'static str {
        match self {
            OfGauges::Waiting => "roam_realm_waiting_requests",
            OfGauges::Held => "roam_realm_held_replies",
            OfGauges::Sessions => "roam_realm_sessions",
            OfGauges::InUse => "roam_server_identifiers_in_use",
            OfGauges::Rests => "roam_server_rests",
            OfGauges::Unanswered => "roam_server_unanswered_requests",
        }
    }

    /// Returns what it means.
    pub(crate) fn help(self) -> &'static str {
        match self {
            OfGauges::Waiting => "Requests that wait for a reply: as many Identifiers are in use.",
            OfGauges::Held => "Replies that are held for duplicates of their requests.",
            OfGauges::Sessions => "Sessions in the session table.",
            OfGauges::InUse =>
                "Identifiers in use toward a home server's endpoint, of 256 for each out of its kind.",
            OfGauges::Rests => "1 while a home server's endpoint is marked dead, else 0.",
            OfGauges::Unanswered => {
                "Requests without an answer there since the last accepted reply, 256 at most."
            }
        }
    }

    /// Returns what is told of a realm.
    fn of_realm(self, realm: u16) -> Option<Gauge> {
        match self {
            OfGauges::Waiting => Some(Gauge::Waiting(realm)),
            OfGauges::Held => Some(Gauge::Held(realm)),
            OfGauges::Sessions => Some(Gauge::Sessions(realm)),
            OfGauges::InUse | OfGauges::Rests | OfGauges::Unanswered => None,
        }
    }

    /// Returns what is told of a home server: of its `auth` and of its `acct` endpoint.
    fn of_server(self, realm: u16, server: u8) -> [Option<Gauge>; 2] {
        match self {
            OfGauges::InUse => [
                Some(Gauge::AuthInUse(realm, server)),
                Some(Gauge::AcctInUse(realm, server)),
            ],
            OfGauges::Rests => [
                Some(Gauge::AuthRest(realm, server)),
                Some(Gauge::AcctRest(realm, server)),
            ],
            OfGauges::Unanswered => [
                Some(Gauge::AuthUnanswered(realm, server)),
                Some(Gauge::AcctUnanswered(realm, server)),
            ],
            OfGauges::Waiting | OfGauges::Held | OfGauges::Sessions => [None, None],
        }
    }

    /// Returns the value that a sample has: of `Rests` only whether there is one.
    pub(crate) fn sample(self, value: u64) -> u64 {
        match self {
            OfGauges::Rests => value.min(1),
            _ => value,
        }
    }

    /// Returns what is told of a subject: of a realm one thing, of a home server one for each of its endpoints.
    pub(crate) fn gauges(self, subject: Subject) -> [Option<Gauge>; 2] {
        match subject {
            Subject::Realm(realm) => [self.of_realm(realm), None],
            Subject::Server(realm, server) => self.of_server(realm, server),
            Subject::All | Subject::Peer(_) => [None, None],
        }
    }
}
