//! The advice on what is legal in a configuration, and unwise: for which tables and keys, and in which words.

use crate::advice::Unwise;
use crate::place::TableKind;

/// An advice: for which tables and keys it is, where it is given, and what it says.
#[derive(Clone, Copy)]
pub(crate) struct Advice(
    pub TableKind,
    pub &'static str,
    pub Unwise,
    pub &'static str,
);

const SHORT_SECRET: &str = "has less than 8 octets, and can be guessed";

const KNOWN_SECRET: &str =
    "is radsec, which everybody knows (RFC 6614): only an address of 127.0.0.0/8, behind TLS, may have it";

const SAMPLE_SECRET: &str = "is a sample's, which everybody knows: make one of your own";

const ANY_ADDRESS: &str =
    "is every address: replies may leave from another address than the one that was asked";

const OWN_SERVER: &str = "is the proxy's own: packets sent there come back to it";

const PEERS_UNSHARED: &str =
    "is absent where several peers may ask: one may take all Identifiers, 256 for each out, from the others";

const OF_ACCOUNTING: &str =
    "is at port 1813, which is accounting's: are auth and acct the wrong way round?";

const OF_ACCESS: &str =
    "is at port 1812, which is for Access-Requests: are auth and acct the wrong way round?";

const MILLISECONDS: &str = "is in milliseconds, not in seconds";

const DOTTED: &str = "has a text that begins with a dot, as no name does";

const DEFAULT: &str = "is a name like any other: what FreeRADIUS calls DEFAULT is also = [\"*\"]";

/// The advice for each kind of tables, in the order in which it is said; that for sockets first.
pub(crate) const ADVICES: [Advice; 46] = [
    Advice(TableKind::Top, "auth", Unwise::AnyAddress, ANY_ADDRESS),
    Advice(TableKind::Top, "acct", Unwise::AnyAddress, ANY_ADDRESS),
    Advice(TableKind::Realm, "out", Unwise::AnyAddress, ANY_ADDRESS),
    Advice(TableKind::Realm, "reverse", Unwise::AnyAddress, ANY_ADDRESS),
    Advice(TableKind::Top, "auth", Unwise::Port(1813), OF_ACCOUNTING),
    Advice(TableKind::Top, "acct", Unwise::Port(1812), OF_ACCESS),
    Advice(
        TableKind::Top,
        "status_server",
        Unwise::Absent,
        "is absent: a peer that asks by Status-Server whether the proxy is up gets no answer",
    ),
    Advice(
        TableKind::Top,
        "state",
        Unwise::Relative,
        "is a relative path: it is looked for in the folder in which roam is started",
    ),
    Advice(TableKind::Top, "reject", Unwise::Dotted, DOTTED),
    Advice(
        TableKind::Peer,
        "secret",
        Unwise::SampleSecret,
        SAMPLE_SECRET,
    ),
    Advice(TableKind::Peer, "secret", Unwise::ShortSecret, SHORT_SECRET),
    Advice(TableKind::Peer, "secret", Unwise::KnownSecret, KNOWN_SECRET),
    Advice(
        TableKind::Peer,
        "require_seal",
        Unwise::Unsealed,
        "isn't true: an Access-Request without a Message-Authenticator, which can be forged, is taken",
    ),
    Advice(
        TableKind::Peer,
        "coa",
        Unwise::NeverNamed,
        "gets no Disconnect or CoA without a nas_ip, nas_ipv6, nas_id, nas_ids or operator_name",
    ),
    Advice(
        TableKind::Peer,
        "coa",
        Unwise::NeverReached,
        "gets no Disconnect or CoA: no realm that this peer may use has reverse",
    ),
    Advice(TableKind::Realm, "name", Unwise::Default, DEFAULT),
    Advice(TableKind::Realm, "also", Unwise::Default, DEFAULT),
    Advice(TableKind::Realm, "also", Unwise::Dotted, DOTTED),
    Advice(
        TableKind::Realm,
        "name",
        Unwise::OpenBelow,
        "has no *. with this name in also: names below it go to the realm with *",
    ),
    Advice(
        TableKind::Realm,
        "also",
        Unwise::IllFormed,
        "has * without well_formed: names that no realm can have, as a..b, are forwarded too",
    ),
    Advice(
        TableKind::Realm,
        "loop_prevention",
        Unwise::Looping,
        "isn't true beside *: a request may go back to the proxy that it came from",
    ),
    Advice(
        TableKind::Realm,
        "share",
        Unwise::Unshared,
        "is absent beside *: one realm with a dead server may take all Identifiers from the others",
    ),
    Advice(
        TableKind::Realm,
        "peer_share",
        Unwise::PeersUnshared,
        PEERS_UNSHARED,
    ),
    Advice(
        TableKind::Realm,
        "peer_share",
        Unwise::NameUnshared,
        "isn't less than share: one peer may take the whole share of a name",
    ),
    Advice(TableKind::Realm, "wait", Unwise::Seconds, MILLISECONDS),
    Advice(TableKind::Realm, "rest", Unwise::Seconds, MILLISECONDS),
    Advice(TableKind::Realm, "hold", Unwise::Seconds, MILLISECONDS),
    Advice(
        TableKind::Realm,
        "rest",
        Unwise::ShortRest,
        "is less than tries times wait, the time until a server counts as not answering",
    ),
    Advice(
        TableKind::Realm,
        "hold",
        Unwise::LongHold,
        "is over 30000: RFC 5080 says 5 to 30 seconds",
    ),
    Advice(
        TableKind::Realm,
        "max_pending",
        Unwise::FewEntries,
        "is too small for one exchange a second, with replies held for hold",
    ),
    Advice(
        TableKind::Realm,
        "own_sessions",
        Unwise::NoSessions,
        "is true, but max_sessions or accounting keeps no sessions: no Disconnect or CoA is forwarded",
    ),
    Advice(
        TableKind::Realm,
        "own_sessions",
        Unwise::OthersSessions,
        "isn't true beside reverse: a Disconnect or CoA may name a session of another realm",
    ),
    Advice(
        TableKind::Realm,
        "reverse",
        Unwise::NoDelivery,
        "is there, but no peer that may ask has coa: no Disconnect or CoA is delivered",
    ),
    Advice(
        TableKind::Realm,
        "own_sessions",
        Unwise::NoUseOfSessions,
        "is true without reverse, but no peer that may ask has coa: no Disconnect or CoA is delivered",
    ),
    Advice(TableKind::Server, "auth", Unwise::OwnServer, OWN_SERVER),
    Advice(TableKind::Server, "acct", Unwise::OwnServer, OWN_SERVER),
    Advice(TableKind::Server, "auth", Unwise::Port(1813), OF_ACCOUNTING),
    Advice(TableKind::Server, "acct", Unwise::Port(1812), OF_ACCESS),
    Advice(
        TableKind::Server,
        "secret",
        Unwise::SampleSecret,
        SAMPLE_SECRET,
    ),
    Advice(
        TableKind::Server,
        "secret",
        Unwise::ShortSecret,
        SHORT_SECRET,
    ),
    Advice(
        TableKind::Server,
        "secret",
        Unwise::KnownSecret,
        KNOWN_SECRET,
    ),
    Advice(
        TableKind::Server,
        "secret",
        Unwise::OtherSecret,
        "isn't what this server has in another realm: it knows the proxy by one address, so one is wrong",
    ),
    Advice(
        TableKind::Server,
        "require_seal",
        Unwise::Unsealed,
        "isn't true: an Access-Accept without a Message-Authenticator, which can be forged, is taken",
    ),
    Advice(
        TableKind::Client,
        "secret",
        Unwise::SampleSecret,
        SAMPLE_SECRET,
    ),
    Advice(
        TableKind::Client,
        "secret",
        Unwise::ShortSecret,
        SHORT_SECRET,
    ),
    Advice(
        TableKind::Client,
        "secret",
        Unwise::KnownSecret,
        KNOWN_SECRET,
    ),
];
