//! The keys by which two tables of a realm or of a peer differ.

/// A key of a realm's table; `name` and `also` aside.
#[derive(Clone, Copy, PartialEq, Eq)]
pub enum RealmKey {
    /// No key: the realm went.
    Gone,
    Out,
    Reverse,
    Tries,
    Wait,
    Hold,
    MaxPending,
    MaxSessions,
    Rest,
    RestAfter,
    /// The tables `server`: their number, or any of their keys.
    Servers,
    Peers,
    LoopPrevention,
    Accounting,
    RequestWithout,
    ReplyWithout,
    Share,
    PeerShare,
    OwnNames,
    Conversations,
    Balance,
    OwnSessions,
    /// The tables `coa_client`: their number, their order, or any of their keys.
    CoaClients,
}

/// A key of a peer's table; `require_seal` and `limit_proxy_state` aside.
#[derive(Clone, Copy, PartialEq, Eq)]
pub enum PeerKey {
    /// No key: the peer went.
    Gone,
    /// By which a realm's `peers` mean the peer.
    Name,
    Ip,
    Secret,
    Coa,
    NasIp,
    NasIpv6,
    NasId,
    NasIds,
    OperatorName,
    AskCui,
    RequestWithout,
    ReplyWithout,
}

/// All keys of a realm's table, in the order in which they are told.
pub const REALM_KEYS: [RealmKey; 22] = [
    RealmKey::Out,
    RealmKey::Reverse,
    RealmKey::Servers,
    RealmKey::CoaClients,
    RealmKey::Peers,
    RealmKey::LoopPrevention,
    RealmKey::Accounting,
    RealmKey::RequestWithout,
    RealmKey::ReplyWithout,
    RealmKey::OwnNames,
    RealmKey::Conversations,
    RealmKey::Balance,
    RealmKey::OwnSessions,
    RealmKey::Tries,
    RealmKey::Wait,
    RealmKey::Hold,
    RealmKey::Rest,
    RealmKey::RestAfter,
    RealmKey::MaxPending,
    RealmKey::MaxSessions,
    RealmKey::Share,
    RealmKey::PeerShare,
];

impl RealmKey {
    /// Returns the key as it is written in a configuration.
    pub fn name(self) -> &'static str {
        match self {
            RealmKey::Gone => "gone",
            RealmKey::Out => "out",
            RealmKey::Reverse => "reverse",
            RealmKey::Tries => "tries",
            RealmKey::Wait => "wait",
            RealmKey::Hold => "hold",
            RealmKey::MaxPending => "max_pending",
            RealmKey::MaxSessions => "max_sessions",
            RealmKey::Rest => "rest",
            RealmKey::RestAfter => "rest_after",
            RealmKey::Servers => "server",
            RealmKey::Peers => "peers",
            RealmKey::LoopPrevention => "loop_prevention",
            RealmKey::Accounting => "accounting",
            RealmKey::RequestWithout => "request_without",
            RealmKey::ReplyWithout => "reply_without",
            RealmKey::Share => "share",
            RealmKey::PeerShare => "peer_share",
            RealmKey::OwnNames => "own_names",
            RealmKey::Conversations => "conversations",
            RealmKey::Balance => "balance",
            RealmKey::OwnSessions => "own_sessions",
            RealmKey::CoaClients => "coa_client",
        }
    }
}

impl PeerKey {
    /// Returns the key as it is written in a configuration.
    pub fn name(self) -> &'static str {
        match self {
            PeerKey::Gone => "gone",
            PeerKey::Name => "name",
            PeerKey::Ip => "ip",
            PeerKey::Secret => "secret",
            PeerKey::Coa => "coa",
            PeerKey::NasIp => "nas_ip",
            PeerKey::NasIpv6 => "nas_ipv6",
            PeerKey::NasId => "nas_id",
            PeerKey::NasIds => "nas_ids",
            PeerKey::OperatorName => "operator_name",
            PeerKey::AskCui => "ask_cui",
            PeerKey::RequestWithout => "request_without",
            PeerKey::ReplyWithout => "reply_without",
        }
    }
}
