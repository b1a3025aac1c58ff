//! The configuration of `roam streams`: where it takes connections, and for which home servers it dials some.

use roam_address::Endpoint;

/// The configuration of `roam streams`.
#[derive(Drop)]
pub struct StreamConfig {
    /// The endpoints where connections are taken, of TCP: at most eight.
    pub take: Vec<Endpoint>,
    /// The broker's endpoints for requests, where connections are taken.
    pub broker: Option<BrokerEndpoints>,
    /// The number of connections that are taken at once: 1 to 4096.
    pub most: u16,
    /// The number of these from one address: 1 to 256.
    pub most_of_one: u16,
    /// The time that a connection may be without a packet, in seconds: 60 to 86,400.
    pub idle: u32,
    /// Home servers that are reached by streams: at most 1,024.
    pub servers: Vec<StreamServer>,
}

/// The broker's endpoints for requests.
#[derive(Clone, Copy)]
pub struct BrokerEndpoints {
    pub auth: Endpoint,
    pub acct: Endpoint,
}

/// A home server that is reached by streams.
#[derive(Drop)]
pub struct StreamServer {
    /// The `auth` and `acct` of the proxy: one or two endpoints.
    pub at: Vec<Endpoint>,
    /// The endpoint where the realm takes its Disconnect- and CoA-Requests.
    pub reverse: Option<Endpoint>,
    /// The time that an answer may be awaited, in milliseconds: 1,000 to 3,600,000.
    pub silence: u32,
}
