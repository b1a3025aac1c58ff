//! The broker's own sockets, and the remote endpoints of a realm.

/// One of the broker's own sockets. The last number is the place of its endpoint in the list that the configuration
/// has of such, from 0.
#[derive(Clone, Copy, Debug, PartialEq, Eq, Hash)]
pub enum Place {
    /// Takes Access-Requests of access servers (RFC 2865).
    Auth(u16),
    /// Takes Accounting-Requests of access servers (RFC 2866).
    Acct(u16),
    /// An outgoing socket of the realm of this index: what is forwarded for it leaves here, and the replies come in
    /// here.
    Out(u16, u16),
    /// Takes Disconnect- and CoA-Requests of the home servers of the realm of this index (RFC 5176), where it
    /// takes them.
    Reverse(u16, u16),
}

/// One of the remote endpoints to which the packets of a realm are forwarded, by one of the realm's outgoing sockets:
/// the second number is that one's place in the realm's `out`, from 0. The Identifiers toward an endpoint are each
/// socket's own.
#[derive(Clone, Copy, Debug, PartialEq, Eq, Hash)]
pub enum Link {
    /// The authentication endpoint of the realm's server of this place.
    Auth(u8, u8),
    /// The accounting endpoint of the realm's server of this place.
    Acct(u8, u8),
    /// The endpoint for Disconnect- and CoA-Requests of the peer of this index.
    Coa(u16, u8),
}
