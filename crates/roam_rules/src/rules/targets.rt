//! The links by which a new request may go.

use roam_realm::ServersFrom;

/// The targets of a request, in the order of their use.
#[derive(Clone, Copy)]
pub(crate) enum Targets {
    /// The home servers of the realm, in the order of their use.
    HomeServers(ServersFrom),
    /// The access server of a peer alone: the request is a reverse one.
    AccessServer(u16),
}
