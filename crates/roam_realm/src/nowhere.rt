//! The endpoint of a link that isn't there.

use roam_conf::{Address, Endpoint};

/// The endpoint of a peer that takes no reverse requests, or of a server that takes no accounting.
pub(crate) const NOWHERE: Endpoint = Endpoint {
    ip: Address::UNSPECIFIED,
    port: 0,
};
