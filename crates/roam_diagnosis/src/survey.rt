//! The tables of a document, looked over once: what of all of them the advice on one of them asks for.

use crate::deliveries::Deliveries;
use crate::document::Document;
use crate::names::Patterns;
use crate::peer_names::PeerNames;
use crate::servers::{Endpoints, KnownServers, known_servers, own_endpoints};
use std::alloc::AllocError;

/// A survey of all tables of a document. Each question to it costs a few steps, however many tables there are.
#[derive(Drop)]
pub(crate) struct Survey<'a> {
    pub names: PeerNames<'a>,
    pub patterns: Patterns,
    pub deliveries: Deliveries,
    /// The broker's own endpoints.
    pub own: Endpoints,
    pub servers: KnownServers<'a>,
}

impl<'a> Survey<'a> {
    /// Returns the survey of a document.
    pub(crate) fn new(document: &Document<'a>) -> Result<Survey<'a>, AllocError> {
        let names = PeerNames::new(document)?;
        let patterns = Patterns::new(document)?;
        let deliveries = Deliveries::new(document, &names)?;
        let own = own_endpoints(document)?;
        let servers = known_servers(document)?;
        Ok(Survey {
            names,
            patterns,
            deliveries,
            own,
            servers,
        })
    }
}
