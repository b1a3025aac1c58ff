//! The metrics that realms, home servers and peers have, each under a name of its own. All of them are data.

use roam_counters::CountedEvent;

/// Of whom something is counted.
#[derive(Clone, Copy, PartialEq, Eq)]
pub(crate) enum Scope {
    Realm,
    Server,
    Peer,
}

/// All of them, in the order of a page.
pub(crate) const SCOPES: [Scope; 3] = [Scope::Realm, Scope::Server, Scope::Peer];

/// A metric that realms, home servers and peers have, each under a name of its own.
#[derive(Clone, Copy)]
pub struct Family {
    pub realm: &'static str,
    pub server: &'static str,
    pub peer: &'static str,
    /// The meaning of it.
    pub help: &'static str,
    /// The name of the label that tells its samples apart; none where it has one.
    pub label: Option<&'static str>,
    /// The events that are counted, each with the label's value.
    pub samples: &'static [(&'static str, CountedEvent)],
}

impl Family {
    /// Returns the name of the family.
    pub(crate) fn name(&self, scope: Scope) -> &'static str {
        match scope {
            Scope::Realm => self.realm,
            Scope::Server => self.server,
            Scope::Peer => self.peer,
        }
    }
}
