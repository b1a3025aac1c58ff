//! The other end of a packet.

ghost use Rattle.std.specs.Prelude.{◌≡◌, option_map};
ghost use Rattle.roam_conf.specs.Shown.{shown};
ghost use Rattle.roam_counters.specs.Ends as spec;

use crate::cell::Subject;
use roam_conf::{Config, Endpoint, Link, Place};

/// Returns the subject of a link of a realm.
pub fn subject_of(realm: u16, link: Link) -> Subject
    ensures { result ≡ spec.subject_of realm link }
{
    match link {
        Link::Auth(server, _) | Link::Acct(server, _) => Subject::Server(realm, server),
        Link::Coa(peer, _) => Subject::Peer(peer),
    }
}

/// Returns the subject of a source of a realm's Disconnect- and CoA-Requests, by its number: those behind the first
/// eight are one.
pub fn source_of(realm: u16, home: u8) -> Subject
    ensures { result ≡ spec.source_of realm home }
{
    Subject::Server(realm, home.min(8))
}

/// Returns a peer as a subject, if it is there.
fn subject_of_peer(peer: Option<u16>) -> Option<Subject>
    ensures { result ≡ option_map Subject.Peer peer }
{
    match peer {
        Some(peer) => Some(Subject::Peer(peer)),
        None => None,
    }
}

/// Returns who is at the other end of a packet that comes to this place from this endpoint, or leaves from this place
/// to it; none where nobody of the configuration has it there.
pub fn end_at(config: &Config, place: Place, endpoint: Endpoint) -> Option<Subject>
    ensures { result ≡ spec.end_at (shown config.now) place endpoint }
{
    match place {
        Place::Auth(nth) => subject_of_peer(config.asker_at_auth(nth, endpoint.ip)),
        Place::Acct(nth) => subject_of_peer(config.asker_at_acct(nth, endpoint.ip)),
        Place::Out(realm, nth) => match config.link_of(realm, nth, endpoint) {
            Some(link) => Some(subject_of(realm, link)),
            None => None,
        },
        Place::Reverse(realm, nth) => match config.home_of(realm, nth, endpoint.ip) {
            Some(home) => Some(source_of(realm, home)),
            None => None,
        },
    }
}
