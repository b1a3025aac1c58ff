//! The place where something was dropped.

ghost use Rattle.std.specs.Prelude.{◌≡◌};
ghost use Rattle.roam_log.specs.Origins as spec;

use crate::clue::Clue;
use roam_conf::{Address, Endpoint, Place};

/// The place at which something was dropped.
#[derive(Clone, Copy, PartialEq, Eq)]
pub enum Origin {
    /// A datagram that came to this place from this endpoint.
    Datagram(Place, Endpoint),
    /// The same, where the datagram has no Message-Authenticator, which its refusal is about.
    Unsealed(Place, Endpoint),
    /// The same, where something of the datagram shows what is wrong with it.
    Explained(Place, Endpoint, Clue),
    /// A datagram that came to this place, of which no more is known.
    Place(Place),
    /// A tick of this shard.
    Tick(u16),
}

/// The part of an origin that is compared: of a datagram its place and the address that it came from, and not the port.
#[derive(Clone, Copy, PartialEq, Eq)]
pub enum OriginKind {
    Source(Place, Address),
    UnsealedSource(Place, Address),
    Place(Place),
    Tick(u16),
}

/// Returns the realm that a place belongs to, by its index.
fn realm_at(place: Place) -> Option<u16>
    ensures { result ≡ spec.realm_at place }
{
    match place {
        Place::Out(realm, _) | Place::Reverse(realm, _) => Some(realm),
        Place::Auth(_) | Place::Acct(_) => None,
    }
}

impl Origin {
    /// Returns what of it is compared.
    pub fn kind(self) -> OriginKind
        ensures { result ≡ spec.kind_of self }
    {
        match self {
            Origin::Datagram(place, from) | Origin::Explained(place, from, _) => {
                OriginKind::Source(place, from.ip)
            }
            Origin::Unsealed(place, from) => OriginKind::UnsealedSource(place, from.ip),
            Origin::Place(place) => OriginKind::Place(place),
            Origin::Tick(shard) => OriginKind::Tick(shard),
        }
    }

    /// Returns the index of the realm that its place belongs to, where it belongs to one.
    pub fn realm(self) -> Option<u16>
        ensures { result ≡ spec.realm_of self }
    {
        match self {
            Origin::Datagram(place, _)
            | Origin::Unsealed(place, _)
            | Origin::Explained(place, _, _)
            | Origin::Place(place) => realm_at(place),
            Origin::Tick(_) => None,
        }
    }
}
