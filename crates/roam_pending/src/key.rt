//! The key that tells one request from another, and who sent it.

ghost use Rattle.std.specs.Prelude.{◌≡◌};
ghost use Rattle.roam_pending.specs.PlainEntry.{same_key};

use roam_conf::{Endpoint, Place};

/// The key by which two requests of a realm are the same one to the proxy, as long as their octets are equal too (RFC
/// 2865, section 3: a duplicate has the same source and Identifier).
#[derive(Clone, Copy, PartialEq, Eq, Hash)]
pub struct Key {
    /// The broker's socket at which the request came in.
    pub place: Place,
    /// The address and port from which it came.
    pub from: Endpoint,
    /// Its Identifier.
    pub id: u8,
}

/// The sender of a request: with its shared secret the reply is signed.
#[derive(Clone, Copy, PartialEq, Eq)]
pub enum Requester {
    /// The peer of this index.
    Peer(u16),
    /// The realm's home server of this place.
    Home(u8),
}

/// Returns whether two keys are the same.
pub(crate) fn is_same_key(key: &Key, other: &Key) -> bool
    ensures { result ≡ same_key key.now other.now }
{
    *key == *other
}
