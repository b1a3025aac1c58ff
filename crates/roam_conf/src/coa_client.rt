//! A further source of a realm's reverse requests.

ghost use Rattle.std.specs.Prelude.{◌≡◌, ◌≤◌, length};

use crate::{Address, SharedSecret};
use roam_crypto::Secret;

/// A source of a realm's reverse requests (RFC 5176) beside its home servers, known by its address.
#[derive(Drop, PartialEq, Eq)]
pub struct CoaClient {
    pub ip: Address,
    /// The shared secret: 1 to 64 octets.
    pub secret: SharedSecret,
    ghost secret_length: { (1 ≤ length secret) × (length secret ≤ 64) },
}

impl CoaClient {
    /// Returns the shared secret, in the form in which Message-Authenticators are made with it: 1 to 64 octets.
    pub fn secret(&self) -> &Secret
        ensures text { result.now ≡ self.now.secret }
        ensures at_least_one { 1 ≤ length result.now }
        ensures at_most_64 { length result.now ≤ 64 }
    {
        self.secret.keyed()
    }
}
