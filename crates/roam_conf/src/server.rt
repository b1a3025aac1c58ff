//! A home server of a realm.

ghost use Rattle.std.specs.Prelude.{◌≡◌, ◌≤◌, ◌||◌, is_some, length, true};
ghost use Rattle.std.specs.Option.{ForSome, option_or};

use crate::{Endpoint, SharedSecret};
use roam_crypto::Secret;

/// A home server of a realm: where it takes requests of each service, of one at least, and the secret shared with it.
#[derive(Drop, PartialEq, Eq)]
pub struct Server {
    /// Takes Access-Requests (RFC 2865), where the server takes them; its port isn't 0.
    pub auth: Option<Endpoint>,
    /// Takes Accounting-Requests (RFC 2866), where the server takes them; its port isn't 0.
    pub acct: Option<Endpoint>,
    /// The shared secret: 1 to 64 octets.
    pub secret: SharedSecret,
    /// True where each Access-Accept, -Reject and -Challenge of the server needs a Message-Authenticator.
    pub require_seal: bool,
    ghost secret_length: { (1 ≤ length secret) × (length secret ≤ 64) },
    ghost ports: { ForSome auth (λ e. 1 ≤ e.port) × ForSome acct (λ e. 1 ≤ e.port) },
    ghost serves: { is_some auth || is_some acct ≡ true },
}

impl Server {
    /// Returns the endpoint by which the server is named: its `auth`, or else its `acct`.
    pub fn endpoint(&self) -> Option<Endpoint>
        ensures { result ≡ option_or self.now.auth self.now.acct }
    {
        match self.auth {
            None => self.acct,
            auth => auth,
        }
    }

    /// Returns the shared secret, in the form in which Message-Authenticators are made with it: 1 to 64 octets.
    pub fn secret(&self) -> &Secret
        ensures text { result.now ≡ self.now.secret }
        ensures at_least_one { 1 ≤ length result.now }
        ensures at_most_64 { length result.now ≤ 64 }
    {
        self.secret.keyed()
    }
}
