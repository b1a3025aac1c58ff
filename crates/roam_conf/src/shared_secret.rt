//! A secret that the broker shares.

ghost use Rattle.std.specs.Prelude.{◌≡◌, ◌≤◌, ◌==◌, IfOk, List, ℕ, length, string_bytes};
ghost use Rattle.std.proofs.Common.{rules};
ghost use Rattle.std.specs.Cmp.Lexicographic.{pointwise};
ghost use Rattle.std.specs.Cmp.Rules.{comparing};

use roam_crypto::Secret;
use std::alloc::{AllocError, Global};
use std::marker::Model;

/// A secret that the broker shares with a server, a peer or a source of reverse requests (RFC 2865, section 3): its
/// text, and what HMAC-MD5 makes of it, made once for all packets. Contracts see its octets.
#[derive(Drop)]
pub struct SharedSecret {
    text: String,
    keyed: Secret,
}

impl Model for SharedSecret {
    ghost use Rattle.std.specs.Prelude.{◌≡◌, ℕ, List, string_bytes};

    ghost Value = { List ℕ };

    ghost view = { λ s. string_bytes s.text };

    ghost invariant = { λ s. s.keyed ≡ string_bytes s.text };
}

impl SharedSecret {
    /// Makes the secret of a text.
    pub fn new(alloc: Global, text: &str) -> Result<SharedSecret, AllocError>
        requires { length text.now ≤ 64 }
        ensures { IfOk result (λ secret. secret ≡ text.now) }
    {
        let keyed = Secret::new(text.as_bytes());
        let text = String::from_str(alloc, text)?;
        Ok(SharedSecret { text, keyed })
    }

    /// Returns the secret's text.
    pub fn as_str(&self) -> &str
        ensures { result.now ≡ self.now }
    {
        self.text.as_str()
    }

    /// Returns the secret in the form in which Message-Authenticators are made with it.
    pub fn keyed(&self) -> &Secret
        ensures { result.now ≡ self.now }
    {
        &self.keyed
    }
}

impl PartialEq for SharedSecret {
    ghost eq = { pointwise ◌==◌ };

    ghost laws = { Prim.search (comparing, rules) };

    fn eq(&self, other: &SharedSecret) -> bool {
        self.text == other.text
    }
}

impl Eq for SharedSecret {
    ghost laws = { Prim.search (comparing, rules) };
}
