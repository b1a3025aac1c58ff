//! A shared secret, and what HMAC-MD5 makes of it before it sees a message.

ghost use Rattle.std.specs.Prelude.{◌≡◌, ◌≤◌, ◌++◌, length};
ghost use Rattle.md5.specs.Md5.{md5};
ghost use Rattle.roam_crypto.specs.Hasher.{Holds};
ghost use Rattle.roam_crypto.specs.Hmac.{hmac_md5, key_with_pad};

use crate::Hasher;
use crate::hmac::{inner_hasher, outer_hasher, padded_key};
use std::marker::Model;

/// A shared secret whose two blocks HMAC-MD5 has taken in (RFC 2104, section 4: that is done once for a key). Contracts
/// see the secret's octets.
#[derive(Drop)]
pub struct Secret {
    /// The octets, and zeros behind them.
    padded: [u8; 64],
    len: usize,
    inner: Hasher,
    outer: Hasher,
}

impl Model for Secret {
    ghost use Rattle.std.specs.Prelude.{ℕ, List, take};
    ghost use Rattle.roam_crypto.specs.Midstates.{IsTakenIn};

    ghost Value = { List ℕ };

    ghost view = { λ s. take s.len s.padded };

    ghost invariant = { λ s. IsTakenIn s.len (take s.len s.padded) s.inner s.outer };
}

impl Secret {
    /// Makes the secret of these octets. Takes no memory.
    pub fn new(octets: &[u8]) -> Secret
        requires { length octets.now ≤ 64 }
        ensures { result ≡ octets.now }
    {
        let padded = padded_key(octets);
        let inner = inner_hasher(octets);
        let outer = outer_hasher(octets);
        Secret {
            padded,
            len: octets.len(),
            inner,
            outer,
        }
    }

    /// Returns the secret's octets.
    pub fn octets(&self) -> &[u8]
        ensures { result.now ≡ self.now }
    {
        self.padded.split_at(self.len).0
    }

    /// Returns a hasher that has taken the key, and takes the message.
    pub(crate) fn inner_hasher(&self) -> Hasher
        ensures { Holds result (key_with_pad 0x36 self.now) }
    {
        self.inner
    }

    /// Returns the digest of the key and the inner digest.
    pub(crate) fn outer_digest(&self, inner: [u8; 16]) -> [u8; 16]
        ensures { result ≡ md5 (key_with_pad 0x5c self.now ++ inner) }
    {
        let mut hasher = self.outer;
        hasher.update(inner.as_slice());
        hasher.finalize()
    }
}

/// Computes HMAC-MD5 of a message (RFC 2104, section 2), for a key of at most 64 octets.
#[tactic(auto, unfolding(crate::specs::Hmac::hmac_md5))]
pub fn hmac_md5(key: &[u8], message: &[u8]) -> [u8; 16]
    requires { length key.now ≤ 64 }
    ensures { result ≡ hmac_md5 key.now message.now }
{
    let secret = Secret::new(key);
    let mut hasher = secret.inner_hasher();
    hasher.update(message);
    secret.outer_digest(hasher.finalize())
}
