//! HMAC-SHA-256 (RFC 2104), with a key that was padded once.

ghost use Rattle.std.specs.Prelude.{◌≡◌, ◌≤◌, ◌++◌, IfSome, length};
ghost use Rattle.sha2.specs.Hashers.{Holds256};
ghost use Rattle.sha2.specs.Sha256.{sha256};
ghost use Rattle.roam_crypto.specs.Hmac.{padded_key};
ghost use Rattle.roam_log.specs.Hashes.{hmac_sha256, padded_with};

use sha2::{Digest, Sha256};

/// The octets of ipad and opad (RFC 2104, section 2).
const INNER_PAD: u8 = 0x36;

const OUTER_PAD: u8 = 0x5c;

/// The number of octets that a key has at least, and at most: those of a block.
const LEAST: usize = 16;

const BLOCK: usize = 64;

/// The key by which stations are hashed.
#[derive(Clone, Copy)]
pub struct StationKey {
    /// With zeros behind it to the octets of a block.
    block: [u8; BLOCK],
}

/// Returns the key, and zeros behind it to the 64 octets of a block.
fn padded_key(key: &[u8]) -> [u8; 64]
    requires { length key.now ≤ 64 }
    ensures { result ≡ padded_key key.now }
{
    let mut block = [0; 64];
    block[..key.len()].copy_from_slice(key);
    block
}

/// Returns each octet XORed with the pad's.
fn padded_with(block: [u8; 64], pad: u8) -> [u8; 64]
    ensures { result ≡ padded_with pad block }
{
    let mut padded = block;
    for octet in padded.iter_mut() {
        *octet ^= pad;
    }
    padded
}

impl StationKey {
    /// Makes a key of these octets, if they are 16 to 64.
    pub fn new(octets: &[u8]) -> Option<StationKey>
        ensures { IfSome result (λ key. (16 ≤ length octets.now) × (length octets.now ≤ 64)
            × (key.block ≡ padded_key octets.now)) }
    {
        if octets.len() < LEAST || octets.len() > BLOCK {
            return None;
        }
        Some(StationKey {
            block: padded_key(octets),
        })
    }

    /// Returns a hasher that has taken the key, and takes the message.
    fn inner_hasher(&self) -> Sha256
        ensures { Holds256 result (padded_with 0x36 self.now.block) }
    {
        let mut hasher = Sha256::new();
        hasher.update(padded_with(self.block, INNER_PAD).as_slice());
        hasher
    }

    /// Returns the digest of the key and the inner digest.
    fn outer_digest(&self, inner: [u8; 32]) -> [u8; 32]
        ensures { result ≡ sha256 (padded_with 0x5c self.now.block ++ inner) }
    {
        let mut hasher = Sha256::new();
        hasher.update(padded_with(self.block, OUTER_PAD).as_slice());
        hasher.update(inner.as_slice());
        hasher.finalize()
    }

    /// Computes HMAC-SHA-256 of a message (RFC 2104, section 2).
    #[tactic(auto, unfolding(crate::specs::Hashes::hmac_sha256))]
    pub(crate) fn hmac(&self, message: &[u8]) -> [u8; 32]
        ensures { result ≡ hmac_sha256 self.now.block message.now }
    {
        let mut hasher = self.inner_hasher();
        hasher.update(message);
        self.outer_digest(hasher.finalize())
    }
}
