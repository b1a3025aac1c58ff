//! The two blocks of a key that HMAC-MD5 (RFC 2104) takes in before it sees a message.

ghost use Rattle.std.specs.Prelude.{◌≡◌, ◌≤◌, length};
ghost use Rattle.roam_crypto.specs.Hasher.{Holds};
ghost use Rattle.roam_crypto.specs.Hmac.{padded_key, key_with_pad};

use crate::Hasher;

/// The octet of ipad (RFC 2104, section 2).
const INNER_PAD: u8 = 0x36;

/// The octet of opad (RFC 2104, section 2).
const OUTER_PAD: u8 = 0x5c;

/// Returns the key, and zeros behind it to the 64 octets of a block.
pub fn padded_key(key: &[u8]) -> [u8; 64]
    requires { length key.now ≤ 64 }
    ensures { result ≡ padded_key key.now }
{
    let mut block = [0; 64];
    block[..key.len()].copy_from_slice(key);
    block
}

/// Returns the padded key, each octet XORed with the pad's.
fn key_with_pad(key: &[u8], pad: u8) -> [u8; 64]
    requires { length key.now ≤ 64 }
    ensures { result ≡ key_with_pad pad key.now }
{
    let mut block = padded_key(key);
    for octet in block.iter_mut() {
        *octet ^= pad;
    }
    block
}

/// Makes the hasher that has taken the key, and takes the message.
pub fn inner_hasher(key: &[u8]) -> Hasher
    requires { length key.now ≤ 64 }
    ensures { Holds result (key_with_pad 0x36 key.now) }
{
    let mut hasher = Hasher::new();
    hasher.update(key_with_pad(key, INNER_PAD).as_slice());
    hasher
}

/// Makes the hasher that has taken the key, and takes the inner digest.
pub fn outer_hasher(key: &[u8]) -> Hasher
    requires { length key.now ≤ 64 }
    ensures { Holds result (key_with_pad 0x5c key.now) }
{
    let mut hasher = Hasher::new();
    hasher.update(key_with_pad(key, OUTER_PAD).as_slice());
    hasher
}
