//! Blocks of 16 octets, hidden anew in place, one after the other.

ghost use Rattle.std.specs.Prelude.{◌≡◌, ◌+◌, ◌*◌, ◌≤◌, ◌++◌, length, take, drop};
ghost use Rattle.md5.specs.Md5.{md5};
ghost use Rattle.roam_crypto.specs.Hiding.{Key, Opens, block, xor_octets, HasWholeBlocks, IsHiddenAnew};

use crate::Hasher;
use std::simd::prelude::*;

/// Returns MD5 of the secret and of what stands before a block.
pub(crate) fn digest_of(secret: &[u8], before: &[u8]) -> [u8; 16]
    ensures { result ≡ md5 (secret.now ++ before.now) }
{
    let mut hasher = Hasher::new();
    hasher.update(secret);
    hasher.update(before);
    hasher.finalize()
}

/// Returns block `k`, counted from 0.
fn block_at(value: &[u8], k: usize) -> [u8; 16]
    requires { 16 * k + 16 ≤ length value.now }
    ensures { result ≡ block k value.now }
{
    u8x16::from_slice(&value[16 * k..]).to_array()
}

/// Takes one digest off block `k`, and puts another on.
fn rehide_block(value: &mut [u8], k: usize, off: &[u8; 16], on: &[u8; 16])
    requires { 16 * k + 16 ≤ length value.old }
    ensures { value.new ≡ take (16 * k) value.old
        ++ (xor_octets (xor_octets (block k value.old) off.now) on.now
        ++ drop (16 * k + 16) value.old) }
{
    let plain = u8x16::from_slice(&value[16 * k..]) ^ u8x16::from_array(*off);
    let hidden = plain ^ u8x16::from_array(*on);
    hidden.copy_to_slice(&mut value[16 * k..]);
}

/// Hides the blocks anew: `off` and `on` cover the first one, and each hidden block gives, with the
/// secret, what covers the next.
pub(crate) fn rehide_blocks(value: &mut [u8], from: &[u8], off: [u8; 16], to: &[u8], on: [u8; 16])
    requires { HasWholeBlocks value.old }
    ensures { (a b : Key) → Opens a from.now off → Opens b to.now on
        → IsHiddenAnew a b value.old value.new }
{
    let mut before = block_at(value, 0);
    rehide_block(value, 0, &off, &on);
    for k in 1..value.len() / 16 {
        let off = digest_of(from, &before);
        let on = digest_of(to, &block_at(value, k - 1));
        before = block_at(value, k);
        rehide_block(value, k, &off, &on);
    }
}
