//! A comparison of two digests.

ghost use Rattle.std.specs.Prelude.{◌≡◌, ◌↔◌, IsTrue};

/// Returns whether two digests are the same octets. All octets are looked at, wherever the first difference
/// stands: the time that it takes says nothing but whether they are as long.
pub(crate) fn is_same_digest(one: &[u8], other: &[u8]) -> bool
    ensures { IsTrue result ↔ (one.now ≡ other.now) }
{
    if one.len() != other.len() {
        return false;
    }
    let mut difference = 0u8;
    for at in 0..one.len() {
        difference |= one[at] ^ other[at];
    }
    difference == 0
}
