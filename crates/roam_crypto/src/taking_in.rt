//! The octets of a packet, as a hasher takes them in: in one piece, where they already are what is hashed.

ghost use Rattle.std.specs.Prelude.{◌≤◌, ◌++◌, ℕ, List, length, take, drop};
ghost use Rattle.roam_crypto.specs.Hasher.{Holds};
ghost use Rattle.roam_crypto.specs.Authenticators.{zero_octets};

use crate::Hasher;
use crate::comparing::is_same_digest;
use crate::pieces::{
    ZERO_OCTETS, authenticator_in, before_authenticator, behind_authenticator, octets_before,
    octets_from,
};

/// Takes in a packet's octets, or the first of them, with this Authenticator in its field.
pub(crate) fn update_with_field(hasher: &mut Hasher, octets: &[u8], authenticator: [u8; 16])
    requires { 20 ≤ length octets.now }
    ensures { (m : List ℕ) → Holds hasher.old m
        → Holds hasher.new (m ++ (take 4 octets.now ++ authenticator ++ drop 20 octets.now)) }
{
    if is_same_digest(authenticator_in(octets), authenticator.as_slice()) {
        hasher.update(octets);
    } else {
        hasher.update(before_authenticator(octets));
        hasher.update(authenticator.as_slice());
        hasher.update(behind_authenticator(octets));
    }
}

/// Takes in octets, the first sixteen of which count as zeros.
pub(crate) fn update_zeroed(hasher: &mut Hasher, octets: &[u8])
    requires { 16 ≤ length octets.now }
    ensures { (m : List ℕ) → Holds hasher.old m → Holds hasher.new (m ++ (zero_octets ++ drop 16 octets.now)) }
{
    if is_same_digest(octets_before(octets, 16), ZERO_OCTETS.as_slice()) {
        hasher.update(octets);
    } else {
        hasher.update(ZERO_OCTETS.as_slice());
        hasher.update(octets_from(octets, 16));
    }
}
