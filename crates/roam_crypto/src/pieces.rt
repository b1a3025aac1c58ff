//! A packet's octets in pieces, as digests take them (RFC 2865, section 3).

ghost use Rattle.std.specs.Prelude.{◌≡◌, ◌≤◌, length, take, drop, MatchOption};
ghost use Rattle.roam_crypto.specs.MessageAuthenticator.{HasNoMessageAuthenticator};
ghost use Rattle.roam_crypto.specs.Sealing.{IsValuePlace};

use roam_wire::View;
use roam_wire::attribute_type::MESSAGE_AUTHENTICATOR;

/// Sixteen zero octets, which stand for an Authenticator or a Message-Authenticator that isn't computed
/// yet (RFC 2866, section 3; RFC 3579, section 3.2).
pub const ZERO_OCTETS: [u8; 16] = [0; 16];

/// Returns Code, Identifier and Length: what stands before the Authenticator.
pub fn before_authenticator(octets: &[u8]) -> &[u8]
    requires { 20 ≤ length octets.now }
    ensures { result.now ≡ take 4 octets.now }
{
    octets.split_at(4).0
}

/// Returns the attributes: what stands behind the Authenticator.
pub fn behind_authenticator(octets: &[u8]) -> &[u8]
    requires { 20 ≤ length octets.now }
    ensures { result.now ≡ drop 20 octets.now }
{
    octets.split_at(20).1
}

/// Returns what stands in the Authenticator's field.
pub fn authenticator_in(octets: &[u8]) -> &[u8]
    requires { 20 ≤ length octets.now }
    ensures { result.now ≡ drop 4 (take 20 octets.now) }
{
    octets.split_at(20).0.split_at(4).1
}

/// Returns what stands before an octet.
pub fn octets_before(octets: &[u8], at: usize) -> &[u8]
    requires { at ≤ length octets.now }
    ensures { result.now ≡ take at octets.now }
{
    octets.split_at(at).0
}

/// Returns what stands from an octet on.
pub fn octets_from(octets: &[u8], at: usize) -> &[u8]
    requires { at ≤ length octets.now }
    ensures { result.now ≡ drop at octets.now }
{
    octets.split_at(at).1
}

/// Returns where in a packet's octets the Value of its first Message-Authenticator begins, if it has one.
pub fn value_place(view: &View<'_>) -> Option<usize>
    ensures { MatchOption result (HasNoMessageAuthenticator view.now)
        (λ at. IsValuePlace at view.now.attributes) }
{
    let mut at = 20;
    for attribute in view.attributes() {
        if attribute.kind == MESSAGE_AUTHENTICATOR {
            return Some(at + 2);
        }
        at += 2 + attribute.value.len();
    }
    None
}
