//! The place of the one Message-Authenticator of a packet (RFC 3579, section 3.2).

ghost use Rattle.std.specs.Prelude.{◌≡◌, ◌≢◌, ◌⊎◌, ◌+◌, ◌≤◌, true, length, IfNone, IfSome, IsSome};
ghost use Rattle.roam_wire.specs.Attributes.{has_kind};
ghost use Rattle.roam_wire.specs.Shown.{shown};
ghost use Rattle.roam_wire.specs.declared.attribute_type.TheConstants.{MESSAGE_AUTHENTICATOR};
ghost use Rattle.roam_crypto.specs.MessageAuthenticator.{HasOneMessageAuthenticator};
ghost use Rattle.roam_crypto.specs.SealPlaces.{IsNextPlace};
ghost use Rattle.roam_crypto.specs.Sealing.{IsValuePlace};

use roam_wire::attribute_type::MESSAGE_AUTHENTICATOR;
use roam_wire::{Attr, View};

/// Returns where the one Value begins that was met, an attribute further, which stands at an octet; none where it is a
/// second Message-Authenticator, or one that hasn't 16 octets.
fn place_after(met: Option<usize>, at: usize, attribute: &Attr<'_>) -> Option<Option<usize>>
    requires { at ≤ 4096 }
    ensures none { IfNone result ((has_kind MESSAGE_AUTHENTICATOR (shown attribute.now) ≡ true)
        × (IsSome met ⊎ (length attribute.now.value.now ≢ 16))) }
    ensures some { IfSome result (λ next. IsNextPlace met at (shown attribute.now) next) }
{
    if attribute.kind != MESSAGE_AUTHENTICATOR {
        return Some(met);
    }
    if met.is_some() || attribute.value.len() != 16 {
        return None;
    }
    Some(Some(at + 2))
}

/// Returns where the Value of a packet's Message-Authenticator begins, where just one stands there, of 16 octets. One
/// pass.
pub(crate) fn seal_place(view: &View<'_>) -> Option<usize>
    ensures none { IfNone result (¬ HasOneMessageAuthenticator view.now) }
    ensures one { IfSome result (λ _. HasOneMessageAuthenticator view.now) }
    ensures place { IfSome result (λ at. IsValuePlace at view.now.attributes) }
{
    let mut at = 20;
    let mut met = None;
    for attribute in view.attributes() {
        match place_after(met, at, &attribute) {
            None => return None,
            Some(next) => met = next,
        }
        at += 2 + attribute.value.len();
    }
    met
}
