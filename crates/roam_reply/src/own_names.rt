//! The User-Names of an Access-Accept that are returned (RFC 2865, section 5.1). Nothing here takes memory.

ghost use Rattle.std.specs.Prelude.{◌≡◌, ◌&&◌, option_map};
ghost use Rattle.roam_wire.specs.Shown.{shown};
ghost use Rattle.roam_reply.specs.Private.Plain.{is_carried};
ghost use Rattle.roam_reply.specs.Returned.{is_own, is_same_name, name_part, own_of};

use crate::plain_packet::is_carried;
use roam_admission::realm_part;
use roam_wire::attribute_type::USER_NAME;
use roam_wire::code::ACCESS_ACCEPT;
use roam_wire::{Attr, View};

/// Returns the name part of a packet.
fn name_part<'a>(packet: &View<'a>) -> Option<&'a [u8]>
    ensures { option_map (λ part. part.now) result ≡ name_part packet.now }
{
    realm_part(packet.first(USER_NAME)?)
}

/// Returns whether two name parts are there, and equal without ASCII case.
fn is_same_name(part: Option<&[u8]>, other: Option<&[u8]>) -> bool
    ensures { result ≡ is_same_name (option_map (λ part. part.now) part.entry)
        (option_map (λ part. part.now) other.entry) }
{
    match (part, other) {
        (Some(part), Some(other)) => part.eq_ignore_ascii_case(other),
        _ => false,
    }
}

/// Returns whether an attribute is a User-Name of the request's name part, or none at all; where own names alone pass.
#[tactic(auto, unfolding(crate::specs::Returned::is_own))]
fn is_own(attribute: &Attr<'_>, own: bool, request: &View<'_>) -> bool
    ensures { result ≡ is_own own request.now (shown attribute.now) }
{
    !own || attribute.kind != USER_NAME
        || is_same_name(realm_part(attribute.value), name_part(request))
}

/// Returns whether an attribute of a reply passes by its name, and is returned.
pub(crate) fn is_kept(attribute: &Attr<'_>, access: bool, own: bool, request: &View<'_>) -> bool
    ensures { result ≡ (is_own own request.now (shown attribute.now)
        && is_carried access (shown attribute.now)) }
{
    is_own(attribute, own, request) && is_carried(attribute, access)
}

/// Returns whether own names alone pass of a reply of this code: of an Access-Accept.
pub(crate) fn own_of(own: bool, code: u8) -> bool
    ensures { result ≡ own_of own code }
{
    own && code == ACCESS_ACCEPT
}
