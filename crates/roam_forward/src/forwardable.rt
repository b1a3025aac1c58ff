//! The check that a request can be forwarded.

ghost use Rattle.std.specs.Prelude.{◌≤◌, ◌↔◌, IsTrue};
ghost use Rattle.std.specs.List.{AllByRecursion};
ghost use Rattle.roam_crypto.specs.Hiding.{HasWholeBlocks};
ghost use Rattle.roam_crypto.specs.MessageAuthenticator.{HasAtMostOneMessageAuthenticator};
ghost use Rattle.roam_forward.specs.Forwarded.{forwarded_length, HasPasswordBlocks};
ghost use Rattle.roam_forward.specs.Shaped.{CanBeShaped, HasShortName, shaped, shown_shaping};

use crate::shaped::{MAX_SHAPED_GROWTH, forwarded_shaped_len};
use crate::shaping::Shaping;
use roam_crypto::has_one_message_authenticator;
use roam_wire::attribute_type::{MESSAGE_AUTHENTICATOR, USER_PASSWORD};
use roam_wire::code::ACCESS_REQUEST;
use roam_wire::{MAX_PACKET_LENGTH, View};

/// Returns whether at most one Message-Authenticator stands there, of 16 octets (RFC 3579, section 3.2).
fn has_at_most_one_message_authenticator(request: &View<'_>) -> bool
    ensures { IsTrue result ↔ HasAtMostOneMessageAuthenticator request.now }
{
    request.count(MESSAGE_AUTHENTICATOR) == 0 || has_one_message_authenticator(request)
}

/// Returns whether there is one block at least, and whole blocks alone.
fn has_whole_blocks(value: &[u8]) -> bool
    ensures { IsTrue result ↔ HasWholeBlocks value.now }
{
    !value.is_empty() && value.len() % 16 == 0
}

/// Returns whether each User-Password has whole blocks (RFC 2865, section 5.2).
fn passwords_have_blocks(request: &View<'_>) -> bool
    ensures { IsTrue result ↔ AllByRecursion HasPasswordBlocks request.now.attributes }
{
    for attribute in request.attributes() {
        if attribute.kind == USER_PASSWORD && !has_whole_blocks(attribute.value) {
            return false;
        }
    }
    true
}

/// Returns whether the packet that is forwarded for a request as it is shaped has at most 4096 octets. Of a request
/// that has the room for all that is ever added nothing is counted. Takes no memory.
pub fn fits_shaped(request: &View<'_>, shaping: &Shaping<'_>) -> bool
    requires name { HasShortName (shown_shaping shaping.now) }
    ensures { IsTrue result ↔ (forwarded_length (shaped (shown_shaping shaping.now) request.now) ≤ 4096) }
{
    if request.octets().len() + MAX_SHAPED_GROWTH <= MAX_PACKET_LENGTH {
        return true;
    }
    forwarded_shaped_len(request, shaping) <= MAX_PACKET_LENGTH
}

/// Returns whether a request can be forwarded as it is shaped: whether it has at most one Message-Authenticator, of 16
/// octets, each User-Password of an Access-Request has whole blocks, and the packet that is then forwarded has at most
/// 4096 octets. Takes no memory.
pub fn can_be_shaped(request: &View<'_>, shaping: &Shaping<'_>) -> bool
    requires name { HasShortName (shown_shaping shaping.now) }
    ensures { IsTrue result ↔ CanBeShaped (shown_shaping shaping.now) request.now }
{
    has_at_most_one_message_authenticator(request)
        && fits_shaped(request, shaping)
        && (request.code() != ACCESS_REQUEST || passwords_have_blocks(request))
}
