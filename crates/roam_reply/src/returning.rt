//! The packet that is returned for a reply (RFC 2865, section 2.3).

ghost use Rattle.std.specs.Prelude.{◌≡◌, ◌⊎◌, ◌↔◌, ◌+◌, ◌<◌, ◌≤◌, ◌++◌, take, drop};
ghost use Rattle.std.specs.Prelude.{vec_len, vec_capacity, IfErr, OnOk, OnErr, IsErrOf};
ghost use Rattle.roam_wire.specs.Packet.{packet_text};
ghost use Rattle.roam_wire.specs.Secret.{IsSecret};
ghost use Rattle.roam_crypto.specs.MessageAuthenticator.{HasAtMostOneMessageAuthenticator};
ghost use Rattle.roam_forward.specs.Removal.{removed_by};
ghost use Rattle.roam_reply.specs.Returned.{named, passing, passing_reply, unsealed_return, returned};
ghost use Rattle.roam_reply.specs.Returned.{returned_length};
ghost use Rattle.roam_reply.specs.Private.Plain.{IsPlainText};
ghost use Rattle.roam_reply.specs.Shown.{shown};

use crate::plain_packet::{append_plain, returned_len};
use crate::terms::Returning;
use roam_crypto::{Hidden, HidingKey, rehide_packet, seal_and_sign};
use roam_wire::code::ACCESS_ACCEPT;
use roam_wire::{MAX_PACKET_LENGTH, Refusal, View};
use std::alloc::Allocator;

/// Hides the salted strings of an Access-Accept anew, in place.
fn rehide_accept(octets: &mut [u8], reply: &View<'_>, request: &View<'_>, returning: &Returning<'_>)
    requires plain { IsPlainText (passing (removed_by returning.now.removal)
        (named returning.now.own request.now reply.now)) request.now octets.old }
    ensures { octets.new ≡ packet_text (unsealed_return (shown returning.now)
        (passing (removed_by returning.now.removal)
        (named returning.now.own request.now reply.now)) request.now) }
{
    if reply.code() == ACCESS_ACCEPT {
        let from = HidingKey {
            secret: returning.home_secret,
            authenticator: &returning.forwarded_authenticator,
        };
        let to = HidingKey {
            secret: returning.client_secret.octets(),
            authenticator: &request.authenticator(),
        };
        rehide_packet(octets, Hidden::SaltedStrings, from, to);
    }
}

/// Makes the returned packet of the octets that were appended for it, in place.
fn seal_for_requester(
    octets: &mut [u8],
    reply: &View<'_>,
    request: &View<'_>,
    returning: &Returning<'_>,
)
    requires plain { IsPlainText (passing (removed_by returning.now.removal)
        (named returning.now.own request.now reply.now)) request.now octets.old }
    requires at_most_one { HasAtMostOneMessageAuthenticator
        (passing (removed_by returning.now.removal)
        (named returning.now.own request.now reply.now)) }
    requires secret { IsSecret returning.now.client_secret.now }
    ensures { octets.new ≡ packet_text (returned (shown returning.now)
        (passing (removed_by returning.now.removal)
        (named returning.now.own request.now reply.now)) request.now) }
{
    rehide_accept(octets, reply, request, returning);
    seal_and_sign(octets, returning.client_secret, request.authenticator());
}

/// Makes the returned packet of the octets of a buffer from `start` on, in place.
fn seal_appended<A: Allocator>(
    out: &mut Vec<u8, A>,
    start: usize,
    reply: &View<'_>,
    request: &View<'_>,
    returning: &Returning<'_>,
)
    requires start { start ≤ vec_len out.old }
    requires plain { IsPlainText (passing (removed_by returning.now.removal)
        (named returning.now.own request.now reply.now)) request.now
        (drop start out.old.items) }
    requires at_most_one { HasAtMostOneMessageAuthenticator
        (passing (removed_by returning.now.removal)
        (named returning.now.own request.now reply.now)) }
    requires secret { IsSecret returning.now.client_secret.now }
    ensures { out.new.items ≡ take start out.old.items
        ++ packet_text (returned (shown returning.now)
        (passing (removed_by returning.now.removal)
        (named returning.now.own request.now reply.now)) request.now) }
{
    seal_for_requester(&mut out[start..], reply, request, returning);
}

/// Appends the packet that is returned to the requester for a reply that was taken (RFC 2865, section
/// 2.3): the reply's code and those of its attributes that pass with the request's Identifier, without the
/// Proxy-States that the reply came with and with the request's own in their place, sealed and signed for
/// the requester. In an Access reply the Message-Authenticator stands first, and in an Access-Accept salted
/// strings are hidden anew (RFC 2868, section 3.5; RFC 2548, section 2.4). Of Access replies alone some
/// attributes may not pass; of an Access-Accept, where own names alone pass, each User-Name of another name
/// part than the request's.
///
/// Refused in this order: `ReplyTooLong` where the packet would pass 4096 octets, looked at before
/// memory is asked for; `NoMemory`. A refusal leaves the buffer as it was, and its
/// capacity.
pub fn back<A: Allocator>(
    reply: &View<'_>,
    request: &View<'_>,
    returning: &Returning<'_>,
    out: &mut Vec<u8, A>,
) -> Result<(), Refusal>
    requires at_most_one { HasAtMostOneMessageAuthenticator reply.now }
    requires home_secret { IsSecret returning.now.home_secret.now }
    requires client_secret { IsSecret returning.now.client_secret.now }
    ensures ok { OnOk result (out.new.items ≡ out.old.items ++ packet_text (returned (shown returning.now)
        (passing_reply returning.now.own request.now (removed_by returning.now.removal) reply.now) request.now)) }
    ensures err { OnErr result (out.new.items ≡ out.old.items) }
    ensures capacity { OnErr result (vec_capacity out.new ≡ vec_capacity out.old) }

    // The size is looked at before memory is asked for.
    ensures reply_too_long { IsErrOf result Refusal.ReplyTooLong ↔ (4096 < returned_length (shown returning.now)
        (passing_reply returning.now.own request.now (removed_by returning.now.removal) reply.now) request.now) }
    ensures causes { IfErr result (λ e. (e ≡ Refusal.ReplyTooLong) ⊎ (e ≡ Refusal.NoMemory)) }

    // Memory is wanting only where there was no room for the packet.
    ensures full { IsErrOf result Refusal.NoMemory
        → vec_capacity out.old < vec_len out.old + returned_length (shown returning.now)
        (passing_reply returning.now.own request.now (removed_by returning.now.removal) reply.now) request.now }
{
    let returning = returning.of_code(reply.code());
    let size = returned_len(reply, request, &returning);
    if size > MAX_PACKET_LENGTH {
        return Err(Refusal::ReplyTooLong);
    }
    out.reserve(size).map_err(|_| Refusal::NoMemory)?;
    let start = out.len();
    append_plain(out, reply, request, &returning, size);
    seal_appended(out, start, reply, request, &returning);
    Ok(())
}
