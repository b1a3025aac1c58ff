//! The octets of a returned packet, appended to a buffer, before its salted strings are hidden anew and
//! it is sealed and signed.

ghost use Rattle.std.specs.Prelude.{◌≡◌, ◌+◌, ◌≤◌, ◌++◌, length, filter, vec_len, vec_capacity};
ghost use Rattle.roam_wire.specs.Packet.{IsPacket, attributes_text, packet_length, packet_text};
ghost use Rattle.roam_wire.specs.Shown.{shown};
ghost use Rattle.roam_forward.specs.Removal.{removed_by};
ghost use Rattle.roam_forward.specs.Without.{without};
ghost use Rattle.roam_reply.specs.Returned.{is_own, named, passing, returned_length};
ghost use Rattle.roam_reply.specs.Shown.{shown as shown_returning};
ghost use Rattle.roam_reply.specs.Private.Plain.{is_carried, first_seal, own_piece, plain_packet};

use crate::own_names::is_kept;
use crate::terms::{Passing, Returning};
use roam_forward::{append_passed, passed_len};
use roam_wire::attribute_type::{MESSAGE_AUTHENTICATOR, PROXY_STATE};
use roam_wire::code::is_access_reply;
use roam_wire::writing::{
    EMPTY_MESSAGE_AUTHENTICATOR, append_header, append_octets, append_proxy_states,
    proxy_states_len,
};
use roam_wire::{Attr, View};
use std::alloc::Allocator;

/// Returns whether an attribute of a reply is returned: no Proxy-State is, and no Message-Authenticator of an
/// Access reply.
#[tactic(auto, unfolding(crate::specs::Private::Plain::is_carried))]
pub(crate) fn is_carried(attribute: &Attr<'_>, access: bool) -> bool
    ensures { result ≡ is_carried access (shown attribute.now) }
{
    attribute.kind != PROXY_STATE && !(access && attribute.kind == MESSAGE_AUTHENTICATOR)
}

/// Returns how many octets the Message-Authenticator takes that stands first in an Access reply.
fn seal_len(access: bool) -> usize
    ensures { result ≡ length (attributes_text (first_seal access)) }
{
    if access {
        EMPTY_MESSAGE_AUTHENTICATOR.len()
    } else {
        0
    }
}

/// Returns how many octets what is returned of an attribute of a reply takes.
fn piece_len(attribute: &Attr<'_>, terms: Passing<'_, '_>) -> usize
    requires { length attribute.now.value.now ≤ 253 }
    ensures { result ≡ length (attributes_text (own_piece terms.entry.access (removed_by terms.entry.removal.now)
        (is_own terms.entry.own terms.entry.request.now) (shown attribute.now))) }
{
    if is_kept(attribute, terms.access, terms.own, terms.request) {
        passed_len(attribute, terms.removal)
    } else {
        0
    }
}

/// Returns how many octets the attributes of a reply take that pass and are returned. One pass.
fn carried_len(reply: &View<'_>, terms: Passing<'_, '_>) -> usize
    ensures all { result ≡ length (attributes_text (filter (is_carried terms.entry.access)
        (without (removed_by terms.entry.removal.now)
        (filter (is_own terms.entry.own terms.entry.request.now) reply.now.attributes)))) }
    ensures few { result ≤ 4076 }
    ensures packet { IsPacket reply.now }
{
    let mut size = 0;
    for attribute in reply.attributes() {
        size += piece_len(&attribute, terms);
    }
    size
}

/// Computes the size of the packet that is returned, in octets: the header, a Message-Authenticator in an Access
/// reply, the reply's attributes that pass and are returned, the request's Proxy-States.
pub(crate) fn returned_len(reply: &View<'_>, request: &View<'_>, returning: &Returning<'_>) -> usize
    ensures plain { result ≡ packet_length (plain_packet
        (passing (removed_by returning.now.removal) (named returning.now.own request.now reply.now)) request.now) }
    ensures returned { result ≡ returned_length (shown_returning returning.now)
        (passing (removed_by returning.now.removal) (named returning.now.own request.now reply.now)) request.now }
    ensures reply { IsPacket reply.now }
    ensures request { IsPacket request.now }
{
    let access = is_access_reply(reply.code());
    let terms = Passing {
        access,
        removal: &returning.removal,
        own: returning.own,
        request,
    };
    20 + seal_len(access) + carried_len(reply, terms) + proxy_states_len(request)
}

/// Appends a Message-Authenticator that is still to be filled in, to an Access reply.
fn append_seal<A: Allocator>(out: &mut Vec<u8, A>, access: bool)
    requires { vec_len out.old + length (attributes_text (first_seal access)) ≤ vec_capacity out.old }
    ensures items { out.new.items ≡ out.old.items ++ attributes_text (first_seal access) }
    ensures capacity { vec_capacity out.new ≡ vec_capacity out.old }
{
    if access {
        append_octets(out, &EMPTY_MESSAGE_AUTHENTICATOR);
    }
}

/// Appends what is returned of an attribute of a reply.
fn append_piece<A: Allocator>(out: &mut Vec<u8, A>, attribute: Attr<'_>, terms: Passing<'_, '_>)
    requires short { length attribute.value.now ≤ 253 }
    requires room { vec_len out.old + length (attributes_text
        (own_piece terms.access (removed_by terms.removal.now) (is_own terms.own terms.request.now) (shown attribute)))
        ≤ vec_capacity out.old }
    ensures items { out.new.items ≡ out.old.items ++ attributes_text
        (own_piece terms.entry.access (removed_by terms.entry.removal.now)
        (is_own terms.entry.own terms.entry.request.now) (shown attribute.entry)) }
    ensures capacity { vec_capacity out.new ≡ vec_capacity out.old }
{
    if is_kept(&attribute, terms.access, terms.own, terms.request) {
        append_passed(out, attribute, terms.removal);
    }
}

/// Appends the attributes of a reply that pass and are returned.
fn append_carried<A: Allocator>(out: &mut Vec<u8, A>, reply: &View<'_>, terms: Passing<'_, '_>)
    requires { vec_len out.old + length (attributes_text (filter (is_carried terms.access)
        (without (removed_by terms.removal.now) (filter (is_own terms.own terms.request.now) reply.now.attributes))))
        ≤ vec_capacity out.old }
    ensures items { out.new.items ≡ out.old.items ++ attributes_text (filter (is_carried terms.entry.access)
        (without (removed_by terms.entry.removal.now)
        (filter (is_own terms.entry.own terms.entry.request.now) reply.now.attributes))) }
    ensures capacity { vec_capacity out.new ≡ vec_capacity out.old }
{
    for next in reply.attributes() {
        append_piece(out, next, terms);
    }
}

/// Appends the packet that is returned, of so many octets, before its salted strings are hidden anew and it is sealed
/// and signed.
pub(crate) fn append_plain<A: Allocator>(
    out: &mut Vec<u8, A>,
    reply: &View<'_>,
    request: &View<'_>,
    returning: &Returning<'_>,
    size: usize,
)
    requires size { size ≡ packet_length (plain_packet
        (passing (removed_by returning.now.removal) (named returning.now.own request.now reply.now)) request.now) }
    requires short { size ≤ 4096 }
    requires room { vec_len out.old + size ≤ vec_capacity out.old }
    ensures { out.new.items ≡ out.old.items ++ packet_text (plain_packet
        (passing (removed_by returning.now.removal) (named returning.now.own request.now reply.now)) request.now) }
{
    let access = is_access_reply(reply.code());
    append_header(
        out,
        reply.code(),
        request.id(),
        size,
        &request.authenticator(),
    );
    append_seal(out, access);
    let terms = Passing {
        access,
        removal: &returning.removal,
        own: returning.own,
        request,
    };
    append_carried(out, reply, terms);
    append_proxy_states(out, request);
}
