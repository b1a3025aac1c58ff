//! The answers that the broker gives itself: the local reject (RFC 2865, section 4.3), and the answer to
//! a Status-Server (RFC 5997, section 3).

ghost use Rattle.std.specs.Prelude.{◌≡◌, ◌⊎◌, ◌↔◌, ◌+◌, ◌<◌, ◌≤◌, ◌++◌, length, vec_len, vec_capacity};
ghost use Rattle.std.specs.Prelude.{IfOk, IfErr, IsErrOf};
ghost use Rattle.roam_wire.specs.Packet.{IsPacket, attributes_text, packet_length, packet_text};
ghost use Rattle.roam_wire.specs.Secret.{IsSecret};
ghost use Rattle.roam_crypto.specs.MessageAuthenticator.{HasAtMostOneMessageAuthenticator, HasOneMessageAuthenticator};
ghost use Rattle.roam_admission.specs.LocalAnswer.{accounting_answer, answering_seal, unsealed_accounting_answer};
ghost use Rattle.roam_admission.specs.LocalAnswer.{answer_length, local_answer, local_reject, status_answer, status_code};
ghost use Rattle.roam_admission.specs.LocalAnswer.{unsealed_answer};

use crate::checks::has_seal;
use roam_conf::Place;
use roam_crypto::{Secret, ZERO_OCTETS, seal_and_sign};
use roam_wire::attribute_type::{MESSAGE_AUTHENTICATOR, PROXY_STATE};
use roam_wire::code::{ACCESS_ACCEPT, ACCESS_REJECT, ACCOUNTING_RESPONSE};
use roam_wire::writing::{
    EMPTY_MESSAGE_AUTHENTICATOR, append_header, append_octets, append_proxy_states,
    proxy_states_len,
};
use roam_wire::{MAX_PACKET_LENGTH, NoMemory, Octets, PacketBuf, Refusal, View};
use std::alloc::Allocator;

/// Returns how many octets a local answer to a request has: the header, a Message-Authenticator, the request's
/// Proxy-States.
fn answer_len(request: &View<'_>) -> usize
    ensures size { result ≡ answer_length request.now }
    ensures packet { IsPacket request.now }
{
    38 + proxy_states_len(request)
}

/// Makes a local answer of this code, before it has its Message-Authenticator and is signed.
fn unsealed<A: Allocator>(alloc: A, code: u8, request: &View<'_>) -> Result<Vec<u8, A>, Refusal>
    ensures text { IfOk result (λ v. v.items ≡ packet_text (unsealed_answer code request.now)) }
    ensures packet { IfOk result (λ v. IsPacket (unsealed_answer code request.now)) }
    ensures too_long { IsErrOf result Refusal.TooLong → 4096 < answer_length request.now }
    ensures causes { IfErr result (λ e. (e ≡ Refusal.TooLong) ⊎ (e ≡ Refusal.NoMemory)) }
{
    let mut packet = PacketBuf::start(alloc, code, request.id(), &request.authenticator())?;
    packet.push_attr(MESSAGE_AUTHENTICATOR, &ZERO_OCTETS)?;
    for attribute in request.attributes() {
        if attribute.kind == PROXY_STATE {
            packet.push_attr(PROXY_STATE, attribute.value)?;
        }
    }
    Ok(packet.finish())
}

/// Makes a local answer of this code: a Message-Authenticator and the request's Proxy-States, signed for the access
/// server with this secret (RFC 3579, section 3.2; RFC 2865, section 3).
///
/// Refused in this order: `TooLong` where it would pass 4096 octets, looked at before memory is asked for;
/// `NoMemory`.
fn answer<A: Allocator>(
    alloc: A,
    code: u8,
    request: &View<'_>,
    secret: &Secret,
) -> Result<Octets<A>, Refusal>
    requires secret { IsSecret secret.now }
    ensures ok { IfOk result (λ o. o ≡ packet_text (local_answer code secret.now request.now)) }
    ensures too_long { IsErrOf result Refusal.TooLong ↔ (4096 < answer_length request.now) }
    ensures causes { IfErr result (λ e. (e ≡ Refusal.TooLong) ⊎ (e ≡ Refusal.NoMemory)) }
    ensures packet { IsPacket request.now }
{
    if answer_len(request) > MAX_PACKET_LENGTH {
        return Err(Refusal::TooLong);
    }
    let mut octets = unsealed(alloc, code, request)?;
    seal_and_sign(octets.as_mut_slice(), secret, request.authenticator());
    Ok(Octets::from_vec(octets))
}

/// Makes the local reject of an Access-Request: a Message-Authenticator and the request's Proxy-States, signed for
/// the access server with this secret (RFC 2865, section 4.3; RFC 3579, section 3.2).
///
/// Refused in this order: `TooLong` where it would pass 4096 octets, looked at before memory is asked for;
/// `NoMemory`.
pub fn reject<A: Allocator>(
    alloc: A,
    request: &View<'_>,
    secret: &Secret,
) -> Result<Octets<A>, Refusal>
    requires secret { IsSecret secret.now }
    ensures ok { IfOk result (λ o. o ≡ packet_text (local_reject secret.now request.now)) }
    ensures too_long { IsErrOf result Refusal.TooLong ↔ (4096 < answer_length request.now) }
    ensures causes { IfErr result (λ e. (e ≡ Refusal.TooLong) ⊎ (e ≡ Refusal.NoMemory)) }
{
    answer(alloc, ACCESS_REJECT, request, secret)
}

/// Returns the code that answers a Status-Server at a place (RFC 5997, section 3).
pub(crate) fn status_code(at: Place) -> u8
    ensures { result ≡ status_code at }
{
    match at {
        Place::Acct(_) => ACCOUNTING_RESPONSE,
        _ => ACCESS_ACCEPT,
    }
}

/// Returns what answers a Status-Server at a place: an Access-Accept, or at `acct` an Accounting-Response, with a
/// Message-Authenticator and the request's Proxy-States, sealed and signed for the peer with this secret
/// (RFC 5997, section 3; RFC 3579, section 3.2). It is no longer than the request, which has a
/// Message-Authenticator itself, and so never too long. `NoMemory` where a growth was refused.
pub fn status_answer<A: Allocator>(
    alloc: A,
    at: Place,
    request: &View<'_>,
    secret: &Secret,
) -> Result<Octets<A>, Refusal>
    requires sealed { HasOneMessageAuthenticator request.now }
    requires secret { IsSecret secret.now }
    ensures ok { IfOk result (λ o. o ≡ packet_text (status_answer at secret.now request.now)) }
    ensures causes { IfErr result (λ e. e ≡ Refusal.NoMemory) }
{
    answer(alloc, status_code(at), request, secret)
}

/// Returns how many octets the Message-Authenticator takes with which an Accounting-Request is answered.
fn answering_seal_len(request: &View<'_>) -> usize
    ensures { result ≡ length (attributes_text (answering_seal request.now)) }
{
    if has_seal(request) {
        EMPTY_MESSAGE_AUTHENTICATOR.len()
    } else {
        0
    }
}

/// Returns how many octets the answer to an Accounting-Request has that isn't forwarded.
fn accounting_answer_len(request: &View<'_>) -> usize
    requires sealed { HasAtMostOneMessageAuthenticator request.now }
    ensures size { result ≡ packet_length (unsealed_accounting_answer request.now) }
    ensures short { result ≤ 4096 }
    ensures packet { IsPacket request.now }
{
    20 + answering_seal_len(request) + proxy_states_len(request)
}

/// Appends a Message-Authenticator that is still to be filled in, where the request has one.
fn append_answering_seal<A: Allocator>(out: &mut Vec<u8, A>, request: &View<'_>)
    requires { vec_len out.old + length (attributes_text (answering_seal request.now)) ≤ vec_capacity out.old }
    ensures items { out.new.items ≡ out.old.items ++ attributes_text (answering_seal request.now) }
    ensures capacity { vec_capacity out.new ≡ vec_capacity out.old }
{
    if has_seal(request) {
        append_octets(out, &EMPTY_MESSAGE_AUTHENTICATOR);
    }
}

/// Makes the answer to an Accounting-Request, before it has its Message-Authenticator and is signed.
fn unsealed_accounting<A: Allocator>(alloc: A, request: &View<'_>) -> Result<Vec<u8, A>, NoMemory>
    requires sealed { HasAtMostOneMessageAuthenticator request.now }
    ensures text { IfOk result (λ v. v.items ≡ packet_text (unsealed_accounting_answer request.now)) }
    ensures packet { IsPacket (unsealed_accounting_answer request.now) }
    ensures request { IsPacket request.now }
{
    let size = accounting_answer_len(request);
    let mut out = Vec::with_capacity(alloc, size)?;
    append_header(
        &mut out,
        ACCOUNTING_RESPONSE,
        request.id(),
        size,
        &request.authenticator(),
    );
    append_answering_seal(&mut out, request);
    append_proxy_states(&mut out, request);
    Ok(out)
}

/// Makes the answer to an Accounting-Request that isn't forwarded: an Accounting-Response with a
/// Message-Authenticator where the request has one, and the request's Proxy-States, signed for the peer with this
/// secret (RFC 2866, section 4.2). It is no longer than the request.
pub fn accounting_answer<A: Allocator>(
    alloc: A,
    request: &View<'_>,
    secret: &Secret,
) -> Result<Octets<A>, NoMemory>
    requires sealed { HasAtMostOneMessageAuthenticator request.now }
    requires secret { IsSecret secret.now }
    ensures { IfOk result (λ o. o ≡ packet_text (accounting_answer secret.now request.now)) }
{
    let mut octets = unsealed_accounting(alloc, request)?;
    seal_and_sign(octets.as_mut_slice(), secret, request.authenticator());
    Ok(Octets::from_vec(octets))
}
