//! The replies that are taken (RFC 2865, section 2.3): by their code, their Response Authenticator and their
//! Message-Authenticator.

ghost use Rattle.std.specs.Prelude.{◌≡◌, ◌⊎◌, ◌↔◌, IsTrue, IsOk, IfErr, IsErrOf};
ghost use Rattle.roam_wire.specs.Secret.{IsSecret};
ghost use Rattle.std.specs.Result.{result_err};
ghost use Rattle.roam_crypto.specs.Authenticators.{IsSignedReply};
ghost use Rattle.roam_crypto.specs.MessageAuthenticator.{IsWellSealed};
ghost use Rattle.roam_reply.specs.ReplyCheck.{answers, sealing_authenticators, HasRequiredSeal, HasSealForEap};
ghost use Rattle.roam_reply.specs.ReplyCheck.{IsRightlySealed, IsTaken, reply_fault};

use roam_crypto::{Secret, ZERO_OCTETS, message_ok, response_ok};
use roam_wire::attribute_type::{EAP_MESSAGE, MESSAGE_AUTHENTICATOR};
use roam_wire::code::{
    ACCESS_REQUEST, ACCOUNTING_REQUEST, ACCOUNTING_RESPONSE, COA_ACK, COA_NAK, COA_REQUEST,
    DISCONNECT_ACK, DISCONNECT_NAK, DISCONNECT_REQUEST, is_access_reply,
};
use roam_wire::{Refusal, View};

/// Returns whether a reply's code answers a request's (RFC 2865 section 4, RFC 2866 section 4, RFC 5176
/// section 2.3).
fn answers(request: u8, reply: u8) -> bool
    ensures { IsTrue result ↔ IsTrue (answers request reply) }
{
    match request {
        ACCESS_REQUEST => is_access_reply(reply),
        ACCOUNTING_REQUEST => reply == ACCOUNTING_RESPONSE,
        DISCONNECT_REQUEST => reply == DISCONNECT_ACK || reply == DISCONNECT_NAK,
        COA_REQUEST => reply == COA_ACK || reply == COA_NAK,
        _ => false,
    }
}

/// Returns whether a reply is well sealed for one of the Authenticators over which its Message-Authenticator
/// may be (RFC 3579, section 3.2).
fn is_well_sealed(reply: &View<'_>, forwarded: &View<'_>, secret: &Secret) -> bool
    requires secret { IsSecret secret.now }
    ensures { IsTrue result
        ↔ IsWellSealed secret.now (sealing_authenticators reply.now forwarded.now) reply.now }
{
    if message_ok(reply, secret, forwarded.authenticator()) {
        return true;
    }
    !is_access_reply(reply.code()) && message_ok(reply, secret, ZERO_OCTETS)
}

/// Returns whether a reply has a Message-Authenticator where it needs one for its EAP-Message (RFC 3579,
/// section 3.1).
fn has_seal_for_eap(reply: &View<'_>) -> bool
    ensures { IsTrue result ↔ HasSealForEap reply.now }
{
    !is_access_reply(reply.code())
        || reply.count(EAP_MESSAGE) == 0
        || reply.count(MESSAGE_AUTHENTICATOR) > 0
}

/// Returns whether an Access reply has a Message-Authenticator where its home server is required to seal. A
/// reply without one may be forged by who stands between (CVE-2024-3596).
fn has_required_seal(reply: &View<'_>, seal_required: bool) -> bool
    ensures { IsTrue result ↔ HasRequiredSeal seal_required reply.now }
{
    !seal_required || !is_access_reply(reply.code()) || reply.count(MESSAGE_AUTHENTICATOR) > 0
}

/// Returns whether a reply is rightly sealed for a forwarded request (RFC 3579, sections 3.1 and 3.2).
fn is_rightly_sealed(
    reply: &View<'_>,
    forwarded: &View<'_>,
    secret: &Secret,
    seal_required: bool,
) -> bool
    requires secret { IsSecret secret.now }
    ensures { IsTrue result ↔ IsRightlySealed secret.now seal_required reply.now forwarded.now }
{
    is_well_sealed(reply, forwarded, secret)
        && has_seal_for_eap(reply)
        && has_required_seal(reply, seal_required)
}

/// Returns whether a reply to a forwarded request is taken, with the secret of the link from which it came,
/// of 1 to 64 octets, and whether its home server is required to seal its Access replies. Takes no
/// memory.
///
/// Refused in this order: `WrongReply` where the reply's code doesn't answer the request's (RFC 2865
/// section 4, RFC 2866 section 4, RFC 5176 section 2.3); `BadReply` where its Response Authenticator
/// is wrong (RFC 2865, section 3); `BadReplyMessageAuthenticator` where it has two
/// Message-Authenticators, one that hasn't 16 octets, or a wrong one, or where an Access reply has
/// none, and has an EAP-Message (RFC 3579, sections 3.1 and 3.2) or a seal is required: a reply without
/// one may be forged by who stands between (CVE-2024-3596). In accounting and reverse replies a
/// Message-Authenticator over sixteen zero octets is right as well.
pub fn check_reply(
    reply: &View<'_>,
    forwarded: &View<'_>,
    secret: &Secret,
    seal_required: bool,
) -> Result<(), Refusal>
    requires secret { IsSecret secret.now }
    ensures taken { IsOk result ↔ IsTaken secret.now seal_required reply.now forwarded.now }
    ensures fault { result_err result
        ≡ reply_fault secret.now seal_required reply.now forwarded.now }

    // Each cause is looked at once those before it don't hold.
    ensures wrong_reply { IsErrOf result Refusal.WrongReply
        ↔ (¬ IsTrue (answers forwarded.now.code reply.now.code)) }
    ensures bad_reply { IsErrOf result Refusal.BadReply
        ↔ (IsTrue (answers forwarded.now.code reply.now.code)
        × ¬ IsSignedReply secret.now forwarded.now.authenticator reply.now) }
    ensures bad_message_authenticator { IsErrOf result Refusal.BadReplyMessageAuthenticator
        ↔ (IsTrue (answers forwarded.now.code reply.now.code)
        × IsSignedReply secret.now forwarded.now.authenticator reply.now
        × ¬ IsRightlySealed secret.now seal_required reply.now forwarded.now) }
    ensures causes { IfErr result (λ e. (e ≡ Refusal.WrongReply) ⊎ (e ≡ Refusal.BadReply)
        ⊎ (e ≡ Refusal.BadReplyMessageAuthenticator)) }
{
    if !answers(forwarded.code(), reply.code()) {
        return Err(Refusal::WrongReply);
    }
    if !response_ok(reply, forwarded.authenticator(), secret.octets()) {
        return Err(Refusal::BadReply);
    }
    if !is_rightly_sealed(reply, forwarded, secret, seal_required) {
        return Err(Refusal::BadReplyMessageAuthenticator);
    }
    Ok(())
}
