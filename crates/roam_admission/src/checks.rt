//! The checks of a request: how many attributes it has, its signature, its seal, its passwords.

ghost use Rattle.std.specs.Prelude.{◌≡◌, [], ◌∷◌, false, not, option_map};
ghost use Rattle.roam_wire.specs.Secret.{IsSecret};
ghost use Rattle.std.specs.Option.{option_map_or};
ghost use Rattle.roam_crypto.specs.Deciding.{is_well_sealed};
ghost use Rattle.roam_crypto.specs.Hiding.{password_fits};
ghost use Rattle.roam_admission.specs.Admission.{has_few_attributes, has_few_hops, has_needed_seal, has_seal};
ghost use Rattle.roam_admission.specs.Admission.{is_rightly_sealed, is_rightly_signed, is_unnamed};
ghost use Rattle.roam_admission.specs.LocalReject.{has_bad_password, has_too_many_hops};

use roam_crypto::{Secret, ZERO_OCTETS, message_ok, password_fits, request_ok};
use roam_wire::View;
use roam_wire::attribute_type::{
    CHAP_PASSWORD, EAP_MESSAGE, MESSAGE_AUTHENTICATOR, PROXY_STATE, USER_NAME, USER_PASSWORD,
};
use roam_wire::code::ACCESS_REQUEST;

/// Returns whether a request is signed where its code says that it is (RFC 2866, section 3; RFC 5176, section
/// 2.3).
pub(crate) fn is_rightly_signed(request: &View<'_>, secret: &Secret) -> bool
    requires secret { IsSecret secret.now }
    ensures { result ≡ is_rightly_signed secret.now request.now }
{
    request.code() == ACCESS_REQUEST || request_ok(request, secret.octets())
}

/// Returns whether a request is well sealed over an Authenticator (RFC 3579, section 3.2).
pub(crate) fn is_sealed_over(request: &View<'_>, secret: &Secret, authenticator: [u8; 16]) -> bool
    requires secret { IsSecret secret.now }
    ensures { result ≡ is_well_sealed secret.now (authenticator ∷ []) request.now }
{
    message_ok(request, secret, authenticator)
}

/// Returns whether a request is well sealed: over its own Authenticator in an Access-Request, over zeros in
/// any other (RFC 3579, section 3.2).
pub(crate) fn is_rightly_sealed(request: &View<'_>, secret: &Secret) -> bool
    requires secret { IsSecret secret.now }
    ensures { result ≡ is_rightly_sealed secret.now request.now }
{
    if request.code() == ACCESS_REQUEST {
        is_sealed_over(request, secret, request.authenticator())
    } else {
        is_sealed_over(request, secret, ZERO_OCTETS)
    }
}

/// Returns whether an Access-Request has a Message-Authenticator where it must: with an EAP-Message (RFC
/// 3579, section 3.1), and where its sender is required to seal.
pub(crate) fn has_needed_seal(request: &View<'_>, required: bool) -> bool
    ensures { result ≡ has_needed_seal required request.now }
{
    request.code() != ACCESS_REQUEST
        || request.count(MESSAGE_AUTHENTICATOR) > 0
        || (request.count(EAP_MESSAGE) == 0 && !required)
}

/// Returns whether a packet has a Message-Authenticator.
pub(crate) fn has_seal(request: &View<'_>) -> bool
    ensures { result ≡ has_seal request.now }
{
    request.count(MESSAGE_AUTHENTICATOR) > 0
}

/// Returns whether more proxies forwarded a request than may, where there is a limit: each adds a Proxy-State
/// (RFC 2865, section 5.33).
pub(crate) fn has_too_many_hops(request: &View<'_>, most: Option<u8>) -> bool
    ensures { result ≡ has_too_many_hops most request.now }
{
    match most {
        Some(most) => request.count(PROXY_STATE) > usize::from(most),
        None => false,
    }
}

/// Returns whether a request has no more attributes than may be, where there is a limit.
pub(crate) fn has_few_attributes(request: &View<'_>, most: Option<u16>) -> bool
    ensures { result ≡ has_few_attributes most request.now }
{
    match most {
        None => true,
        Some(most) => request.attributes().count() <= usize::from(most),
    }
}

/// Returns whether a request that is forwarded hasn't too many hops: an Access-Request that has is answered by a
/// local reject.
pub(crate) fn has_few_hops(request: &View<'_>, most: Option<u8>) -> bool
    ensures { result ≡ has_few_hops most request.now }
{
    request.code() == ACCESS_REQUEST || !has_too_many_hops(request, most)
}

/// Returns whether a User-Password has a size that it can't have (RFC 2865, section 5.2).
fn is_of_wrong_size(password: Option<&[u8]>) -> bool
    ensures { result ≡ option_map_or (λ value. not (password_fits value))
        (option_map (λ value. value.now) password.entry) false }
{
    match password {
        Some(value) => !password_fits(value.len()),
        None => false,
    }
}

/// Returns whether an Access-Request's passwords can't be carried: both User-Password and CHAP-Password,
/// two User-Passwords, or one of another size (RFC 2865, sections 4.1 and 5.2).
pub(crate) fn has_bad_password(request: &View<'_>) -> bool
    ensures { result ≡ has_bad_password request.now }
{
    let passwords = request.count(USER_PASSWORD);
    (passwords > 0 && request.count(CHAP_PASSWORD) > 0)
        || passwords > 1
        || is_of_wrong_size(request.first(USER_PASSWORD))
}

/// Returns whether a request has no User-Name.
pub(crate) fn is_unnamed(request: &View<'_>) -> bool
    ensures { result ≡ is_unnamed request.now.attributes }
{
    request.first(USER_NAME).is_none()
}
