//! The cause of a NAK, in the line of its exchange.

ghost use Rattle.std.specs.Prelude.{◌≡◌, ◌++◌, OnOk};
ghost use Rattle.roam_log.specs.Details.{shown_word};
ghost use Rattle.roam_log.specs.ErrorCauses as spec;

use crate::exchange_line::{push, push_number};
use std::alloc::AllocError;

/// Returns the word of an Error-Cause, where it has one (RFC 5176, section 3.5).
fn error_cause_word(cause: u32) -> Option<&'static str>
    ensures { shown_word result ≡ spec.error_cause_word cause }
{
    match cause {
        201 => Some("residual_session_context_removed"),
        202 => Some("invalid_eap_packet"),
        401 => Some("unsupported_attribute"),
        402 => Some("missing_attribute"),
        403 => Some("nas_identification_mismatch"),
        404 => Some("invalid_request"),
        405 => Some("unsupported_service"),
        406 => Some("unsupported_extension"),
        407 => Some("invalid_attribute_value"),
        501 => Some("administratively_prohibited"),
        502 => Some("request_not_routable"),
        503 => Some("session_context_not_found"),
        504 => Some("session_context_not_removable"),
        505 => Some("other_proxy_processing_error"),
        506 => Some("resources_unavailable"),
        507 => Some("request_initiated"),
        508 => Some("multiple_session_selection_unsupported"),
        _ => None,
    }
}

/// Adds the word of a cause, where it has one.
fn push_cause_word(line: &mut Vec<u8>, word: Option<&str>) -> Result<(), AllocError>
    ensures { OnOk result (line.new.items ≡ line.old.items ++ spec.cause_if (shown_word word.entry)) }
{
    let Some(word) = word else {
        return Ok(());
    };
    push(line, b" cause=")?;
    push(line, word.as_bytes())
}

/// Adds why a NAK was given, where it says so: the number, and its word.
pub(crate) fn push_error_cause(line: &mut Vec<u8>, cause: Option<u32>) -> Result<(), AllocError>
    ensures { OnOk result (line.new.items ≡ line.old.items ++ spec.error_cause_text cause) }
{
    let Some(cause) = cause else {
        return Ok(());
    };
    push_number(line, " error_cause=", u64::from(cause))?;
    push_cause_word(line, error_cause_word(cause))
}
