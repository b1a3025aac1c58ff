//! The further parts of a line of an exchange: where the request comes from, of which session it is, and who is
//! charged.

ghost use Rattle.std.specs.Prelude.{◌≡◌, ◌↔◌, ◌++◌, None, IsTrue, OnOk};
ghost use Rattle.roam_log.specs.Details as spec;
ghost use Rattle.roam_log.specs.Values.{octets_if};

use crate::exchange::Value;
use crate::exchange_line::{push, push_number, push_value};
use std::alloc::AllocError;

/// The attributes of a request that tell where it comes from and of its session, and that of its Access-Accept which
/// tells who is charged.
#[derive(Clone, Copy)]
pub struct Details {
    /// The Operator-Name (RFC 5580, section 4.1).
    pub operator: Value,
    /// The NAS-Identifier and the Called-Station-Id (RFC 2865, sections 5.32 and 5.30).
    pub nas_id: Value,
    pub called: Value,
    /// The Acct-Status-Type and the Acct-Session-Id (RFC 2866, sections 5.1 and 5.5).
    pub status: Option<u32>,
    pub session: Value,
    /// The Chargeable-User-Identity of an Access-Accept (RFC 4372, section 2.2).
    pub charged: Value,
}

/// Returns whether two values have the same octets, or both aren't there.
pub(crate) fn is_same(a: &Value, b: &Value) -> bool
    ensures { IsTrue result ↔ (octets_if a.now ≡ octets_if b.now) }
{
    match (a.octets(), b.octets()) {
        (Some(a), Some(b)) => a == b,
        (None, None) => true,
        _ => false,
    }
}

/// Returns whether two requests of access servers say the same of where they come from.
fn is_of_same_place(a: &Details, b: &Details) -> bool
    ensures { IsTrue result ↔ spec.IsOfSamePlace a.now b.now }
{
    is_same(&a.operator, &b.operator)
        && is_same(&a.nas_id, &b.nas_id)
        && is_same(&a.called, &b.called)
}

/// Returns whether they say the same of their session, and the same is charged.
fn is_of_same_session(a: &Details, b: &Details) -> bool
    ensures { IsTrue result ↔ spec.IsOfSameSession a.now b.now }
{
    a.status == b.status && is_same(&a.session, &b.session) && is_same(&a.charged, &b.charged)
}

impl Details {
    /// Makes details that say nothing.
    pub fn none() -> Details
        ensures { result ≡ spec.no_details }
    {
        Details {
            operator: Value::none(),
            nas_id: Value::none(),
            called: Value::none(),
            status: None,
            session: Value::none(),
            charged: Value::none(),
        }
    }

    /// Returns whether both say the same.
    pub(crate) fn are_same(&self, other: &Details) -> bool
        ensures { IsTrue result ↔ spec.AreSame self.now other.now }
    {
        is_of_same_place(self, other) && is_of_same_session(self, other)
    }
}

/// Adds a key and a value between quotation marks, where there is one.
fn push_if(line: &mut Vec<u8>, key: &str, value: &Value) -> Result<(), AllocError>
    ensures { OnOk result (line.new.items ≡ line.old.items ++ spec.text_if key.now (octets_if value.now)) }
{
    match value.octets() {
        Some(octets) => push_value(line, key, Some(octets)),
        None => Ok(()),
    }
}

/// Returns the word of an Acct-Status-Type, where it has one (RFC 2866, section 5.1).
fn status_word(status: u32) -> Option<&'static str>
    ensures { spec.shown_word result ≡ spec.status_word status }
{
    match status {
        1 => Some("start"),
        2 => Some("stop"),
        3 => Some("interim"),
        7 => Some("on"),
        8 => Some("off"),
        _ => None,
    }
}

/// Adds a word, or else a number.
fn push_word_or_number(
    line: &mut Vec<u8>,
    word: Option<&str>,
    number: u32,
) -> Result<(), AllocError>
    ensures { OnOk result (line.new.items
        ≡ line.old.items ++ spec.word_or_number (spec.shown_word word.entry) number) }
{
    match word {
        Some(word) => push(line, word.as_bytes()),
        None => push_number(line, "", u64::from(number)),
    }
}

/// Adds the Acct-Status-Type, where there is one: its word, or else its number.
fn push_status(line: &mut Vec<u8>, status: Option<u32>) -> Result<(), AllocError>
    ensures { OnOk result (line.new.items ≡ line.old.items ++ spec.status_text status) }
{
    let Some(status) = status else {
        return Ok(());
    };
    push(line, b" status=")?;
    push_word_or_number(line, status_word(status), status)
}

/// Adds what is said, each where it is there.
pub(crate) fn push_details(line: &mut Vec<u8>, details: &Details) -> Result<(), AllocError>
    ensures { OnOk result (line.new.items ≡ line.old.items ++ spec.details_text details.now) }
{
    push_if(line, " operator=", &details.operator)?;
    push_if(line, " nas_id=", &details.nas_id)?;
    push_if(line, " called=", &details.called)?;
    push_status(line, details.status)?;
    push_if(line, " session=", &details.session)?;
    push_if(line, " cui=", &details.charged)
}
