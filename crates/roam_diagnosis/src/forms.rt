//! The forms of what may stand under a key.

use crate::network_forms::NetworkForm;
use roam_conf::removed_attribute;
use roam_wire::RemovedAttribute;
use toml::Value;

/// The form of the value under a key.
#[derive(Clone, Copy)]
pub(crate) enum ValueForm {
    /// An integer from the first to the second.
    Number(u32, u32),
    Flag,
    /// A boolean, or one of three texts: of which exchanges lines tell.
    ExchangeLines,
    /// One of two texts: how lines have a station.
    StationWord,
    /// 64 hexadecimal digits.
    Seed,
    /// A text that says where something is.
    Network(NetworkForm),
    /// An endpoint, or an array of 1 to so many.
    Endpoints(u32),
    /// A prefix, or an array of 1 to so many.
    Prefixes(u32),
    /// An array of so many to so many endpoints of 127.0.0.0/8.
    LocalEndpoints(u32, u32),
    /// A text of 1 to so many octets.
    Text(u32),
    /// A text of one digit.
    Digit,
    /// A text of 1 to so many octets, none of them 0.
    Path(u32),
    /// A text of 1 to 64 octets, which is never shown.
    Secret,
    /// 1 to 64 of ASCII letters, digits, `.`, `-` and `_`.
    PeerName,
    /// 1 to 253 of ASCII letters, digits, `.` and `-`.
    RealmName,
    /// At most 256 texts: each a realm's name, `*.` and one, or `*`.
    Names,
    /// At most 1024 texts: each a realm's name, or `*.` and one.
    Rejects,
    /// 1 to 1024 texts of 1 to 64 octets.
    PeerNames,
    /// At most 1024 texts of 1 to 253 octets.
    NasIds,
    /// At most 64 texts, each an attribute that may be taken out of requests.
    RequestRemovals,
    /// The same of replies.
    ReplyRemovals,
    /// One of three texts: what becomes of accounting.
    Accounting,
    /// One of two texts: with which server the targets of a request begin.
    Balance,
    /// So many to so many tables.
    Tables(u32, u32),
}

/// Returns the least and the most of what a form counts: a number, octets of a text, items of an array.
pub(crate) fn bounds_of(form: ValueForm) -> Option<(u32, u32)> {
    match form {
        ValueForm::Number(least, most)
        | ValueForm::LocalEndpoints(least, most)
        | ValueForm::Tables(least, most) => Some((least, most)),
        ValueForm::Endpoints(most)
        | ValueForm::Prefixes(most)
        | ValueForm::Text(most)
        | ValueForm::Path(most) => Some((1, most)),
        ValueForm::Secret | ValueForm::PeerName => Some((1, 64)),
        ValueForm::RealmName => Some((1, 253)),
        ValueForm::Names => Some((0, 256)),
        ValueForm::Rejects | ValueForm::NasIds => Some((0, 1024)),
        ValueForm::PeerNames => Some((1, 1024)),
        ValueForm::RequestRemovals | ValueForm::ReplyRemovals => Some((0, 64)),
        _ => None,
    }
}

/// Returns whether the text has 1 to `most` octets.
fn has_length(text: &str, most: u32) -> bool {
    !text.is_empty() && text.len() <= most as usize
}

/// Returns whether the text has 1 to `most` octets: ASCII letters, digits, `.`, `-`, and `_` where that may stand.
fn is_name(text: &str, most: u32, may_have_underscore: bool) -> bool {
    for octet in text.bytes() {
        let fits = match octet {
            b'.' | b'-' => true,
            b'_' => may_have_underscore,
            _ => octet.is_ascii_alphanumeric(),
        };
        if !fits {
            return false;
        }
    }
    has_length(text, most)
}

fn is_seed(text: &str) -> bool {
    for octet in text.bytes() {
        if !octet.is_ascii_hexdigit() {
            return false;
        }
    }
    text.len() == 64
}

fn is_digit(text: &str) -> bool {
    match text.as_bytes() {
        [octet] => octet.is_ascii_digit(),
        _ => false,
    }
}

fn is_path(text: &str, most: u32) -> bool {
    for octet in text.bytes() {
        if octet == 0 {
            return false;
        }
    }
    has_length(text, most)
}

/// Returns whether the text is `*`, `*.` and a realm's name, or such a name.
fn is_pattern(text: &str) -> bool {
    if text == "*" {
        return true;
    }
    match text.strip_prefix("*.") {
        Some(name) => is_name(name, 253, false),
        None => is_name(text, 253, false),
    }
}

/// Returns whether the text names an attribute, and none of these Types.
fn is_removal(text: &str, kept: &[u8]) -> bool {
    match removed_attribute(text) {
        Some(RemovedAttribute::Kind(kind)) => !kept.contains(&kind),
        Some(_) => true,
        None => false,
    }
}

/// The Types of requests that are never taken out.
const KEPT_OF_REQUESTS: [u8; 8] = [1, 2, 3, 24, 33, 60, 79, 80];

/// The same of replies.
const KEPT_OF_REPLIES: [u8; 4] = [24, 33, 79, 80];

/// Returns the words of a form that has some.
fn words_of(form: ValueForm) -> &'static [&'static str] {
    match form {
        ValueForm::Accounting => &["forward", "answer", "drop"],
        ValueForm::Balance => &["order", "user"],
        ValueForm::ExchangeLines => &["all", "final", "none"],
        ValueForm::StationWord => &["clear", "hmac"],
        _ => &[],
    }
}

/// Returns whether the text is of the form, where that is one of texts.
fn text_fits(form: ValueForm, text: &str) -> bool {
    match form {
        ValueForm::Seed => is_seed(text),
        ValueForm::Network(form) => form.fits(text),
        ValueForm::Endpoints(_) => NetworkForm::Endpoint.fits(text),
        ValueForm::Prefixes(_) => NetworkForm::Prefix.fits(text),
        ValueForm::LocalEndpoints(..) => NetworkForm::LocalEndpoint.fits(text),
        ValueForm::Text(most) => has_length(text, most),
        ValueForm::Digit => is_digit(text),
        ValueForm::Path(most) => is_path(text, most),
        ValueForm::Secret | ValueForm::PeerNames => has_length(text, 64),
        ValueForm::PeerName => is_name(text, 64, true),
        ValueForm::RealmName => is_name(text, 253, false),
        ValueForm::Names => is_pattern(text),
        ValueForm::Rejects => is_pattern(text) && text != "*",
        ValueForm::NasIds => has_length(text, 253),
        ValueForm::RequestRemovals => is_removal(text, &KEPT_OF_REQUESTS),
        ValueForm::ReplyRemovals => is_removal(text, &KEPT_OF_REPLIES),
        _ => words_of(form).contains(&text),
    }
}

/// Returns whether the form is one of arrays of tables.
fn is_of_tables(form: ValueForm) -> bool {
    match form {
        ValueForm::Tables(..) => true,
        _ => false,
    }
}

/// Finds the first of the items that isn't a text of the form, or a table where that is one of tables.
fn first_misfit(form: ValueForm, items: &[Value]) -> Option<&Value> {
    for item in items {
        let fits = match item {
            Value::Table(_) => is_of_tables(form),
            Value::String(text) => text_fits(form, text.as_str()),
            _ => false,
        };
        if !fits {
            return Some(item);
        }
    }
    None
}

/// Returns whether the form is one of arrays of texts.
pub(crate) fn is_list(form: ValueForm) -> bool {
    match form {
        ValueForm::LocalEndpoints(..)
        | ValueForm::Names
        | ValueForm::Rejects
        | ValueForm::PeerNames
        | ValueForm::NasIds
        | ValueForm::RequestRemovals
        | ValueForm::ReplyRemovals => true,
        _ => false,
    }
}

/// Returns whether an array of the form has texts, each of which may be wrong.
fn may_be_list(form: ValueForm) -> bool {
    match form {
        ValueForm::Endpoints(_) | ValueForm::Prefixes(_) => true,
        _ => is_list(form),
    }
}

/// Returns whether an array of the form may have so many items.
fn may_have(form: ValueForm, items: usize) -> bool {
    match bounds_of(form) {
        Some((least, most)) => (may_be_list(form) || is_of_tables(form))
            && least as usize <= items
            && items <= most as usize,
        None => false,
    }
}

/// Returns whether the items are of the form.
fn items_fit(form: ValueForm, items: &[Value]) -> bool {
    may_have(form, items.len()) && first_misfit(form, items).is_none()
}

/// Returns whether the value is of the form.
pub(crate) fn fits(form: ValueForm, value: &Value) -> bool {
    match value {
        Value::Integer(number) => match form {
            ValueForm::Number(least, most) => i64::from(least) <= *number
                && *number <= i64::from(most),
            _ => false,
        },
        Value::Boolean(_) => match form {
            ValueForm::Flag | ValueForm::ExchangeLines => true,
            _ => false,
        },
        Value::String(text) => !is_list(form) && text_fits(form, text.as_str()),
        Value::Array(items) => items_fit(form, items.as_slice()),
        _ => false,
    }
}

/// Returns what of a value is shown that isn't of the form: the first item that doesn't fit, or all of it.
pub(crate) fn misfit(form: ValueForm, value: &Value) -> &Value {
    let Value::Array(items) = value else {
        return value;
    };
    if !may_be_list(form) || !may_have(form, items.len()) {
        return value;
    }
    match first_misfit(form, items.as_slice()) {
        Some(item) => item,
        None => value,
    }
}
