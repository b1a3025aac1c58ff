//! The words for what doesn't fit a form.

use crate::forms::{ValueForm, bounds_of};
use crate::lines::Lines;
use crate::network_forms::NetworkForm;

const OF_EXCHANGE_LINES: &str =
    "is none of \"all\", \"final\" and \"none\", and neither true nor false";

const OF_REQUEST_REMOVALS: &str =
    " texts, each a type 1..255, 26. and a vendor, or these, a dot and a type, without 1, 2, 3, 24, 33, 60, 79 and 80";

const OF_REPLY_REMOVALS: &str =
    " texts, each a type 1..255, 26. and a vendor, or these, a dot and a type, without 24, 33, 79 and 80";

/// Returns what a value isn't that doesn't fit, up to the form's bounds.
fn words_before(form: ValueForm) -> &'static str {
    match form {
        ValueForm::Number(..) => "is not in ",
        ValueForm::Flag => "is neither true nor false",
        ValueForm::ExchangeLines => OF_EXCHANGE_LINES,
        ValueForm::StationWord => "is neither \"clear\" nor \"hmac\"",
        ValueForm::Seed => "is not a text of 64 hexadecimal digits",
        ValueForm::Network(form) => form.misfit(),
        ValueForm::Endpoints(_) | ValueForm::Prefixes(_) => ", nor an array of ",
        ValueForm::Text(_) | ValueForm::Secret => "is not a text of ",
        ValueForm::Digit => "is not a text of one digit",
        ValueForm::Path(_) => "is not a path of ",
        ValueForm::PeerName | ValueForm::RealmName => "is not ",
        ValueForm::Accounting => "is none of \"forward\", \"answer\" and \"drop\"",
        ValueForm::Balance => "is neither \"order\" nor \"user\"",
        ValueForm::Tables(..) => "is no array of ",
        _ => "is not in an array of ",
    }
}

/// Returns the same, behind these.
fn words_behind(form: ValueForm) -> &'static str {
    match form {
        ValueForm::Endpoints(_) | ValueForm::Prefixes(_) => " such",
        ValueForm::LocalEndpoints(..) => " endpoints of 127.0.0.0/8, as \"127.0.0.1:1812\"",
        ValueForm::Text(_) | ValueForm::Path(_) | ValueForm::Secret => " octets",
        ValueForm::PeerName => " of ASCII letters, digits, . - and _",
        ValueForm::RealmName => " of ASCII letters, digits, . and - (patterns go to also)",
        ValueForm::Names => " texts, each a name, *. and a name, or *",
        ValueForm::Rejects => " texts, each a name, or *. and a name",
        ValueForm::PeerNames => " texts of 1..64 octets, each a peer's name",
        ValueForm::NasIds => " texts of 1..253 octets",
        ValueForm::RequestRemovals => OF_REQUEST_REMOVALS,
        ValueForm::ReplyRemovals => OF_REPLY_REMOVALS,
        ValueForm::Tables(..) => " tables",
        _ => "",
    }
}

/// Says what a value isn't that doesn't fit.
pub(crate) fn say_misfit(form: ValueForm, lines: &mut Lines) {
    match form {
        ValueForm::Endpoints(_) => lines.say(NetworkForm::Endpoint.misfit()),
        ValueForm::Prefixes(_) => lines.say(NetworkForm::Prefix.misfit()),
        _ => {}
    }
    lines.say(words_before(form));
    if let Some((least, most)) = bounds_of(form) {
        lines.put("", least, "..");
        lines.put("", most, words_behind(form));
    }
}

/// Returns what a value of the form is that isn't one of numbers.
fn wanted(form: ValueForm) -> &'static str {
    match form {
        ValueForm::Flag => "true or false",
        ValueForm::LocalEndpoints(..) => "an array of texts, as [\"127.0.0.1:1812\"]",
        ValueForm::Names | ValueForm::Rejects => "an array of texts, as [\"*.example.org\"]",
        ValueForm::PeerNames | ValueForm::NasIds => "an array of texts, as [\"nas1\"]",
        ValueForm::RequestRemovals | ValueForm::ReplyRemovals => {
            "an array of texts, as [\"31\", \"26.9.1\"]"
        }
        ValueForm::Tables(..) => "tables, each below a header of its own",
        _ => "a text in quotation marks",
    }
}

/// Says what a value of the form is, for one that no document can have.
pub(crate) fn say_wanted(form: ValueForm, lines: &mut Lines) {
    match form {
        ValueForm::Number(least, most) => {
            lines.put("a whole number in ", least, "..");
            lines.put("", most, "");
        }
        _ => lines.say(wanted(form)),
    }
}
