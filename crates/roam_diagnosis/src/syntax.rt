//! The causes why a text is no TOML document.

use crate::foreign::remedy_of_foreign;
use crate::form_words::say_wanted;
use crate::lines::Lines;
use crate::place::TableKind;
use crate::rules::form_of;
use crate::statements::key_of;
use toml::de::Error;

/// Returns the line and the column, both from 1, of what comes after so many octets. A column counts characters.
fn position(text: &str, octets: usize) -> (u32, u32) {
    let mut line = 1u32;
    let mut column = 1u32;
    for octet in text.bytes().take(octets) {
        if octet == b'\n' {
            line = line.saturating_add(1);
            column = 1;
        } else if octet & 0xC0 != 0x80 {
            column = column.saturating_add(1);
        }
    }
    (line, column)
}

/// Returns the line of this number, from 1, without the blanks before it.
fn line_of(text: &str, number: u32) -> &str {
    let mut count = 0u32;
    for line in text.lines() {
        count = count.saturating_add(1);
        if count == number {
            return line.trim_start();
        }
    }
    ""
}

/// Returns whether a header is of one table where it has to be one of several.
fn is_single_header(top: TableKind, header: &str) -> bool {
    match header {
        "[peer]" | "[realm]" | "[realm.server]" => true,
        "[server]" => top == TableKind::Streams,
        _ => false,
    }
}

/// Returns whether a table within a realm stands before the line of this number.
fn has_header_below(text: &str, number: u32) -> bool {
    let mut count = 0u32;
    for line in text.lines() {
        count = count.saturating_add(1);
        if count < number && line.trim_start().starts_with("[[realm.") {
            return true;
        }
    }
    false
}

/// Says what belongs in the line of a file with this top, where that is known.
fn say_remedy(top: TableKind, text: &str, number: u32, message: &str, lines: &mut Lines) {
    let statement = line_of(text, number);
    let header = statement.trim();
    if header == "[[realm]]" && message == "duplicate key" && has_header_below(text, number) {
        lines.say(": a [[realm.server]] or [[realm.coa_client]] stands before the first [[realm]]");
        return;
    }
    if is_single_header(top, header) {
        lines.put(": write [", header, "]");
        return;
    }
    if message.starts_with("invalid escape sequence") {
        lines.say(": a backslash is itself between ' and '");
        return;
    }
    if let Some(key) = key_of(statement) {
        if let Some(form) = form_of(top, key) {
            lines.put(": ", key, " is ");
            say_wanted(form, lines);
        }
    }
}

/// Says what the reader of documents says of a text that isn't one, and what belongs there in a file with this top.
pub(crate) fn say_syntax(top: TableKind, path: &str, text: &str, error: &Error, lines: &mut Lines) {
    let Some(span) = error.span() else {
        return;
    };
    let (number, column) = position(text, span.start);
    let message = error.message();
    lines.put("", path, ":");
    lines.put("", number, ":");
    lines.put("", column, ": ");
    lines.say(message);
    let remedy = remedy_of_foreign(text);
    if remedy.is_empty() {
        say_remedy(top, text, number, message, lines);
    }
    lines.say(remedy);
    lines.end_line();
}
