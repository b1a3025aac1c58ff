//! The values that aren't shown, since a secret may stand there by mistake.

use toml::Value;

/// The number of octets that the name of a zone may have, as the system bounds it.
const MOST_OF_ZONE: usize = 15;

/// Returns the text without the zone behind a `%`, where one may stand there.
fn without_zone(text: &str) -> &str {
    match text.split_once('%') {
        Some((front, zone)) if zone.len() <= MOST_OF_ZONE => front,
        _ => text,
    }
}

/// The marks that were met in a text.
#[derive(Clone, Copy)]
struct Marks {
    dots: u32,
    colons: u32,
    has_letters: bool,
}

impl Marks {
    const NONE: Marks = Marks {
        dots: 0,
        colons: 0,
        has_letters: false,
    };

    /// Counts an octet. Returns whether it may stand in an address, a prefix or an endpoint.
    fn count(&mut self, octet: u8) -> bool {
        match octet {
            b'.' => self.dots = self.dots.saturating_add(1),
            b':' => self.colons = self.colons.saturating_add(1),
            b'a'..=b'f' | b'A'..=b'F' => self.has_letters = true,
            b'0'..=b'9' | b'/' | b'[' | b']' => {}
            _ => return false,
        }
        true
    }
}

/// Returns whether the text is built as an address, a prefix or an endpoint is: of their characters only, with three
/// dots and no letters, with two colons in a row, or with seven of them.
fn is_built_as_address(text: &str) -> bool {
    let text = without_zone(text);
    let mut marks = Marks::NONE;
    for octet in text.bytes() {
        if !marks.count(octet) {
            return false;
        }
    }
    text.contains("::") || marks.colons >= 7 || (marks.dots == 3 && !marks.has_letters)
}

/// Returns whether a text may be a name where an address belongs: it begins with a letter, and isn't built as one is.
pub(crate) fn may_be_name(text: &str) -> bool {
    match text.bytes().next() {
        Some(first) => first.is_ascii_alphabetic() && !is_built_as_address(text),
        None => false,
    }
}

/// Returns whether the value that isn't of the form of its key isn't shown: under `ip`, where `secret` stands in the
/// line below, a text or a number that isn't built as an address is.
pub(crate) fn is_hidden(key: &str, value: &Value) -> bool {
    match value {
        Value::String(text) => {
            key == "ip" && !text.is_empty() && !is_built_as_address(text.as_str())
        }
        Value::Integer(_) => key == "ip",
        _ => false,
    }
}
