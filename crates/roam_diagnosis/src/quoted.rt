//! Texts of the configuration, as a line shows them.

use crate::lines::Lines;

/// The number of characters of a text that are shown.
const MOST_CHARACTERS: usize = 80;

fn say_character(character: char, lines: &mut Lines) {
    match character {
        '"' => lines.say("\\\""),
        '\\' => lines.say("\\\\"),
        ' '..='~' => lines.put("", character, ""),
        _ => lines.escape(character),
    }
}

/// Says the characters of a text, and answers what ends it: a quotation mark, and two dots where it is cut.
fn say_characters(text: &str, lines: &mut Lines) -> &'static str {
    let mut left = MOST_CHARACTERS;
    for character in text.chars() {
        if left == 0 {
            return "\"..";
        }
        left -= 1;
        say_character(character, lines);
    }
    "\""
}

/// Says the rest of a text in quotation marks, which were opened, and what stands behind it.
pub(crate) fn quote_rest(text: &str, behind: &str, lines: &mut Lines) {
    let end = say_characters(text, lines);
    lines.put(end, behind, "");
}

/// Says a text in quotation marks, between two others. What isn't printable in ASCII is escaped, and what is long is
/// cut.
pub(crate) fn quote(before: &str, text: &str, behind: &str, lines: &mut Lines) {
    lines.put(before, '"', "");
    quote_rest(text, behind, lines);
}
