//! Texts as basic strings of TOML.

use std::fmt;

/// A text as a basic string (TOML 1.0.0, "String"). Control characters are escaped, so that none steers a terminal.
#[derive(Clone, Copy)]
pub struct BasicString<'a>(pub &'a str);

fn write_character<W: fmt::Write>(f: &mut fmt::Formatter<W>, character: char) -> fmt::Result {
    let code = u32::from(character);
    if character == '"' {
        f.write_str("\\\"")
    } else if character == '\\' {
        f.write_str("\\\\")
    } else if code < 32 || (127 <= code && code < 160) {
        write!(f, "\\u00{:x}{:x}", code / 16, code % 16)
    } else {
        f.write_char(character)
    }
}

impl fmt::Display for BasicString<'_> {
    fn fmt<W: fmt::Write>(&self, f: &mut fmt::Formatter<W>) -> fmt::Result {
        f.write_str("\"")?;
        for character in self.0.chars() {
            write_character(f, character)?;
        }
        f.write_str("\"")
    }
}
