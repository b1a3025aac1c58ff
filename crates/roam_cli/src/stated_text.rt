//! The text of a statement, while it is being made.

use std::alloc::Global;
use std::fmt::{Display, Write};

/// A text that is being made, and whether all of it is there.
#[derive(Drop)]
pub(crate) struct StatedText {
    text: String,
    /// True where a growth of memory was refused.
    has_failed: bool,
}

impl StatedText {
    /// Makes an empty text.
    pub(crate) fn new(alloc: Global) -> StatedText {
        StatedText {
            text: String::new(alloc),
            has_failed: false,
        }
    }

    /// Says a text.
    pub(crate) fn say(&mut self, text: &str) {
        let has_failed = self.text.push_str(text).is_err();
        self.has_failed |= has_failed;
    }

    /// Says what is shown between two texts.
    pub(crate) fn put<D: Display + Copy>(&mut self, before: &str, shown: D, behind: &str) {
        let has_failed = write!(self.text, "{before}{shown}{behind}").is_err();
        self.has_failed |= has_failed;
    }

    /// Says a line with a key and its value.
    pub(crate) fn put_value<D: Display + Copy>(&mut self, key: &str, value: D) {
        self.put(key, " = ", "");
        self.put("", value, "\n");
    }

    /// Says a line with a key and its value, which stands between quotes.
    pub(crate) fn put_quoted<D: Display + Copy>(&mut self, key: &str, value: D) {
        self.put(key, " = \"", "");
        self.put("", value, "\"\n");
    }

    /// Says an octet as two hexadecimal digits.
    pub(crate) fn put_octet(&mut self, octet: u8) {
        let has_failed = write!(self.text, "{:x}{:x}", octet / 16, octet % 16).is_err();
        self.has_failed |= has_failed;
    }

    /// Returns the text, or `None` where memory was wanting.
    pub(crate) fn unless_failed(self) -> Option<String> {
        if self.has_failed {
            None
        } else {
            Some(self.text)
        }
    }
}
