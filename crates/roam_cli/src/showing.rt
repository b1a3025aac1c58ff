//! Texts of somebody else, as a terminal may be given them.

ghost use Rattle.std.specs.Prelude.{◌≡◌, ◌⊎◌, ◌↔◌, ◌<◌, ◌≤◌, IsTrue};

use std::alloc::{AllocError, Global};
use std::str;

/// Returns whether a character may stand there as it is: all but control characters, of which a line feed and a tab
/// may.
fn is_plain(code: u32) -> bool
    ensures { IsTrue result ↔ ((code ≡ 9) ⊎ ((code ≡ 10) ⊎ (((32 ≤ code) × (code < 127)) ⊎ (160 ≤ code)))) }
{
    code == 9 || code == 10 || (32 <= code && code < 127) || 160 <= code
}

/// The hexadecimal digits.
const DIGITS: [u8; 16] = *b"0123456789abcdef";

/// Adds an octet as `\x` and two hexadecimal digits.
fn push_escaped(shown: &mut Vec<u8>, octet: u8) -> Result<(), AllocError> {
    let high = DIGITS[usize::from(octet / 16)];
    let low = DIGITS[usize::from(octet % 16)];
    shown.extend_from_slice(&[b'\\', b'x', high, low])
}

/// Adds a text whose control characters are escaped.
fn push_text(shown: &mut Vec<u8>, text: &str) -> Result<(), AllocError> {
    for character in text.chars() {
        let code = u32::from(character);
        if is_plain(code) {
            let mut buffer = [0u8; 4];
            shown.extend_from_slice(character.encode_utf8(&mut buffer).as_bytes())?;
        } else {
            push_escaped(shown, (code % 256) as u8)?;
        }
    }
    Ok(())
}

/// Adds octets that are no text: all that isn't plain ASCII is escaped.
fn push_octets(shown: &mut Vec<u8>, octets: &[u8]) -> Result<(), AllocError> {
    for octet in octets {
        if *octet < 127 && is_plain(u32::from(*octet)) {
            shown.push(*octet)?;
        } else {
            push_escaped(shown, *octet)?;
        }
    }
    Ok(())
}

/// Returns what may be shown of octets: control characters but line feeds and tabs are escaped, and so is all that is
/// no text.
pub fn shown(alloc: Global, octets: &[u8]) -> Result<Vec<u8>, AllocError> {
    let mut shown = Vec::new(alloc);
    match str::from_utf8(octets) {
        Ok(text) => push_text(&mut shown, text)?,
        Err(_) => push_octets(&mut shown, octets)?,
    }
    Ok(shown)
}
