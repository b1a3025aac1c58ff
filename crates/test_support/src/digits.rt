//! Octets of texts of hexadecimal digits, without memory.

/// The octets that a text spells; none where it spells none, or more than the room holds.
pub fn octets_mut<'a>(text: &str, room: &'a mut [u8; 160]) -> &'a mut [u8] {
    let size = text.len() / 2;
    if size > 160 {
        return &mut [];
    }
    let front = &mut room[..size];
    if hex::decode_to_slice(text, front).is_err() {
        return &mut [];
    }
    front
}

/// The same, to be read alone.
pub fn octets<'a>(text: &str, room: &'a mut [u8; 160]) -> &'a [u8] {
    octets_mut(text, room)
}
