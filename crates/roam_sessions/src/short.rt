//! Octets that an attribute has room for (RFC 2865, section 5).

ghost use Rattle.std.specs.Prelude.{◌≤◌, length};

/// At most 253 octets, where they lie.
#[derive(Clone, Copy)]
pub(crate) struct Short<'a> {
    pub(crate) octets: &'a [u8],
    ghost size: { length octets.now ≤ 253 },
}

/// The same, kept without memory.
#[derive(Clone, Copy)]
pub(crate) struct ShortArray {
    pub(crate) octets: [u8; 253],
    pub(crate) len: usize,
    ghost size: { len ≤ 253 },
}
