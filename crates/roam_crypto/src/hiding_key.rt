//! The key with which a value is hidden.

/// The secret shared with one end, and the Request Authenticator of the request that carries the
/// value, or that the packet with the value answers (RFC 2865, section 5.2).
#[derive(Clone, Copy)]
pub struct HidingKey<'a> {
    pub secret: &'a [u8],
    pub authenticator: &'a [u8; 16],
}
