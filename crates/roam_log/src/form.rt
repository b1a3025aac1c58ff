//! The form of a Calling-Station-Id in a line.

use crate::hmac::StationKey;

/// The form of a Calling-Station-Id in a line.
#[derive(Clone, Copy)]
pub enum StationForm {
    /// As it stands.
    Clear,
    /// By its hash with this key.
    Hashed(StationKey),
    /// Not at all: it is to be hashed, and no key is there.
    Hidden,
}
