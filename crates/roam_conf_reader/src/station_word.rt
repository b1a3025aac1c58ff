//! The form of a Calling-Station-Id in lines, as a configuration says it.

/// The form of a Calling-Station-Id in lines (the key `log_station`).
#[derive(Clone, Copy, Debug, PartialEq, Eq)]
pub enum StationWord {
    /// As it stands.
    Clear,
    /// By its hash with the key that lies beside the configuration.
    Hmac,
}
