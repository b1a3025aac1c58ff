//! The names and patterns of a realm beside its own name.

/// A name or pattern of a realm beside its own name: compared without ASCII case.
#[derive(Drop, PartialEq, Eq)]
pub enum RealmPattern {
    /// One more whole name: 1 to 253 ASCII letters, digits, `.` and `-`.
    Name(String),
    /// `*.` and a name: all names that end in a dot and this name, and have something before that.
    Suffix(String),
    /// `*`: any name.
    Any,
}
