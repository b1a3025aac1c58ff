//! Buckets of sessions: in one bucket are those whose rows have one keyed hash, taken modulo the number of buckets.

ghost use Rattle.std.specs.Prelude.{◌<◌};

use roam_crypto::HashKey;

/// The number of buckets, and the key of the hash that picks one. Peers pick what stands in a row, so it is keyed.
#[derive(Clone, Copy)]
pub(crate) struct Buckets {
    pub(crate) key: HashKey,
    pub(crate) count: u32,
    ghost some: { 0 < count },
}

/// The buckets of a session: by all that it is, and by its peer and its id.
#[derive(Clone, Copy)]
pub(crate) struct Places {
    pub(crate) whole: u32,
    pub(crate) id: u32,
}
