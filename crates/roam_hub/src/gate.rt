//! The gate that is called while a shard's lock is held.

/// Gate: called once while a shard's lock is held, before the step. A test holds a call there.
pub trait Gate {
    fn inside(&self, shard: u16);
}

/// A gate that holds nobody.
#[derive(Clone, Copy)]
pub struct Open;

impl Gate for Open {
    fn inside(&self, _shard: u16) {}
}
