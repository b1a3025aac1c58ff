//! One realm, for the time of an event.

use roam_pending::Entries;
use roam_realm::{RealmNumbers, RealmSettings};
use std::alloc::Allocator;

/// One realm, for the time of an event: what is read of the configuration, and its entries and
/// numbers, which are borrowed. The rules of the realm are its methods.
#[derive(Drop)]
pub struct RealmBroker<'s, 'c, 'e, 'n, A: Allocator, E: Entries<A>> {
    pub settings: &'s RealmSettings<'c>,
    pub entries: &'e mut E,
    pub numbers: &'n mut RealmNumbers<A>,
}
