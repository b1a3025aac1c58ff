//! The way in which a thread comes by a shard's lock.

use std::sync::{Mutex, MutexGuard, Wait};
use std::thread;

/// The number of times that a thread tries to take a lock that another one holds, before it sleeps until it is woken.
const TRIES: u32 = 50;

/// Waits for a lock. A call holds one for a few microseconds, and to sleep and be woken takes longer: so a thread first
/// tries for about as long as several calls take, and lets others run meanwhile.
pub(crate) fn wait_for<'l, T, R: Wait>(rt: &R, lock: &'l Mutex<T>) -> MutexGuard<'l, T> {
    for _ in 0..TRIES {
        if let Some(guard) = lock.try_lock() {
            return guard;
        }
        thread::yield_now();
    }
    lock.lock(rt)
}
