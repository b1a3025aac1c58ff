//! The check that the system gives as many threads as are to start.

use std::sync::{Mutex, Wait};
use std::thread;
use std::thread::{Scope, Threads};

/// Waits until a gate is open.
fn wait_at<R: Wait>(rt: &R, gate: &Mutex<()>) {
    drop(gate.lock(rt));
}

/// Starts so many threads that wait at a gate, until one can't be started. Answers whether all have started.
fn start_waiting<'s, E, R: Wait + Sync>(
    scope: &Scope<'s, E>,
    rt: &'s R,
    gate: &'s Mutex<()>,
    count: usize,
) -> bool {
    for _ in 0..count {
        if scope.spawn(move || wait_at(rt, gate)).is_err() {
            return false;
        }
    }
    true
}

/// Returns whether so many threads can be started beside those that run. They have run all at once, and have ended,
/// when it answers.
pub fn can_start<R: Threads + Wait + Sync>(rt: &R, count: usize) -> bool {
    let gate = Mutex::new(());
    let shared = &gate;
    thread::scope(thread::scope_env(), rt, |scope| -> bool {
        let closed = shared.lock(rt);
        let have_started = start_waiting(scope, rt, shared, count);
        drop(closed);
        have_started
    })
}
