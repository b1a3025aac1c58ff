//! The program that serves, and the results of its reloads.

ghost use Rattle.std.specs.Prelude.{◌≡◌, ◌==◌, ◌^◌, ◌-◌, Some, None, if◌then◌else◌};

use roam_metrics::Reloads;
use std::sync::atomic::{AtomicU64, Ordering};

/// The program that serves. It is a word, and no text: what outlasts a server's threads names no lifetime.
#[derive(Clone, Copy, PartialEq, Eq)]
pub enum Build {
    /// The program `roam`.
    Roam,
    /// A program that isn't told.
    Unnamed,
}

impl Build {
    /// Returns the version of the build.
    pub fn version(self) -> &'static str {
        match self {
            Build::Roam => "1.0.0",
            Build::Unnamed => "",
        }
    }

    /// Returns the line of the toolchain that proved it.
    pub fn toolchain(self) -> &'static str {
        match self {
            Build::Roam => "rattle-kit-13f logic dac8208d650f15bf",
            Build::Unnamed => "",
        }
    }
}

/// The reloads of which one thing came.
#[derive(Drop)]
pub struct Tally {
    times: AtomicU64,
    /// In milliseconds since the server's start; 2^64 - 1 where there was none.
    last: AtomicU64,
}

/// Returns when the last one was, by what is noted of it.
fn last_of(noted: u64) -> Option<u64>
    ensures { result ≡ (if noted == 2 ^ 64 - 1 then None else Some noted) }
{
    if noted == u64::MAX { None } else { Some(noted) }
}

impl Tally {
    /// Makes the tally of no reload.
    pub fn new() -> Tally {
        Tally {
            times: AtomicU64::new(0),
            last: AtomicU64::new(u64::MAX),
        }
    }

    /// Counts one more, at this moment.
    pub fn add(&self, now: u64) {
        self.times.fetch_add(1, Ordering::SeqCst);
        self.last.store(now, Ordering::SeqCst);
    }

    /// Returns how many there were.
    pub fn reloads(&self) -> Reloads {
        Reloads {
            times: self.times.load(Ordering::SeqCst),
            last: last_of(self.last.load(Ordering::SeqCst)),
        }
    }
}
