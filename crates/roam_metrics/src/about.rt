//! The server that is described, since when it serves, and the results of its reloads.

ghost use Rattle.std.specs.Prelude.{◌≡◌};
ghost use Rattle.roam_metrics.specs.About as spec;

/// The reloads of which one thing came.
#[derive(Clone, Copy, PartialEq, Eq)]
pub struct Reloads {
    /// The number of them.
    pub times: u64,
    /// The time of the last one, in milliseconds since the server's start; none where there was none.
    pub last: Option<u64>,
}

/// The server that is described.
#[derive(Clone, Copy, PartialEq, Eq)]
pub struct About {
    /// The version of the program.
    pub version: &'static str,
    /// The line of the toolchain that proved it.
    pub toolchain: &'static str,
    /// The time when the server started, in seconds since 1970; none where the system's clock didn't tell.
    pub began: Option<u64>,
    /// The time for which it serves, in milliseconds.
    pub uptime: u64,
    /// The reloads after which another configuration was served.
    pub served: Reloads,
    /// Those that changed nothing.
    pub declined: Reloads,
}

impl About {
    /// Returns a moment, in milliseconds since the start, as seconds since 1970.
    pub fn second_at(&self, moment: u64) -> Option<u64>
        ensures { result ≡ spec.second_at self.now.began moment }
    {
        match self.began {
            Some(began) => Some(began.saturating_add(moment / 1000)),
            None => None,
        }
    }

    /// Returns how long ago a moment was, in seconds.
    pub fn seconds_since(&self, moment: u64) -> u64
        ensures { result ≡ spec.seconds_since self.now.uptime moment }
    {
        self.uptime.saturating_sub(moment) / 1000
    }
}
