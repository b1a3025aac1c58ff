//! The time for which no connection is taken, and whether that is said.

ghost use Rattle.std.specs.Prelude.{◌≡◌, ◌↔◌, ◌≤◌, ◌<◌, ◌^◌, ◌-◌, ◌+◌, min, IsTrue, IsFalse};

/// The time for which no connection is taken where the system gives none, in milliseconds.
const PAUSE: u64 = 1000;

/// From one time at which that is said to the next, in milliseconds.
const MINUTE: u64 = 60_000;

/// The pause in which no connection is taken, since the system gives none.
#[derive(Clone, Copy)]
pub struct Pause {
    /// In milliseconds since the server's start.
    until: u64,
    /// From when on it is said again.
    next_said: u64,
}

impl Pause {
    /// Makes the pause in which connections are taken.
    pub fn none() -> Pause
        ensures until { result.until ≡ 0 }
        ensures said { result.next_said ≡ 0 }
    {
        Pause {
            until: 0,
            next_said: 0,
        }
    }

    /// Returns whether connections are taken at this moment.
    pub fn is_over(&self, now: u64) -> bool
        ensures { IsTrue result ↔ (self.now.until ≤ now) }
    {
        self.until <= now
    }

    /// Begins a pause, in which no connection is taken for a second from this moment on. Answers whether that is to
    /// be said: once a minute.
    pub fn begin(&mut self, now: u64) -> bool
        ensures said { IsTrue result ↔ (self.old.next_said ≤ now) }
        ensures until { self.new.until ≡ min (2 ^ 64 - 1) (now + 1000) }
        ensures next { IsTrue result → self.new.next_said ≡ min (2 ^ 64 - 1) (now + 60000) }
        ensures same { IsFalse result → self.new.next_said ≡ self.old.next_said }
    {
        let is_said = self.next_said <= now;
        if is_said {
            self.next_said = now.saturating_add(MINUTE);
        }
        self.until = now.saturating_add(PAUSE);
        is_said
    }
}
