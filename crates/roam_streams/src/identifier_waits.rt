//! From when on an Identifier may be used again toward the broker.

ghost use Rattle.std.specs.Prelude.{◌≡◌, ◌-◌};
ghost use Rattle.roam_streams.specs.Waits.{free_at, held_until, with_free_at, none_waits};

/// The time that an Identifier waits for an answer before it may be used again, in milliseconds.
const WAIT: u64 = 1000;

/// A socket of the broker at which requests come.
#[derive(Clone, Copy, Debug, PartialEq, Eq)]
pub enum Way {
    /// Its `auth`.
    Auth,
    /// Its `acct`, for packets of code 4.
    Acct,
}

/// From when on each Identifier may be used again at `auth` and at `acct`, in milliseconds: 0 where it doesn't wait.
#[derive(Drop)]
pub struct IdentifierWaits {
    pub(crate) auth: [u64; 256],
    pub(crate) acct: [u64; 256],
}

impl IdentifierWaits {
    /// Returns waits of which none has begun.
    pub fn none() -> IdentifierWaits
        ensures { result ≡ none_waits }
    {
        IdentifierWaits {
            auth: [0; 256],
            acct: [0; 256],
        }
    }

    /// Returns the moment from which on an Identifier may be used again.
    pub fn free_at(&self, way: Way, id: u8) -> u64
        ensures { result ≡ free_at self.now way id }
    {
        match way {
            Way::Auth => self.auth[usize::from(id)],
            Way::Acct => self.acct[usize::from(id)],
        }
    }

    /// Writes the moment from which on an Identifier may be used again.
    fn set(&mut self, way: Way, id: u8, moment: u64)
        ensures { self.new ≡ with_free_at self.old way id moment }
    {
        match way {
            Way::Auth => self.auth[usize::from(id)] = moment,
            Way::Acct => self.acct[usize::from(id)] = moment,
        }
    }

    /// Begins the wait of an Identifier that is used now: it lasts 1,000 ms.
    pub fn begin(&mut self, way: Way, id: u8, now: u64)
        ensures { self.new ≡ with_free_at self.old way id (held_until now) }
    {
        self.set(way, id, now.saturating_add(WAIT));
    }

    /// Ends the wait of an Identifier.
    pub fn end(&mut self, way: Way, id: u8)
        ensures { self.new ≡ with_free_at self.old way id 0 }
    {
        self.set(way, id, 0);
    }
}
