//! The account of an outbox's packets.

ghost use Rattle.std.specs.Prelude.{◌≡◌};
ghost use Rattle.roam_port.specs.Accounts.{accounted, after_loss, after_put, none_put, since};

use crate::{LossCause, Losses, SendFault};

/// The account of packets that were put. A count stays at 2^64 - 1.
#[derive(Clone, Copy, PartialEq, Eq)]
pub struct Account {
    /// The number that were put.
    pub put: u64,
    /// The number that their sockets took.
    pub sent: u64,
    /// The number that were lost.
    pub losses: Losses,
}

impl Account {
    /// Makes the account in which nothing was put.
    pub fn none() -> Account
        ensures { result ≡ none_put }
    {
        Account {
            put: 0,
            sent: 0,
            losses: Losses::none(),
        }
    }

    /// Counts one more packet that was put.
    pub(crate) fn count_put(&mut self)
        ensures { self.new ≡ after_put self.old }
    {
        self.put = self.put.saturating_add(1);
    }

    /// Counts one more packet that was put, and is lost since its port's share is full.
    pub(crate) fn count_loss(&mut self)
        ensures { self.new ≡ after_loss self.old }
    {
        self.put = self.put.saturating_add(1);
        self.losses.count(LossCause::FullRing);
    }

    /// Counts a packet that was handed to its port, by what the port answered.
    pub(crate) fn count_answer(&mut self, answer: Result<(), SendFault>)
        ensures { self.new ≡ accounted self.old answer }
    {
        match answer {
            Ok(()) => self.sent = self.sent.saturating_add(1),
            Err(SendFault::WouldBlock) => {}
            Err(SendFault::Unreachable) => self.losses.count(LossCause::Unreachable),
            Err(SendFault::NotPermitted) => self.losses.count(LossCause::NotPermitted),
            Err(SendFault::Other) => self.losses.count(LossCause::Other),
        }
    }

    /// Returns what was counted since an earlier account.
    pub fn since(self, earlier: Account) -> Account
        ensures { result ≡ since self earlier }
    {
        Account {
            put: self.put.saturating_sub(earlier.put),
            sent: self.sent.saturating_sub(earlier.sent),
            losses: self.losses.since(earlier.losses),
        }
    }
}
