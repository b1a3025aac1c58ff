//! The count of refusals.

ghost use Rattle.std.specs.Prelude.{◌≡◌, ◌↔◌, IsTrue};
ghost use Rattle.roam_log.specs.Tallies.{IsOfKind, one_more};

use crate::origin::{Origin, OriginKind};
use roam_wire::Refusal;

/// The count of something that was dropped within a second.
#[derive(Clone, Copy, PartialEq, Eq)]
pub struct RefusalCount {
    pub refusal: Refusal,
    /// The place of the first of them; none where they are all those of the refusal that are tallied nowhere else.
    pub origin: Option<Origin>,
    /// A count stays at 2^64 - 1.
    pub count: u64,
}

impl RefusalCount {
    /// Returns whether it counts this kind.
    pub fn is_of(&self, kind: OriginKind) -> bool
        ensures { IsTrue result ↔ IsOfKind kind self.now }
    {
        match self.origin {
            Some(origin) => origin.kind() == kind,
            None => false,
        }
    }

    /// Counts one more.
    pub fn count_one(&mut self)
        ensures { self.new ≡ one_more self.old }
    {
        self.count = self.count.saturating_add(1);
    }
}
