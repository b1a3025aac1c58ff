//! The growth that is to be refused, as a value.

ghost use Rattle.test_support.specs.Refusal.{HasRefused, HasRunOut, IsRefused};
ghost use Rattle.std.specs.Prelude.{◌≡◌, ◌+◌, ◌-◌, ◌^◌, ◌<◌, ◌↔◌, IsTrue};

/// The growth that is to be refused, and how many were asked for since that was said.
#[derive(Clone, Copy)]
pub(crate) struct Plan {
    /// The growth to be refused, counted from 1. 0: none.
    pub(crate) nth: u64,
    /// The number of growths that were asked for. It goes no further than `u64::MAX`.
    pub(crate) asked: u64,
}

impl Plan {
    /// To refuse the `nth` growth from now on, or none where `nth` is 0.
    pub(crate) fn refuse(nth: u64) -> Plan
        ensures nth { result.nth ≡ nth }
        ensures asked { result.asked ≡ 0 }
    {
        Plan { nth, asked: 0 }
    }

    /// After one growth more.
    pub(crate) fn after_growth(self) -> Plan
        ensures nth { result.nth ≡ self.nth }
        ensures asked { self.asked < 2 ^ 64 - 1 → result.asked ≡ self.asked + 1 }
        ensures full { self.asked ≡ 2 ^ 64 - 1 → result.asked ≡ self.asked }
    {
        Plan {
            nth: self.nth,
            asked: self.asked.saturating_add(1),
        }
    }

    /// Returns whether the last growth asked for is the one to be refused.
    pub(crate) fn refuses_last(self) -> bool
        ensures { IsTrue result ↔ IsRefused self.nth self.asked }
    {
        0 < self.asked && self.asked == self.nth
    }

    /// Returns whether the growth to be refused was asked for.
    pub(crate) fn has_refused(self) -> bool
        ensures { IsTrue result ↔ HasRefused self.nth self.asked }
    {
        0 < self.nth && self.nth <= self.asked
    }

    /// Returns whether the growth to be refused is still to come.
    pub(crate) fn has_run_out(self) -> bool
        ensures { IsTrue result ↔ HasRunOut self.nth self.asked }
    {
        self.asked < self.nth
    }
}
