//! Laws: counts are told apart, and what they are sums of.

ghost use Rattle.roam_counters.specs.Apart.{CellsAreApart};
ghost use Rattle.roam_counters.specs.OwnCounts.{CountsAreSums};
ghost use Rattle.roam_counters.specs.Sums.{SumsAreOfEvents};

/// States that two counts stand at one place of one list only where they are one.
pub fn cells_are_apart()
    ensures { CellsAreApart }
{}

/// States that the increments of an event of a subject come to what of them is of that event and that subject.
pub fn sums_are_of_events()
    ensures { SumsAreOfEvents }
{}

/// States that the counts that a thread raised by increments are the sums of those of their event and their subject.
pub fn counts_are_sums()
    ensures { CountsAreSums }
{}
