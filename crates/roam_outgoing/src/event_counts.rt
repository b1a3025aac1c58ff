//! The counts of one thread, of events: its own, and where the others read them.

ghost use Rattle.std.specs.Prelude.{◌≡◌};
ghost use Rattle.roam_counters.specs.OwnCounts.{raised_all};

use crate::sheet::Sheet;
use roam_counters::{Counted, Increment, OwnCounts};
use std::alloc::{AllocError, Global};

/// The counts of one thread, of events. No other thread counts in its sheet, where it leaves what it has counted.
pub struct EventCounts<'t> {
    /// None where nobody reads it: there are no counts then.
    sheet: Option<&'t Sheet>,
    pub own: OwnCounts<Global>,
}

// By hand, so that a proof sees one call wherever it ends, and the crates above prove nothing of it.
impl<'t> Drop for EventCounts<'t> {
    fn drop(self) {
        let Self { sheet: _, own } = self;
        drop(own);
    }
}

/// Leaves a count that rose where others read it, if somebody does.
fn leave(sheet: Option<&Sheet>, counted: Option<Counted>) {
    if let (Some(sheet), Some(counted)) = (sheet, counted) {
        sheet.leave(counted);
    }
}

/// Copies an increment, if there is one.
fn copied(increment: &Option<Increment>) -> Option<Increment>
    ensures { result ≡ increment.now }
{
    *increment
}

impl<'t> EventCounts<'t> {
    /// Makes counts where nothing is counted.
    pub fn none(alloc: Global) -> EventCounts<'t> {
        EventCounts {
            sheet: None,
            own: OwnCounts::none(alloc),
        }
    }

    /// Makes the counts of a thread that go on from what stands in its sheet.
    pub(crate) fn new(alloc: Global, sheet: &'t Sheet) -> Result<EventCounts<'t>, AllocError> {
        Ok(EventCounts {
            sheet: Some(sheet),
            own: sheet.own(alloc)?,
        })
    }

    /// Counts what rises.
    pub(crate) fn add(&mut self, increments: &[Option<Increment>])
        ensures { self.new.own ≡ raised_all self.old.own increments.now }
    {
        let sheet = self.sheet;
        for increment in increments {
            let one = copied(increment);
            let counted = self.own.add(&one);
            leave(sheet, counted);
        }
    }
}
