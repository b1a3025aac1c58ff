//! The time that something took, in the two units that a person reads.

ghost use Rattle.std.specs.Prelude.{◌≤◌, ◌<◌, ◌+◌};
ghost use Rattle.roam_metrics.specs.Spans as spec;

use std::fmt;
use std::fmt::{Display, Formatter, Write};

/// A unit of time.
#[derive(Clone, Copy, PartialEq, Eq)]
pub enum TimeUnit {
    Second,
    Minute,
    Hour,
    Day,
}

/// So many of a unit, and so many of the next smaller one; of seconds alone where those are the unit.
#[derive(Clone, Copy, PartialEq, Eq)]
pub struct Span {
    pub many: u64,
    pub unit: TimeUnit,
    pub few: u64,
}

/// Returns so many seconds in the largest units of which there is one, without what is left of the smaller one.
pub fn span_of(seconds: u64) -> Span
    ensures at_most { spec.seconds_of result ≤ seconds }
    ensures no_less { seconds < spec.seconds_of result + spec.seconds_of_smaller result.unit }
    ensures largest { spec.IsLargest result }
{
    if seconds < 60 {
        Span {
            many: seconds,
            unit: TimeUnit::Second,
            few: 0,
        }
    } else if seconds < 3600 {
        Span {
            many: seconds / 60,
            unit: TimeUnit::Minute,
            few: seconds % 60,
        }
    } else if seconds < 86_400 {
        Span {
            many: seconds / 3600,
            unit: TimeUnit::Hour,
            few: seconds % 3600 / 60,
        }
    } else {
        Span {
            many: seconds / 86_400,
            unit: TimeUnit::Day,
            few: seconds % 86_400 / 3600,
        }
    }
}

impl Display for Span {
    fn fmt<W: Write>(&self, f: &mut Formatter<W>) -> fmt::Result {
        let many = self.many;
        let few = self.few;
        match self.unit {
            TimeUnit::Second => write!(f, "{many} s"),
            TimeUnit::Minute => write!(f, "{many} min {few} s"),
            TimeUnit::Hour => write!(f, "{many} h {few} min"),
            TimeUnit::Day => write!(f, "{many} d {few} h"),
        }
    }
}
