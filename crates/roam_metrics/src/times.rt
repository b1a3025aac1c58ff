//! The time that home servers took to answer, as a histogram.

ghost use Rattle.std.specs.Prelude.{OnOk};
ghost use Rattle.roam_metrics.specs.Pages.{MoreLines};

use crate::counts::Counts;
use crate::family::Scope;
use crate::named::{Named, labels_of, push_count, push_named};
use crate::samples::{Label, MetricKind, push_header, push_seconds};
use roam_counters::{CountedEvent, Delay};
use std::alloc::AllocError;

/// The bounds of the histogram in seconds, in rising order, each with what keeps it and none before it.
const BOUNDS: [(&'static str, Delay); 8] = [
    ("0.01", Delay::Within10),
    ("0.03", Delay::Within30),
    ("0.1", Delay::Within100),
    ("0.3", Delay::Within300),
    ("1", Delay::Within1000),
    ("3", Delay::Within3000),
    ("10", Delay::Within10000),
    ("+Inf", Delay::Longer),
];

/// Adds how long so many answers of a home server took together, in milliseconds; nothing where there were none.
fn push_time(
    page: &mut Vec<u8>,
    named: &Named<'_>,
    answers: u64,
    time: u64,
) -> Result<(), AllocError>
    ensures { OnOk result (MoreLines page.old.items page.new.items) }
{
    if answers == 0 {
        return Ok(());
    }
    match labels_of(named) {
        (whose, Some(server)) => push_seconds(
            page,
            "roam_server_answer_seconds_sum",
            &[whose, server],
            time,
        ),
        (_, None) => Ok(()),
    }
}

/// Adds how long a home server took to answer: how many of its answers keep each bound, and how long all took together.
fn push_times_of<C: Counts>(
    page: &mut Vec<u8>,
    counts: &C,
    named: &Named<'_>,
) -> Result<(), AllocError>
    ensures { OnOk result (MoreLines page.old.items page.new.items) }
{
    let mut sum = 0u64;
    for (value, bound) in &BOUNDS {
        sum = sum.wrapping_add(counts.event(named.subject, CountedEvent::AnswerWithin(*bound)));
        let label = Label {
            name: "le",
            value: *value,
        };
        push_count(page, "roam_server_answer_seconds_bucket", named, label, sum)?;
    }
    push_named(page, "roam_server_answer_seconds_count", named, sum)?;
    let time = counts.event(named.subject, CountedEvent::AnswerTime);
    push_time(page, named, sum, time)
}

/// Adds how long home servers took to answer.
pub(crate) fn push_times<C: Counts>(
    page: &mut Vec<u8>,
    counts: &C,
    all: &[Named<'_>],
) -> Result<(), AllocError>
    ensures { OnOk result (MoreLines page.old.items page.new.items) }
{
    push_header(
        page,
        "roam_server_answer_seconds",
        "From the last sending of a request to its reply.",
        MetricKind::Histogram,
    )?;
    for named in all {
        if named.scope == Scope::Server {
            push_times_of(page, counts, named)?;
        }
    }
    Ok(())
}
