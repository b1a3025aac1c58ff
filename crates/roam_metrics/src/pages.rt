//! A page of all counts.

ghost use Rattle.std.specs.Prelude.{OnOk, IfOk};
ghost use Rattle.roam_metrics.specs.Pages.{AreLines, MoreLines};

use crate::about::About;
use crate::about_page::push_about;
use crate::counts::Counts;
use crate::family::{Family, SCOPES, Scope};
use crate::gauges::{Gauge, OF_GAUGES, OfGauges};
use crate::named::{Named, all_named, push_count, push_named, push_standing};
use crate::of_server::{OF_SERVER, OfServer};
use crate::reply_families::{ANSWERED, ANSWERED_BY_TICK, NAKS, REFUSED, REPLIES, RETURNED};
use crate::request_families::{
    ABANDONED, ANSWERED_AGAIN, CAME, DROPPED, DROPPED_REPLIES, DROPPED_SESSIONS, FAILED_OVER,
    FORWARDED, GIVEN_UP, LOCAL_REJECTS, LOST_SESSIONS, REPLACED, SENT_AGAIN, TAKEN_OVER, WAITING,
};
use crate::samples::{Label, MetricKind, push_header, push_sample};
use crate::times::push_times;
use roam_conf::Config;
use roam_counters::Subject;
use std::alloc::{AllocError, Global};

/// The families of realms, home servers and peers, in this order.
static FAMILIES: [Family; 21] = [
    CAME,
    FORWARDED,
    SENT_AGAIN,
    TAKEN_OVER,
    WAITING,
    ANSWERED_AGAIN,
    FAILED_OVER,
    GIVEN_UP,
    ABANDONED,
    REPLACED,
    DROPPED,
    DROPPED_REPLIES,
    DROPPED_SESSIONS,
    LOST_SESSIONS,
    LOCAL_REJECTS,
    REPLIES,
    RETURNED,
    ANSWERED,
    ANSWERED_BY_TICK,
    NAKS,
    REFUSED,
];

/// Adds a sample of a family, where it isn't 0.
fn push_sample_of(
    page: &mut Vec<u8>,
    named: &Named<'_>,
    family: &Family,
    value: &str,
    count: u64,
) -> Result<(), AllocError>
    ensures { OnOk result (MoreLines page.old.items page.new.items) }
{
    let metric = family.name(named.scope);
    match family.label {
        Some(name) => push_count(page, metric, named, Label { name, value }, count),
        None => push_named(page, metric, named, count),
    }
}

/// Adds what a family tells of a subject.
fn push_family_of<C: Counts>(
    page: &mut Vec<u8>,
    counts: &C,
    named: &Named<'_>,
    family: &Family,
) -> Result<(), AllocError>
    ensures { OnOk result (MoreLines page.old.items page.new.items) }
{
    for (value, event) in family.samples {
        let count = counts.event(named.subject, *event);
        push_sample_of(page, named, family, *value, count)?;
    }
    Ok(())
}

/// Adds the metric of a family.
fn push_family<C: Counts>(
    page: &mut Vec<u8>,
    counts: &C,
    all: &[Named<'_>],
    scope: Scope,
    family: &Family,
) -> Result<(), AllocError>
    ensures { OnOk result (MoreLines page.old.items page.new.items) }
{
    push_header(page, family.name(scope), family.help, MetricKind::Counter)?;
    for named in all {
        if named.scope == scope {
            push_family_of(page, counts, named, family)?;
        }
    }
    Ok(())
}

/// Adds all metrics of realms, of home servers or of peers.
fn push_scope<C: Counts>(
    page: &mut Vec<u8>,
    counts: &C,
    all: &[Named<'_>],
    scope: Scope,
) -> Result<(), AllocError>
    ensures { OnOk result (MoreLines page.old.items page.new.items) }
{
    for family in &FAMILIES {
        push_family(page, counts, all, scope, family)?;
    }
    Ok(())
}

/// Adds a metric of the whole server.
fn push_process<C: Counts>(
    page: &mut Vec<u8>,
    counts: &C,
    of_server: &OfServer,
) -> Result<(), AllocError>
    ensures { OnOk result (MoreLines page.old.items page.new.items) }
{
    push_header(page, of_server.name, of_server.help, MetricKind::Counter)?;
    for (value, process) in of_server.samples {
        let label = Label {
            name: of_server.label,
            value: *value,
        };
        push_sample(page, of_server.name, &[label], counts.process(*process))?;
    }
    Ok(())
}

/// Adds what is counted of the whole server.
fn push_server<C: Counts>(page: &mut Vec<u8>, counts: &C) -> Result<(), AllocError>
    ensures { OnOk result (MoreLines page.old.items page.new.items) }
{
    for of_server in &OF_SERVER {
        push_process(page, counts, of_server)?;
    }
    Ok(())
}

/// Adds the refusals of all.
fn push_all_refusals<C: Counts>(page: &mut Vec<u8>, counts: &C) -> Result<(), AllocError>
    ensures { OnOk result (MoreLines page.old.items page.new.items) }
{
    let name = "roam_refusals_total";
    push_header(
        page,
        name,
        "Datagrams and timer runs that were dropped, by the number of the refusal.",
        MetricKind::Counter,
    )?;
    for (value, event) in REFUSED.samples {
        let label = Label {
            name: "number",
            value: *value,
        };
        push_sample(page, name, &[label], counts.event(Subject::All, *event))?;
    }
    Ok(())
}

/// The endpoints of a home server, as a label names them.
const SERVICES: [&str; 2] = ["auth", "acct"];

/// Adds how something stands of a subject.
fn push_gauge_of<C: Counts>(
    page: &mut Vec<u8>,
    counts: &C,
    named: &Named<'_>,
    family: OfGauges,
) -> Result<(), AllocError>
    ensures { OnOk result (MoreLines page.old.items page.new.items) }
{
    for (gauge, service) in family.gauges(named.subject).iter().zip(SERVICES.iter()) {
        let Some(gauge) = *gauge else {
            continue;
        };
        let Some(value) = counts.gauge(gauge) else {
            continue;
        };
        let label = Label {
            name: "service",
            value: *service,
        };
        push_standing(page, family.name(), named, label, family.sample(value))?;
    }
    Ok(())
}

/// Adds a metric of how something stands.
fn push_gauge<C: Counts>(
    page: &mut Vec<u8>,
    counts: &C,
    all: &[Named<'_>],
    family: OfGauges,
) -> Result<(), AllocError>
    ensures { OnOk result (MoreLines page.old.items page.new.items) }
{
    push_header(page, family.name(), family.help(), MetricKind::Gauge)?;
    for named in all {
        push_gauge_of(page, counts, named, family)?;
    }
    Ok(())
}

/// Adds how all stands.
fn push_gauges<C: Counts>(
    page: &mut Vec<u8>,
    counts: &C,
    all: &[Named<'_>],
) -> Result<(), AllocError>
    ensures { OnOk result (MoreLines page.old.items page.new.items) }
{
    for family in &OF_GAUGES {
        push_gauge(page, counts, all, *family)?;
    }
    push_history(page, counts)
}

/// Adds how many octets the stored steps have, where that is known.
fn push_history<C: Counts>(page: &mut Vec<u8>, counts: &C) -> Result<(), AllocError>
    ensures { OnOk result (MoreLines page.old.items page.new.items) }
{
    let Some(octets) = counts.gauge(Gauge::HistoryOctets) else {
        return Ok(());
    };
    let name = "roam_history_octets";
    push_header(
        page,
        name,
        "Octets of the datagrams of all stored steps.",
        MetricKind::Gauge,
    )?;
    push_sample(page, name, &[], octets)
}

/// Makes a page of all counts of a server with this configuration. A realm's, home server's or peer's count that is 0
/// has no line.
pub fn page<C: Counts>(
    alloc: Global,
    config: &Config,
    counts: &C,
    about: &About,
) -> Result<Vec<u8>, AllocError>
    ensures { IfOk result (λ page. AreLines page.items) }
{
    let all = all_named(alloc, config)?;
    let mut page = Vec::new(alloc);
    push_about(&mut page, config, about)?;
    push_server(&mut page, counts)?;
    push_all_refusals(&mut page, counts)?;
    for scope in &SCOPES {
        push_scope(&mut page, counts, all.as_slice(), *scope)?;
    }
    push_times(&mut page, counts, all.as_slice())?;
    push_gauges(&mut page, counts, all.as_slice())?;
    Ok(page)
}
