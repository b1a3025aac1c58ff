//! The lines of a page.

ghost use Rattle.std.specs.Prelude.{◌≡◌, ◌++◌, ◌+◌, ◌<◌, OnOk};
ghost use Rattle.roam_metrics.specs.Lines as spec;
ghost use Rattle.roam_metrics.specs.Pages.{MoreLines};

use itoa::Buffer;
use std::alloc::AllocError;

/// A label of a sample: its name and its value.
#[derive(Clone, Copy)]
pub struct Label<'a> {
    pub name: &'a str,
    pub value: &'a str,
}

/// Adds octets to a page.
fn push(page: &mut Vec<u8>, octets: &[u8]) -> Result<(), AllocError>
    ensures { OnOk result (page.new.items ≡ page.old.items ++ octets.now) }
{
    page.extend_from_slice(octets)
}

/// Adds an octet of a label's value: a quotation mark, a reverse solidus and a line feed are escaped.
fn push_octet(page: &mut Vec<u8>, octet: u8) -> Result<(), AllocError>
    ensures { OnOk result (page.new.items ≡ page.old.items ++ spec.escaped_octet octet) }
{
    if octet == b'"' {
        push(page, &[b'\\', b'"'])
    } else if octet == b'\\' {
        push(page, &[b'\\', b'\\'])
    } else if octet == b'\n' {
        push(page, &[b'\\', b'n'])
    } else {
        push(page, &[octet])
    }
}

/// Adds a label's value.
fn push_escaped(page: &mut Vec<u8>, value: &[u8]) -> Result<(), AllocError>
    ensures { OnOk result (page.new.items ≡ page.old.items ++ spec.escaped value.now) }
{
    for octet in value {
        push_octet(page, *octet)?;
    }
    Ok(())
}

/// Adds a label, and a comma behind it.
fn push_label(page: &mut Vec<u8>, label: Label<'_>) -> Result<(), AllocError>
    ensures { OnOk result (page.new.items ≡ page.old.items ++ spec.label_text label.entry) }
{
    push(page, label.name.as_bytes())?;
    push(page, b"=\"")?;
    push_escaped(page, label.value.as_bytes())?;
    push(page, b"\",")
}

/// Adds labels.
fn push_labels(page: &mut Vec<u8>, labels: &[Label<'_>]) -> Result<(), AllocError>
    ensures { OnOk result (page.new.items ≡ page.old.items ++ spec.labels_text labels.now) }
{
    for label in labels {
        push_label(page, *label)?;
    }
    Ok(())
}

/// Writes a sample.
fn write_sample(
    page: &mut Vec<u8>,
    name: &str,
    labels: &[Label<'_>],
    value: u64,
) -> Result<(), AllocError>
    ensures { OnOk result (page.new.items ≡ page.old.items ++ spec.sample_text name.now labels.now value) }
{
    push(page, name.as_bytes())?;
    push(page, b"{")?;
    push_labels(page, labels)?;
    push(page, b"} ")?;
    let mut buffer = Buffer::new();
    push(page, buffer.format(value).as_bytes())?;
    push(page, b"\n")
}

/// Returns a decimal digit.
fn digit(number: u64) -> u8
    requires { number < 10 }
    ensures { result ≡ 48 + number }
{
    b'0' + number as u8
}

/// Writes a sample whose value is so many thousandths.
fn write_seconds(
    page: &mut Vec<u8>,
    name: &str,
    labels: &[Label<'_>],
    milliseconds: u64,
) -> Result<(), AllocError>
    ensures { OnOk result (page.new.items
        ≡ page.old.items ++ spec.seconds_text name.now labels.now milliseconds) }
{
    push(page, name.as_bytes())?;
    push(page, b"{")?;
    push_labels(page, labels)?;
    push(page, b"} ")?;
    let mut buffer = Buffer::new();
    push(page, buffer.format(milliseconds / 1000).as_bytes())?;
    let hundreds = digit(milliseconds / 100 % 10);
    let tens = digit(milliseconds / 10 % 10);
    let ones = digit(milliseconds % 10);
    push(page, &[b'.', hundreds, tens, ones])?;
    push(page, b"\n")
}

/// The kind of a metric.
#[derive(Clone, Copy, PartialEq, Eq)]
pub enum MetricKind {
    /// It grows, or begins again at 0.
    Counter,
    /// It rises and falls.
    Gauge,
    /// Counters of what keeps each of some bounds.
    Histogram,
}

/// Returns the word of a kind, behind a blank, and the end of its line.
fn kind_word(kind: MetricKind) -> &'static str
    ensures { result.now ≡ spec.kind_word kind }
{
    match kind {
        MetricKind::Counter => " counter\n",
        MetricKind::Gauge => " gauge\n",
        MetricKind::Histogram => " histogram\n",
    }
}

/// Writes the two lines that stand before the samples of a metric.
fn write_header(
    page: &mut Vec<u8>,
    name: &str,
    help: &str,
    kind: MetricKind,
) -> Result<(), AllocError>
    ensures { OnOk result (page.new.items ≡ page.old.items ++ spec.header_text name.now help.now kind) }
{
    push(page, b"# HELP ")?;
    push(page, name.as_bytes())?;
    push(page, b" ")?;
    push(page, help.as_bytes())?;
    push(page, b"\n# TYPE ")?;
    push(page, name.as_bytes())?;
    push(page, kind_word(kind).as_bytes())
}

/// Adds a sample to a page: its name, its labels and its value, on a line.
pub fn push_sample(
    page: &mut Vec<u8>,
    name: &str,
    labels: &[Label<'_>],
    value: u64,
) -> Result<(), AllocError>
    ensures text { OnOk result (page.new.items ≡ page.old.items ++ spec.sample_text name.now labels.now value) }
    ensures lines { OnOk result (MoreLines page.old.items page.new.items) }
{
    write_sample(page, name, labels, value)
}

/// Adds a sample to a page whose value is in seconds: of so many milliseconds.
pub fn push_seconds(
    page: &mut Vec<u8>,
    name: &str,
    labels: &[Label<'_>],
    milliseconds: u64,
) -> Result<(), AllocError>
    ensures text { OnOk result (page.new.items
        ≡ page.old.items ++ spec.seconds_text name.now labels.now milliseconds) }
    ensures lines { OnOk result (MoreLines page.old.items page.new.items) }
{
    write_seconds(page, name, labels, milliseconds)
}

/// Adds the two lines that stand before the samples of a metric: what it means, and of which kind it is.
pub fn push_header(
    page: &mut Vec<u8>,
    name: &str,
    help: &str,
    kind: MetricKind,
) -> Result<(), AllocError>
    ensures text { OnOk result (page.new.items ≡ page.old.items ++ spec.header_text name.now help.now kind) }
    ensures lines { OnOk result (MoreLines page.old.items page.new.items) }
{
    write_header(page, name, help, kind)
}
