//! The counts of a server as a page in Prometheus' text format, version 0.0.4.
//!
//! Nothing here counts or opens a socket: a page is text that is made of what [`Counts`] answers.
//!
//! The state of a server, by its counts: as tables that a person reads, and as JSON.
//!
//! Nothing here counts: what is told is made of what `Counts` of `roam_metrics` answers.
//!
//! # Proved
//!
//! - a page is headers and samples and nothing else; each with its name, labels and value. Which count stands
//!   under which name and endpoint is tested | `page`, `push_header`, `push_sample`
//! - a label's value is read back as itself, whatever octets it has, and behind it what was written behind it |
//!   law `label_values_read_back`
//! - of the tables of `status`: how an endpoint of a home server stands, by what was seen of it; how long
//!   something was, in two units; a row's cells, and that each fits into its column. Which number stands in which
//!   column is tested | `Seen::standing`, `span_of`, `push_row`, `width_of`
#![tactic(auto)]

mod about;
mod about_page;
mod addresses;
mod counts;
mod family;
mod gauges;
pub mod laws;
mod named;
mod of_server;
mod pages;
mod reply_families;
mod request_families;
mod samples;
mod servers;
mod spans;
mod standing;
mod status_json;
mod status_table;
mod tables;
mod times;
mod totals;

pub use about::{About, Reloads};
pub use counts::Counts;
pub use family::Family;
pub use gauges::Gauge;
pub use pages::page;
pub use reply_families::{REFUSED, REPLIES, RETURNED};
pub use request_families::{CAME, FORWARDED, SENT_AGAIN, TAKEN_OVER};
pub use samples::{Label, MetricKind, push_header, push_sample, push_seconds};
pub use servers::{Seen, Standing};
pub use spans::{Span, TimeUnit, span_of};
pub use standing::{StatusForm, status};
