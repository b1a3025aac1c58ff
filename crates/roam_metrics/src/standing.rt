//! The state of a server: what it serves, and how often of each realm, home server and peer, as tables that a person
//! reads and as JSON (RFC 8259).

use crate::status_json::status_json;
use crate::status_table::status_table;
use crate::{About, Counts};
use roam_conf::Config;
use std::alloc::{AllocError, Global};

/// In which form it is told.
#[derive(Clone, Copy, PartialEq, Eq)]
pub enum StatusForm {
    Text,
    Json,
}

/// Returns how a server of this configuration stands, in this form.
///
/// # Errors
///
/// Where a growth was refused.
pub fn status<C: Counts>(
    alloc: Global,
    config: &Config,
    counts: &C,
    about: &About,
    form: StatusForm,
) -> Result<Vec<u8>, AllocError> {
    match form {
        StatusForm::Text => status_table(alloc, config, counts, about),
        StatusForm::Json => status_json(alloc, config, counts, about),
    }
}
