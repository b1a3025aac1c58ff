//! The configuration that a text states, and the settings beside it.

ghost use Rattle.std.specs.Prelude.{◌≡◌, ◌⊎◌, Some, IfOk, IfErr, OnOk};
ghost use Rattle.toml.specs.Parse.{parse_document};
ghost use Rattle.toml.specs.View.{table_view};
ghost use Rattle.roam_conf.specs.Shown.{shown};
ghost use Rattle.roam_conf_reader.specs.Faults.{States, NoneHolds, IsFirstFault, every_fault};
ghost use Rattle.roam_conf_reader.specs.Settings.{StatesSettings};

use crate::ConfFault;
use crate::document::document;
use crate::duplicates::first_duplicate;
use crate::settings::{Settings, settings_of};
use crate::stated::parts_from;
use crate::tables::document_misses;
use roam_conf::Config;
use std::alloc::Global;
use toml::Table;

/// Reads a configuration, and the document that states it.
fn document_and_config(alloc: Global, text: &str) -> Result<(Table, Config), ConfFault>
    ensures document { IfOk result (λ read. parse_document text.now ≡ Some (table_view read.0)) }
    ensures ok { IfOk result (λ read. States text.now (shown read.1)) }
    ensures faultless { OnOk result (NoneHolds text.now every_fault) }
    ensures err { IfErr result (λ f. (f ≡ ConfFault.Memory) ⊎ IsFirstFault text.now f) }
{
    let table = document(alloc, text)?;
    if document_misses(&table) {
        return Err(ConfFault::Missing);
    }
    let parts = parts_from(alloc, &table)?;
    match first_duplicate(alloc, &parts)? {
        Some(fault) => Err(fault),
        None => Ok((table, Config::new(alloc, parts)?)),
    }
}

/// Reads a configuration from the text of a TOML document.
///
/// A refusal is the first fault of the list of `ConfFault` that holds anywhere in the text, or
/// `Memory`, which comes where a growth was refused.
pub fn read_config(alloc: Global, text: &str) -> Result<Config, ConfFault>
    ensures ok { IfOk result (λ config. States text.now (shown config)) }
    ensures faultless { OnOk result (NoneHolds text.now every_fault) }
    ensures err { IfErr result (λ f. (f ≡ ConfFault.Memory) ⊎ IsFirstFault text.now f) }
{
    let (_document, config) = document_and_config(alloc, text)?;
    Ok(config)
}

/// Reads a configuration and its settings from a text, which is parsed once.
///
/// Where there is a configuration there are settings too, unless memory is wanting: so a refusal is what it is of
/// `read_config`.
pub fn read_config_and_settings(alloc: Global, text: &str) -> Result<(Config, Settings), ConfFault>
    ensures ok { IfOk result (λ read. States text.now (shown read.0)) }
    ensures settings { IfOk result (λ read. StatesSettings text.now read.1) }
    ensures faultless { OnOk result (NoneHolds text.now every_fault) }
    ensures err { IfErr result (λ f. (f ≡ ConfFault.Memory) ⊎ IsFirstFault text.now f) }
{
    let (document, config) = document_and_config(alloc, text)?;
    match settings_of(alloc, &document) {
        Ok(settings) => Ok((config, settings)),
        Err(_) => Err(ConfFault::Memory),
    }
}
