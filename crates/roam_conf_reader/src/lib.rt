//! Reading the configuration of the broker from the text of a TOML document.
//!
//! Nothing that routes, forwards or keeps entries stands on this crate: a configuration that was read
//! is a value of `roam_conf`.
//!
//! # Proved
//!
//! - what the TOML document states, and then no fault of the list holds in it; or the first that holds; or it is out
//!   of memory | `read_config`: `ok`, `faultless`, `err`
//! - a configuration is laid out by the one which it is to follow: each realm and peer of both has the index that it
//!   had | `following_config`
//! - what is printed of each fault | the `Display` of `ConfFault`; of `SimFault` (`roam_sim`), `TraceFault`
//!   (`roam_shard`), `AuditFault` (`roam_history`) and `HubFault` (`roam_history`)
#![tactic(auto)]

mod coa_client;
mod config;
mod document;
mod duplicates;
mod endpoint_set;
mod endpoints;
mod equal_peers;
mod fault;
mod following;
mod keys;
mod names;
mod operator;
mod pattern;
mod peer;
mod prefixes;
mod realm;
mod removed;
mod server;
mod settings;
mod stated;
mod station_word;
mod tables;
mod values;

pub use config::{read_config, read_config_and_settings};
pub use fault::ConfFault;
pub use following::following_config;
pub use settings::{Settings, read_settings};
pub use station_word::StationWord;
