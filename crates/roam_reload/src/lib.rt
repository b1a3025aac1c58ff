//! The conditions for a configuration to follow another while the proxy serves, the numbers by which its realms and
//! peers are told then, and what stays of each.
//!
//! Nothing here reads a document or changes a broker: two configurations are looked at. Only laying one out by another
//! takes memory.
//!
//! # Proved
//!
//! - a configuration that is laid out by the one which it follows has each realm and each peer of both at the index
//!   where it stood, leaves the place of one that went empty, and has new ones behind; what is here in it is what
//!   stands in the file | `lay_out`, laws `laid_out_keeps_numbers`, `laid_out_holds_file`
//! - which realms go on, which of them are untouched, which begin and which went; whether it may follow, and if not,
//!   why | `after_reload`, `is_carried`, `is_untouched`, `hindrance_of`
//! - whether a peer's secret, what waits at its `coa` and its sessions stay; where a server stands then, and a source
//!   of reverse requests | `peer_keeps_secret`, `peer_keeps_coa`, `peer_keeps_sessions`, `server_then`, `home_then`
#![tactic(auto)]

mod carrying;
mod gone;
mod hindrance;
mod kept;
mod keys;
mod kind;
mod laws;
mod laying_out;
mod laying_peers;
mod laying_realms;
mod numbers;
mod peers;
mod prefixes;
mod realms;
mod sources;

pub use carrying::{AfterReload, after_reload, is_carried, is_here, is_untouched};
pub use hindrance::{Hindrance, hindrance_of};
pub use kept::{
    has_same_outs, has_same_servers, is_same_out, peer_keeps_coa, peer_keeps_secret,
    peer_keeps_sessions, server_then,
};
pub use keys::{PeerKey, REALM_KEYS, RealmKey};
pub use kind::PlaceKind;
pub use laws::{laid_out_holds_file, laid_out_keeps_numbers};
pub use laying_out::{LayFault, lay_out};
pub use peers::{other_peer, peer_difference};
pub use realms::{is_other_in, realm_difference};
pub use sources::home_then;
