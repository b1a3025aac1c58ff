//! The configuration of the broker.

ghost use Rattle.std.specs.Prelude.{◌≡◌, ◌≤◌, false, true, map, vec_len};
ghost use Rattle.std.specs.List.{list_all};
ghost use Rattle.roam_conf.specs.Duplicates.{has_duplicate_realm, has_duplicate_peer, has_duplicate_endpoint};
ghost use Rattle.roam_conf.specs.Duplicates.{has_duplicate_server, has_duplicate_link};
ghost use Rattle.roam_conf.specs.Asking.{has_unknown_peer};
ghost use Rattle.roam_conf.specs.Index.{owners, all_patterns};
ghost use Rattle.roam_conf.specs.Lookup.{pattern_lists};
ghost use Rattle.roam_conf.specs.Parts.{shown_peer, shown_realm};
ghost use Rattle.roam_conf.specs.Patterns.{is_reject, shown_pattern};
ghost use Rattle.roam_conf.specs.PeerIndex.{FindsPeers};
ghost use Rattle.roam_conf.specs.TargetIndex.{FindsTargets};
ghost use Rattle.roam_conf.specs.Ways.{has_no_way_out, has_port};

use crate::indexes::Indexes;
use crate::{ConfigParts, Endpoint, Peer, Realm, RealmPattern, TopKeys};
use std::alloc::{AllocError, Global};

/// An accepted configuration: each value is in its range, and nothing stands twice that may not.
///
/// The fields are the keys of the document; `peers` are its tables `peer`, `realms` its tables
/// `realm`, in the order of the file. The index of a peer or realm is its place there, from 0.
#[derive(PartialEq, Eq)]
pub struct Config {
    /// The keys that are plain values.
    pub top: TopKeys,
    /// The broker's sockets for Access-Requests (RFC 2865): 1 to 8, of which no port is 0.
    pub auth: Vec<Endpoint>,
    /// The broker's sockets for Accounting-Requests (RFC 2866): 1 to 8, of which no port is 0.
    pub acct: Vec<Endpoint>,
    /// Names and suffixes that are of no realm: at most 1024.
    pub reject: Vec<RealmPattern>,
    /// 1 to 1024 peers.
    pub peers: Vec<Peer>,
    /// 1 to 1024 realms.
    pub realms: Vec<Realm>,
    /// The indexes by which the look-ups find.
    pub(crate) found_by: Indexes,
    ghost auth_count: { (1 ≤ vec_len auth) × (vec_len auth ≤ 8) },
    ghost acct_count: { (1 ≤ vec_len acct) × (vec_len acct ≤ 8) },
    ghost ports: { (list_all has_port auth.items ≡ true) × (list_all has_port acct.items ≡ true) },
    ghost reject_count: { vec_len reject ≤ 1024 },
    ghost reject_names: { list_all is_reject (map shown_pattern reject.items) ≡ true },
    ghost peer_count: { (1 ≤ vec_len peers) × (vec_len peers ≤ 1024) },
    ghost realm_count: { (1 ≤ vec_len realms) × (vec_len realms ≤ 1024) },
    ghost names_noted: { owners found_by.names
        ≡ all_patterns 0 (pattern_lists (map shown_realm realms.items) (map shown_pattern reject.items)) },
    ghost ips_noted: { FindsPeers found_by.ips peers.items },
    ghost targets_noted: { FindsTargets found_by.targets (map shown_peer peers.items) },
    ghost distinct_realms: { has_duplicate_realm (map shown_realm realms.items)
        (map shown_pattern reject.items) ≡ false },
    ghost distinct_peers: { has_duplicate_peer (map shown_peer peers.items) ≡ false },
    ghost distinct_endpoints: { has_duplicate_endpoint auth.items acct.items (map shown_realm realms.items) ≡ false },
    ghost distinct_servers: { has_duplicate_server (map shown_realm realms.items) ≡ false },
    ghost distinct_links: { has_duplicate_link (map shown_peer peers.items) (map shown_realm realms.items) ≡ false },
    ghost ways_out: { has_no_way_out (map shown_realm realms.items) ≡ false },
    ghost known_peers: { has_unknown_peer (map shown_peer peers.items) (map shown_realm realms.items) ≡ false },
}

// By hand, so that a proof sees one call wherever a configuration ends, and not each of its fields and maps.
impl Drop for Config {
    fn drop(self) {
        let Self {
            top: _,
            auth,
            acct,
            reject,
            peers,
            realms,
            found_by,
        } = self;
        drop(auth);
        drop(acct);
        drop(reject);
        drop(peers);
        drop(realms);
        drop(found_by);
    }
}

impl Config {
    ghost use Rattle.std.specs.Prelude.{IfOk};
    ghost use Rattle.roam_conf.specs.Consistent.{IsConsistent};
    ghost use Rattle.roam_conf.specs.Shown.{shown, shown_parts};

    /// Makes the configuration of these parts, in which nothing stands twice that may not, no server is where its
    /// realm's `out` sends nothing, and each peer that is named is there. An error says only that memory was refused.
    pub fn new(alloc: Global, parts: ConfigParts) -> Result<Config, AllocError>
        requires { IsConsistent (shown_parts parts) }
        ensures { IfOk result (λ config. shown config ≡ shown_parts parts) }
    {
        let found_by = parts.indexes(alloc)?;
        let ConfigParts {
            top,
            auth,
            acct,
            reject,
            peers,
            realms,
        } = parts;
        Ok(Config {
            top,
            auth,
            acct,
            reject,
            peers,
            realms,
            found_by,
        })
    }

    /// Takes a configuration apart into its parts again. Takes no memory.
    pub fn into_parts(self) -> ConfigParts
        ensures { shown_parts result ≡ shown self }
    {
        let Config {
            top,
            auth,
            acct,
            reject,
            peers,
            realms,
            found_by,
        } = self;
        drop(found_by);
        ConfigParts {
            top,
            auth,
            acct,
            reject,
            peers,
            realms,
        }
    }
}
