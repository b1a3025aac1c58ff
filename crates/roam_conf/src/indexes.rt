//! The indexes of a configuration, which are made once, from its lists.

ghost use Rattle.std.specs.Prelude.{◌≡◌, ◌≤◌, IfOk, length, map, false, true, refl};
ghost use Rattle.roam_conf.specs.Duplicates.{has_duplicate_realm, has_duplicate_peer};
ghost use Rattle.roam_conf.specs.Index.{owners, all_patterns, AreMarked};
ghost use Rattle.roam_conf.specs.Lookup.{pattern_lists};
ghost use Rattle.roam_conf.specs.Parts.{shown_peer, shown_realm};
ghost use Rattle.roam_conf.specs.Patterns.{shown_pattern};
ghost use Rattle.roam_conf.specs.PeerIndex.{FindsPeers};
ghost use Rattle.roam_conf.specs.TargetIndex.{FindsTargets};

use crate::index::Index;
use crate::names::{note_all, suffix_lengths};
use crate::peer_index::PeerIndex;
use crate::target_index::TargetIndex;
use crate::{ConfigParts, Peer, Realm, RealmPattern};
use indexmap::IndexMap;
use std::alloc::{AllocError, Global};

/// The indexes of a configuration. They follow from its lists, so they tell no two configurations apart.
#[derive(Drop)]
pub(crate) struct Indexes {
    /// The realm of each name and pattern; behind the realms comes what is rejected.
    pub(crate) names: Index,
    /// The lengths of the suffixes among them, in octets: one of another length isn't looked for.
    pub(crate) suffix_lengths: [bool; 254],
    /// The peer of each address.
    pub(crate) ips: PeerIndex,
    /// The peers that reverse requests name.
    pub(crate) targets: TargetIndex,
    ghost marked: { AreMarked suffix_lengths (owners names) },
}

impl Indexes {
    /// Makes the indexes of these lists.
    pub(crate) fn new(
        alloc: Global,
        peers: &[Peer],
        realms: &[Realm],
        reject: &[RealmPattern],
    ) -> Result<Indexes, AllocError>
        requires few { (length peers.now ≤ 1024) × (length realms.now ≤ 1024) }
        requires distinct { has_duplicate_realm (map shown_realm realms.now) (map shown_pattern reject.now) ≡ false }
        requires distinct_peers { has_duplicate_peer (map shown_peer peers.now) ≡ false }
        ensures names { IfOk result
            (λ indexes. owners indexes.names
            ≡ all_patterns 0 (pattern_lists (map shown_realm realms.now) (map shown_pattern reject.now))) }
        ensures ips { IfOk result (λ indexes. FindsPeers indexes.ips peers.now) }
        ensures targets { IfOk result (λ indexes. FindsTargets indexes.targets (map shown_peer peers.now)) }
    {
        let mut names = IndexMap::new(alloc);
        note_all(&mut names, alloc, realms, reject)?;
        let suffix_lengths = suffix_lengths(&names);
        let ips = PeerIndex::new(alloc, peers)?;
        let targets = TargetIndex::new(alloc, peers)?;
        Ok(Indexes {
            names,
            suffix_lengths,
            ips,
            targets,
        })
    }
}

impl ConfigParts {
    ghost use Rattle.std.specs.Prelude.{◌≡◌, IfOk, false, map};
    ghost use Rattle.roam_conf.specs.Duplicates.{has_duplicate_realm, has_duplicate_peer};
    ghost use Rattle.roam_conf.specs.Index.{owners, all_patterns};
    ghost use Rattle.roam_conf.specs.Lookup.{pattern_lists};
    ghost use Rattle.roam_conf.specs.Parts.{shown_peer, shown_realm};
    ghost use Rattle.roam_conf.specs.Patterns.{shown_pattern};
    ghost use Rattle.roam_conf.specs.PeerIndex.{FindsPeers};
    ghost use Rattle.roam_conf.specs.TargetIndex.{FindsTargets};

    /// Makes the indexes of these parts.
    pub(crate) fn indexes(&self, alloc: Global) -> Result<Indexes, AllocError>
        requires distinct { has_duplicate_realm (map shown_realm self.now.realms.items)
            (map shown_pattern self.now.reject.items) ≡ false }
        requires distinct_peers { has_duplicate_peer (map shown_peer self.now.peers.items) ≡ false }
        ensures names { IfOk result
            (λ indexes. owners indexes.names ≡ all_patterns 0 (pattern_lists
            (map shown_realm self.now.realms.items) (map shown_pattern self.now.reject.items))) }
        ensures ips { IfOk result (λ indexes. FindsPeers indexes.ips self.now.peers.items) }
        ensures targets { IfOk result (λ indexes. FindsTargets indexes.targets (map shown_peer self.now.peers.items)) }
    {
        Indexes::new(
            alloc,
            self.peers.as_slice(),
            self.realms.as_slice(),
            self.reject.as_slice(),
        )
    }
}

impl PartialEq for Indexes {
    ghost eq = { λ _ _. true };

    ghost laws = { record { symm = λ _ _. refl; trans = λ _ _ _ _ _. refl } };

    fn eq(&self, _other: &Indexes) -> bool {
        true
    }
}

impl Eq for Indexes {
    ghost laws = { record { refl = λ _. refl; symm = λ _ _. refl; congr = λ _ _ _ _. refl } };
}

/// Returns whether two names, two suffixes or two `*` of all realms, and of what is rejected, are the same.
pub fn has_duplicate_realm(
    alloc: Global,
    realms: &[Realm],
    reject: &[RealmPattern],
) -> Result<bool, AllocError>
    requires { length realms.now ≤ 1024 }
    ensures { IfOk result (λ twice. twice
        ≡ has_duplicate_realm (map shown_realm realms.now) (map shown_pattern reject.now)) }
{
    let mut names = IndexMap::new(alloc);
    let all_new = note_all(&mut names, alloc, realms, reject)?;
    Ok(!all_new)
}
