//! The names of peers that realms state, and whether each of them is a peer's.

ghost use Rattle.std.specs.Prelude.{◌≡◌, ℕ, List, ◌≤◌, ◌^◌, ◌&&◌, IfOk, false, length, map, not, string_bytes};
ghost use Rattle.std.specs.List.{list_any};
ghost use Rattle.std.specs.Option.{option_map_or};
ghost use Rattle.std.specs.Str.{bytes_eq};
ghost use Rattle.roam_conf.specs.Asking.{has_unknown_peer};
ghost use Rattle.roam_conf.specs.Index.{owners, owner_of, is_unowned};
ghost use Rattle.roam_conf.specs.Lookup.{first_place};
ghost use Rattle.roam_conf.specs.Parts.{shown_peer, shown_realm};

use crate::index::{Index, note, owner_of, row_of};
use crate::{Peer, Realm};
use indexmap::IndexMap;
use std::alloc::{AllocError, Global};

/// Lists the first peer of each name, without the peers that are gone.
fn names_of(alloc: Global, peers: &[Peer]) -> Result<Index, AllocError>
    requires { length peers.now ≤ 2 ^ 16 }
    ensures { IfOk result (λ index. (name : List ℕ) → owner_of (owners index) name
        ≡ first_place (λ peer. not peer.gone && bytes_eq peer.name name) (map shown_peer peers.now)) }
{
    let mut index = IndexMap::new(alloc);
    for (place, peer) in peers.iter().enumerate() {
        if !peer.gone {
            let key = row_of(alloc, peer.name.as_bytes())?;
            note(&mut index, key, place as u16)?;
        }
    }
    Ok(index)
}

/// Returns whether one of the names isn't in the index.
fn has_other(index: &Index, names: &[String]) -> bool
    ensures { result ≡ list_any (is_unowned (owners index.now)) (map string_bytes names.now) }
{
    for name in names {
        if owner_of(index, name.as_bytes()).is_none() {
            return true;
        }
    }
    false
}

/// Returns whether a realm states names, and one of them isn't in the index.
fn states_other(index: &Index, realm: &Realm) -> bool
    ensures { result
        ≡ option_map_or (list_any (is_unowned (owners index.now))) (shown_realm realm.now).peers false }
{
    match &realm.peers {
        Some(names) => has_other(index, names.as_slice()),
        None => false,
    }
}

/// Returns whether a realm states a name that isn't in the index.
fn some_states_other(index: &Index, realms: &[Realm]) -> bool
    ensures { result ≡ list_any
        (λ realm. option_map_or (list_any (is_unowned (owners index.now))) realm.peers false)
        (map shown_realm realms.now) }
{
    for realm in realms {
        if states_other(index, realm) {
            return true;
        }
    }
    false
}

/// Returns whether a realm names a peer that isn't there.
pub fn has_unknown_peer(alloc: Global, peers: &[Peer], realms: &[Realm]) -> Result<bool, AllocError>
    requires { length peers.now ≤ 1024 }
    ensures { IfOk result (λ unknown. unknown
        ≡ has_unknown_peer (map shown_peer peers.now) (map shown_realm realms.now)) }
{
    let index = names_of(alloc, peers)?;
    Ok(some_states_other(&index, realms))
}
