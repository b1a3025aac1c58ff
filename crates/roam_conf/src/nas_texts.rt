//! The check that no text stands twice among the NAS-Identifiers of all peers.

ghost use Rattle.std.specs.Prelude.{◌≡◌, ◌++◌, IfOk, true, map, string_bytes};
ghost use Rattle.std.specs.Str.{bytes_eq};
ghost use Rattle.roam_conf.specs.Duplicates.{has_pair, nas_texts, nas_texts_of};
ghost use Rattle.roam_conf.specs.Index.{owners, all_new, of_nobody};
ghost use Rattle.roam_conf.specs.Parts.{shown_peer};

use crate::Peer;
use crate::index::{Index, note, row_of};
use indexmap::IndexMap;
use std::alloc::{AllocError, Global};

/// Notes texts, until one is there already: whether all are new.
fn note_texts(index: &mut Index, alloc: Global, texts: &[String]) -> Result<bool, AllocError>
    ensures new { IfOk result (λ new. new ≡ all_new (owners index.old)
        (map of_nobody (map string_bytes texts.now))) }
    ensures noted { IfOk result (λ new. new ≡ true → owners index.new
        ≡ owners index.old ++ map of_nobody (map string_bytes texts.now)) }
{
    for text in texts {
        if !note(index, row_of(alloc, text.as_bytes())?, 0)? {
            return Ok(false);
        }
    }
    Ok(true)
}

/// Notes the texts of a peer, until one is there already: whether all are new.
fn note_peer(index: &mut Index, alloc: Global, peer: &Peer) -> Result<bool, AllocError>
    ensures new { IfOk result (λ new. new ≡ all_new (owners index.old)
        (map of_nobody (nas_texts_of (shown_peer peer.now)))) }
    ensures noted { IfOk result (λ new. new ≡ true → owners index.new
        ≡ owners index.old ++ map of_nobody (nas_texts_of (shown_peer peer.now))) }
{
    match &peer.nas_id {
        Some(text) => {
            if !note(index, row_of(alloc, text.as_bytes())?, 0)? {
                return Ok(false);
            }
            note_texts(index, alloc, peer.nas_ids.as_slice())
        }
        None => note_texts(index, alloc, peer.nas_ids.as_slice()),
    }
}

/// Notes the texts of peers, until one is there already: whether all are new.
fn note_peers(index: &mut Index, alloc: Global, peers: &[Peer]) -> Result<bool, AllocError>
    ensures { IfOk result (λ new. new ≡ all_new (owners index.old)
        (map of_nobody (nas_texts (map shown_peer peers.now)))) }
{
    for peer in peers {
        if !note_peer(index, alloc, peer)? {
            return Ok(false);
        }
    }
    Ok(true)
}

/// Returns whether two texts among all `nas_id` and `nas_ids` of all peers are equal.
pub fn has_duplicate_nas_text(alloc: Global, peers: &[Peer]) -> Result<bool, AllocError>
    ensures { IfOk result (λ twice. twice ≡ has_pair bytes_eq (nas_texts (map shown_peer peers.now))) }
{
    let mut index = IndexMap::new(alloc);
    let all_new = note_peers(&mut index, alloc, peers)?;
    Ok(!all_new)
}
