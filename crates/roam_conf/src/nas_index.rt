//! The index of the NAS-Identifiers of all peers.

ghost use Rattle.std.specs.Prelude.{◌≡◌, ℕ, ◌≤◌, ◌^◌, IfOk, OnOk, Some, None, if◌then◌else◌, true, length, map, string_bytes, take};
ghost use Rattle.std.specs.List.{list_any};
ghost use Rattle.std.specs.Option.{option_or, option_to_list};
ghost use Rattle.roam_conf.specs.Index.{owners, is_marked, AreLengths};
ghost use Rattle.roam_conf.specs.Parts.{shown_peer};
ghost use Rattle.roam_conf.specs.TargetIndex.{nas_seen, nas_owner};
ghost use Rattle.roam_conf.specs.Targets.{NasPattern, exactly, nas_said, has_nas, same_nas, peer_with_nas};

use crate::Peer;
use crate::index::{Index, note_key, row_of};
use indexmap::IndexMap;
use std::alloc::{AllocError, Global};

/// The peers by their NAS-Identifiers.
#[derive(Drop)]
pub(crate) struct NasIndex {
    /// The peer of each whole identifier.
    pub(crate) identifiers: Index,
    /// The peer of each text with which its identifiers begin.
    pub(crate) fronts: Index,
}

/// The NAS-Identifiers that a text says. The octets in it stand elsewhere.
#[derive(Clone, Copy)]
pub(crate) enum NasRef<'a> {
    Exactly(&'a [u8]),
    Begins(&'a [u8]),
}

/// Returns the first `count` octets of a text.
pub(crate) fn front_of(octets: &[u8], count: usize) -> &[u8]
    requires { count ≤ length octets.now }
    ensures { result.now ≡ take count octets.now }
{
    octets.split_at(count).0
}

/// Returns what a text of `nas_ids` says.
fn nas_said(text: &[u8]) -> NasRef<'_>
    ensures { nas_seen result ≡ nas_said text.now }
{
    if text.len() >= 2 && text[text.len() - 1] == b'*' {
        NasRef::Begins(front_of(text, text.len() - 1))
    } else {
        NasRef::Exactly(text)
    }
}

/// Notes the peer of a pattern, unless it is there.
fn note_pattern(
    index: &mut NasIndex,
    alloc: Global,
    pattern: NasRef<'_>,
    peer: u16,
) -> Result<(), AllocError>
    ensures { OnOk result ((p : NasPattern) → nas_owner index.new p ≡ option_or (nas_owner index.old p)
        (if same_nas p (nas_seen pattern.entry) then Some peer else None)) }
{
    match pattern {
        NasRef::Exactly(name) => note_key(&mut index.identifiers, row_of(alloc, name)?, peer),
        NasRef::Begins(front) => note_key(&mut index.fronts, row_of(alloc, front)?, peer),
    }
}

/// Notes the peer of what these texts of `nas_ids` say.
fn note_texts(
    index: &mut NasIndex,
    alloc: Global,
    texts: &[String],
    peer: u16,
) -> Result<(), AllocError>
    ensures { OnOk result ((p : NasPattern) → nas_owner index.new p ≡ option_or (nas_owner index.old p)
        (if list_any (same_nas p) (map nas_said (map string_bytes texts.now)) then Some peer else None)) }
{
    for text in texts {
        note_pattern(index, alloc, nas_said(text.as_bytes()), peer)?;
    }
    Ok(())
}

/// Notes a peer for its `nas_id`, where it has one.
fn note_id(index: &mut NasIndex, alloc: Global, peer: &Peer, place: u16) -> Result<(), AllocError>
    ensures { OnOk result ((p : NasPattern) → nas_owner index.new p ≡ option_or (nas_owner index.old p)
        (if list_any (same_nas p) (map exactly (option_to_list (shown_peer peer.now).nas_id))
        then Some place else None)) }
{
    match &peer.nas_id {
        Some(text) => note_pattern(index, alloc, NasRef::Exactly(text.as_bytes()), place),
        None => Ok(()),
    }
}

/// Notes a peer for all of its NAS-Identifiers.
fn note_peer(index: &mut NasIndex, alloc: Global, peer: &Peer, place: u16) -> Result<(), AllocError>
    ensures { OnOk result ((p : NasPattern) → nas_owner index.new p ≡ option_or (nas_owner index.old p)
        (if has_nas p (shown_peer peer.now) then Some place else None)) }
{
    note_id(index, alloc, peer, place)?;
    note_texts(index, alloc, peer.nas_ids.as_slice(), place)
}

/// Lists the first peer of each NAS-Identifier.
pub(crate) fn nas_of(alloc: Global, peers: &[Peer]) -> Result<NasIndex, AllocError>
    requires { length peers.now ≤ 2 ^ 16 }
    ensures { IfOk result (λ index. (p : NasPattern)
        → nas_owner index p ≡ peer_with_nas (map shown_peer peers.now) p) }
{
    let mut index = NasIndex {
        identifiers: IndexMap::new(alloc),
        fronts: IndexMap::new(alloc),
    };
    for (place, peer) in peers.iter().enumerate() {
        note_peer(&mut index, alloc, peer, place as u16)?;
    }
    Ok(index)
}

/// Marks the length of a key.
fn mark_length(marks: &mut [bool; 254], key: &[u8])
    ensures own { length key.now ≤ 253 → is_marked marks.new (length key.now) ≡ true }
    ensures others { (n : ℕ) → is_marked marks.old n ≡ true → is_marked marks.new n ≡ true }
{
    if key.len() <= 253 {
        marks[key.len()] = true;
    }
}

/// Marks the lengths of the fronts that have an owner, except those of more than 253 octets.
pub(crate) fn lengths_of(fronts: &Index) -> [bool; 254]
    ensures { AreLengths result (owners fronts.now) }
{
    let mut marks = [false; 254];
    for key in fronts.keys().as_slice() {
        mark_length(&mut marks, key.as_slice());
    }
    marks
}
