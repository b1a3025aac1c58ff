//! The peers of a configuration are laid out by those of the one which it follows.

ghost use Rattle.std.specs.Prelude.{◌≡◌, ◌<◌, ◌++◌, IfOk, IfSome, OnOk, false, length, map, option_map, unwrap_or};
ghost use Rattle.std.specs.List.{find};
ghost use Rattle.std.specs.Option.{option_to_list};
ghost use Rattle.roam_conf.specs.Duplicates.{has_pair};
ghost use Rattle.roam_conf.specs.Lookup.{first_place};
ghost use Rattle.roam_conf.specs.Parts.{shown_peer};
ghost use Rattle.roam_reload.specs.Laying.{all_in, left_in, peers_in, slot_holds, without_first};
ghost use Rattle.roam_reload.specs.Numbers.{gone_peer, laid_by, same_peer_name};

use crate::gone::gone_peer;
use crate::numbers::is_same_peer;
use roam_conf::Peer;
use std::alloc::{AllocError, Global};

/// Puts each table into a slot of its own.
fn slots_of(alloc: Global, peers: Vec<Peer>) -> Result<Vec<Option<Peer>>, AllocError>
    ensures { IfOk result (λ slots. peers_in slots.items ≡ all_in (map shown_peer peers.items)) }
{
    let mut slots = Vec::new(alloc);
    for peer in peers {
        slots.push(Some(peer))?;
    }
    Ok(slots)
}

/// Returns whether a slot has the table of the same peer.
fn holds(slot: &Option<Peer>, peer: &Peer) -> bool
    ensures { result ≡ slot_holds (same_peer_name (shown_peer peer.now)) (option_map shown_peer slot.now) }
{
    match slot {
        Some(other) => is_same_peer(peer, other),
        None => false,
    }
}

/// Finds the first slot that has the table of the same peer.
fn slot_with(slots: &[Option<Peer>], peer: &Peer) -> Option<usize>
    ensures value { result
        ≡ first_place (slot_holds (same_peer_name (shown_peer peer.now))) (peers_in slots.now) }
    ensures bound { IfSome result (λ i. i < length slots.now) }
{
    for (i, slot) in slots.iter().enumerate() {
        if holds(slot, peer) {
            return Some(i);
        }
    }
    None
}

/// Takes the table of the same peer out of its slot.
fn take_table(slots: &mut Vec<Option<Peer>>, peer: &Peer) -> Option<Peer>
    ensures found { option_map shown_peer result
        ≡ find (same_peer_name (shown_peer peer.now)) (left_in (peers_in slots.old.items)) }
    ensures slots { peers_in slots.new.items
        ≡ without_first (same_peer_name (shown_peer peer.now)) (peers_in slots.old.items) }
{
    match slot_with(slots.as_slice(), peer) {
        Some(i) => slots[i].take(),
        None => None,
    }
}

/// Returns what stands at the index of an older peer: its new table, or nothing any more.
fn table_then(alloc: Global, slots: &mut Vec<Option<Peer>>, peer: &Peer) -> Result<Peer, AllocError>
    ensures table { IfOk result (λ next. shown_peer next
        ≡ unwrap_or (find (same_peer_name (shown_peer peer.now)) (left_in (peers_in slots.old.items)))
        (gone_peer (shown_peer peer.now))) }
    ensures slots { peers_in slots.new.items
        ≡ without_first (same_peer_name (shown_peer peer.now)) (peers_in slots.old.items) }
{
    match take_table(slots, peer) {
        Some(next) => Ok(next),
        None => gone_peer(alloc, peer),
    }
}

/// Puts the table of a slot behind those that are laid out, if there is one.
fn put_table(laid: &mut Vec<Peer>, slot: Option<Peer>) -> Result<(), AllocError>
    ensures { OnOk result (map shown_peer laid.new.items
        ≡ map shown_peer laid.old.items ++ option_to_list (option_map shown_peer slot)) }
{
    match slot {
        Some(peer) => Ok(laid.push(peer)?),
        None => Ok(()),
    }
}

/// Puts the tables that are left behind those that are laid out.
fn put_tables(laid: &mut Vec<Peer>, slots: Vec<Option<Peer>>) -> Result<(), AllocError>
    ensures { OnOk result (map shown_peer laid.new.items
        ≡ map shown_peer laid.old.items ++ left_in (peers_in slots.items)) }
{
    for slot in slots {
        put_table(laid, slot)?;
    }
    Ok(())
}

/// Lays the peers out by older ones.
pub(crate) fn laid_peers(
    alloc: Global,
    old: &[Peer],
    new: Vec<Peer>,
) -> Result<Vec<Peer>, AllocError>
    requires old { has_pair same_peer_name (map shown_peer old.now) ≡ false }
    requires new { has_pair same_peer_name (map shown_peer new.items) ≡ false }
    ensures { IfOk result (λ laid. map shown_peer laid.items
        ≡ laid_by same_peer_name gone_peer (map shown_peer old.now) (map shown_peer new.items)) }
{
    let mut slots = slots_of(alloc, new)?;
    let mut laid = Vec::new(alloc);
    for peer in old {
        let next = table_then(alloc, &mut slots, peer)?;
        laid.push(next)?;
    }
    put_tables(&mut laid, slots)?;
    Ok(laid)
}
