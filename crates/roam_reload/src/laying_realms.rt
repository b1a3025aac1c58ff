//! The realms of a configuration are laid out by those of the one which it follows.

ghost use Rattle.std.specs.Prelude.{◌≡◌, ◌<◌, ◌++◌, IfOk, IfSome, OnOk, false, length, map, option_map, unwrap_or};
ghost use Rattle.std.specs.List.{find};
ghost use Rattle.std.specs.Option.{option_to_list};
ghost use Rattle.roam_conf.specs.Duplicates.{has_pair};
ghost use Rattle.roam_conf.specs.Lookup.{first_place};
ghost use Rattle.roam_conf.specs.Parts.{shown_realm};
ghost use Rattle.roam_reload.specs.Laying.{all_in, left_in, realms_in, slot_holds, without_first};
ghost use Rattle.roam_reload.specs.Numbers.{gone_realm, laid_by, same_realm_name};

use crate::gone::gone_realm;
use crate::numbers::is_same_realm;
use roam_conf::Realm;
use std::alloc::{AllocError, Global};

/// Puts each table into a slot of its own.
fn slots_of(alloc: Global, realms: Vec<Realm>) -> Result<Vec<Option<Realm>>, AllocError>
    ensures { IfOk result (λ slots. realms_in slots.items ≡ all_in (map shown_realm realms.items)) }
{
    let mut slots = Vec::new(alloc);
    for realm in realms {
        slots.push(Some(realm))?;
    }
    Ok(slots)
}

/// Returns whether a slot has the table of the same realm.
fn holds(slot: &Option<Realm>, realm: &Realm) -> bool
    ensures { result ≡ slot_holds (same_realm_name (shown_realm realm.now)) (option_map shown_realm slot.now) }
{
    match slot {
        Some(other) => is_same_realm(realm, other),
        None => false,
    }
}

/// Finds the first slot that has the table of the same realm.
fn slot_with(slots: &[Option<Realm>], realm: &Realm) -> Option<usize>
    ensures value { result
        ≡ first_place (slot_holds (same_realm_name (shown_realm realm.now))) (realms_in slots.now) }
    ensures bound { IfSome result (λ i. i < length slots.now) }
{
    for (i, slot) in slots.iter().enumerate() {
        if holds(slot, realm) {
            return Some(i);
        }
    }
    None
}

/// Takes the table of the same realm out of its slot.
fn take_table(slots: &mut Vec<Option<Realm>>, realm: &Realm) -> Option<Realm>
    ensures found { option_map shown_realm result
        ≡ find (same_realm_name (shown_realm realm.now)) (left_in (realms_in slots.old.items)) }
    ensures slots { realms_in slots.new.items
        ≡ without_first (same_realm_name (shown_realm realm.now)) (realms_in slots.old.items) }
{
    match slot_with(slots.as_slice(), realm) {
        Some(i) => slots[i].take(),
        None => None,
    }
}

/// Returns what stands at the index of an older realm: its new table, or nothing any more.
fn table_then(
    alloc: Global,
    slots: &mut Vec<Option<Realm>>,
    realm: &Realm,
) -> Result<Realm, AllocError>
    ensures table { IfOk result (λ next. shown_realm next
        ≡ unwrap_or (find (same_realm_name (shown_realm realm.now)) (left_in (realms_in slots.old.items)))
        (gone_realm (shown_realm realm.now))) }
    ensures slots { realms_in slots.new.items
        ≡ without_first (same_realm_name (shown_realm realm.now)) (realms_in slots.old.items) }
{
    match take_table(slots, realm) {
        Some(next) => Ok(next),
        None => gone_realm(alloc, realm),
    }
}

/// Puts the table of a slot behind those that are laid out, if there is one.
fn put_table(laid: &mut Vec<Realm>, slot: Option<Realm>) -> Result<(), AllocError>
    ensures { OnOk result (map shown_realm laid.new.items
        ≡ map shown_realm laid.old.items ++ option_to_list (option_map shown_realm slot)) }
{
    match slot {
        Some(realm) => Ok(laid.push(realm)?),
        None => Ok(()),
    }
}

/// Puts the tables that are left behind those that are laid out.
fn put_tables(laid: &mut Vec<Realm>, slots: Vec<Option<Realm>>) -> Result<(), AllocError>
    ensures { OnOk result (map shown_realm laid.new.items
        ≡ map shown_realm laid.old.items ++ left_in (realms_in slots.items)) }
{
    for slot in slots {
        put_table(laid, slot)?;
    }
    Ok(())
}

/// Lays the realms out by older ones.
pub(crate) fn laid_realms(
    alloc: Global,
    old: &[Realm],
    new: Vec<Realm>,
) -> Result<Vec<Realm>, AllocError>
    requires old { has_pair same_realm_name (map shown_realm old.now) ≡ false }
    requires new { has_pair same_realm_name (map shown_realm new.items) ≡ false }
    ensures { IfOk result (λ laid. map shown_realm laid.items
        ≡ laid_by same_realm_name gone_realm (map shown_realm old.now) (map shown_realm new.items)) }
{
    let mut slots = slots_of(alloc, new)?;
    let mut laid = Vec::new(alloc);
    for realm in old {
        let next = table_then(alloc, &mut slots, realm)?;
        laid.push(next)?;
    }
    put_tables(&mut laid, slots)?;
    Ok(laid)
}
