//! Octets read as ledgers.

ghost use Rattle.std.specs.Prelude.{◌≡◌, List, IfOk, Ok, length};
ghost use Rattle.roam_sessions.specs.Ledgers.{SavedItem, ledgers_text};
ghost use Rattle.roam_sessions.specs.Reading.{Gives, ended, items_within, reading, with_front};
ghost use Rattle.roam_sessions.specs.ShownLedgers.{shown_items};

use crate::fault::{LedgerFault, ReadError};
use crate::fields::{behind_head, item_of};
use crate::item::Item;
use std::alloc::Global;

/// Returns all items, where nothing stands behind their end.
fn ended<'a>(items: Vec<Item<'a>>, after: &[u8]) -> Result<Vec<Item<'a>>, ReadError>
    ensures { Gives (λ v. shown_items v.items) result (with_front (shown_items items.entry.items) (ended after.now)) }
{
    if after.is_empty() {
        Ok(items)
    } else {
        Err(ReadError::Fault(LedgerFault::Trailing))
    }
}

/// Reads the items of octets that begin behind the head.
fn items_of(alloc: Global, octets: &[u8]) -> Result<Vec<Item<'_>>, ReadError>
    ensures { Gives (λ v. shown_items v.items) result (items_within (length octets.now) octets.now) }
{
    let mut items = Vec::new(alloc);
    let mut rest = octets;
    for _ in 0..octets.len() {
        match item_of(rest) {
            Err(error) => return Err(error),
            Ok((None, after)) => return ended(items, after),
            Ok((Some(item), after)) => {
                items.push(item)?;
                rest = after;
            }
        }
    }
    Err(ReadError::Fault(LedgerFault::Cut))
}

#[tactic(auto, unfolding(crate::specs::Reading::reading))]
fn all(alloc: Global, octets: &[u8]) -> Result<Vec<Item<'_>>, ReadError>
    ensures { Gives (λ v. shown_items v.items) result (reading octets.now) }
{
    let rest = behind_head(octets)?;
    items_of(alloc, rest)
}

/// Reads the session tables that the octets are, all of the octets.
///
/// # Errors
///
/// `Fault` with the first fault from the left; `Memory`.
pub fn read(alloc: Global, octets: &[u8]) -> Result<Vec<Item<'_>>, ReadError>
    // What is read is what was written.
    ensures found { IfOk result (λ v. octets.now ≡ ledgers_text (shown_items v.items)) }
    // What was written is read, unless memory is refused.
    ensures only { (items : List SavedItem) → octets.now ≡ ledgers_text items
        → Gives (λ v. shown_items v.items) result (Ok items) }
    // Which fault it is.
    ensures exact { Gives (λ v. shown_items v.items) result (reading octets.now) }
{
    all(alloc, octets)
}
