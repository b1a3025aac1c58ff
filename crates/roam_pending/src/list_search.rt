//! Looking through entries that stand in a row.

ghost use Rattle.std.specs.Prelude.{◌≡◌, ◌<◌, nat_lt, length, slice_index_or};
ghost use Rattle.std.specs.Prelude.{IfSome, None, MatchOption};
ghost use Rattle.std.specs.List.{count_by};
ghost use Rattle.roam_pending.specs.EntryList.{IsInOrder};
ghost use Rattle.roam_pending.specs.PlainEntry.{deadline_of as plain_deadline_of, stands_done};
ghost use Rattle.roam_pending.specs.EntryList.{find_client, find_ticket, first_done as plain_first_done, besides};
ghost use Rattle.roam_pending.specs.EntryList.{is_beside, is_done_beside};
ghost use Rattle.roam_pending.specs.DueOrder.{due_after, is_after as plain_is_after, is_before as plain_is_before};
ghost use Rattle.roam_pending.specs.ListLaws.{IsNextAfter};
ghost use Rattle.roam_pending.specs.Private.DueSearch.{due_alone as plain_due_alone, earlier as plain_earlier};
ghost use Rattle.roam_pending.specs.Private.DueSearch.{due_past as plain_due_past};
ghost use Rattle.roam_pending.specs.Shown.{shown, shown_all, shown_standing, seen};

use crate::due::Due;
use crate::entry::{Entry, Standing};
use crate::key::{Key, is_same_key};
use std::alloc::Allocator;

/// Returns how many entries have a lesser ticket: the place of that ticket where entries stand in order.
pub(crate) fn count_below<A: Allocator>(entries: &[Entry<A>], ticket: u64) -> usize
    ensures { result ≡ count_by (λ e. nat_lt e.ticket ticket) entries.now }
{
    entries.iter().filter(|entry| entry.ticket < ticket).count()
}

/// Finds the place of a ticket, where entries stand in order.
pub(crate) fn place_of<A: Allocator>(entries: &[Entry<A>], ticket: u64) -> Option<usize>
    requires { IsInOrder (shown_all entries.now) }
    ensures none { MatchOption result (find_ticket ticket (shown_all entries.now) ≡ None)
        (λ i. i < length entries.now) }
    ensures found { IfSome result (λ i. (d : Entry A) → (slice_index_or entries.now i d).ticket ≡ ticket) }
{
    let place = count_below(entries, ticket);
    if place < entries.len() && entries[place].ticket == ticket {
        Some(place)
    } else {
        None
    }
}

/// Returns the moment until which an entry stands as it does, in milliseconds.
pub(crate) fn deadline_of<A: Allocator>(standing: &Standing<A>) -> u64
    ensures { result ≡ plain_deadline_of (shown_standing standing.now) }
{
    match standing {
        Standing::Waiting(waiting) => waiting.deadline,
        Standing::Done(done) => done.deadline,
    }
}

/// Returns whether it was answered.
fn is_answered<A: Allocator>(standing: &Standing<A>) -> bool
    ensures { result ≡ stands_done (shown_standing standing.now) }
{
    match standing {
        Standing::Waiting(_) => false,
        Standing::Done(_) => true,
    }
}

/// Returns whether a ticket isn't the one that counts as gone.
fn is_another(except: Option<u64>, ticket: u64) -> bool
    ensures { result ≡ is_beside except ticket }
{
    match except {
        None => true,
        Some(gone) => ticket != gone,
    }
}

/// Returns whether an entry is done, and not the one that counts as gone.
fn is_done_besides<A: Allocator>(except: Option<u64>, entry: &Entry<A>) -> bool
    ensures { result ≡ is_done_beside except (shown entry.now) }
{
    is_another(except, entry.ticket) && is_answered(&entry.standing)
}

/// Finds the first entry of a key.
pub(crate) fn client_in<'a, A: Allocator>(
    entries: &'a [Entry<A>],
    key: &Key,
) -> Option<&'a Entry<A>>
    ensures { seen result ≡ find_client key.now (shown_all entries.entry.now) }
{
    for entry in entries {
        if is_same_key(&entry.request.key, key) {
            return Some(entry);
        }
    }
    None
}

/// Finds the ticket of the first entry that was answered, besides one that counts as gone.
pub(crate) fn done_in<A: Allocator>(entries: &[Entry<A>], except: Option<u64>) -> Option<u64>
    ensures { result ≡ plain_first_done (besides except (shown_all entries.now)) }
{
    for entry in entries {
        if is_done_besides(except, entry) {
            return Some(entry.ticket);
        }
    }
    None
}

/// Returns whether one due comes before another.
fn is_before(due: &Due, other: &Due) -> bool
    ensures { result ≡ plain_is_before due.now other.now }
{
    due.deadline < other.deadline || (due.deadline == other.deadline && due.ticket < other.ticket)
}

/// Returns whether a due comes after the last one, if there was one.
fn is_after(last: Option<Due>, due: &Due) -> bool
    ensures { result ≡ plain_is_after last due.now }
{
    match last {
        None => true,
        Some(last) => is_before(&last, due),
    }
}

/// Returns when an entry is due, if it is, and after the last one.
fn due_alone<A: Allocator>(entry: &Entry<A>, now: u64, last: Option<Due>) -> Option<Due>
    ensures { result ≡ plain_due_alone now last (shown entry.now) }
{
    let due = Due {
        deadline: deadline_of(&entry.standing),
        ticket: entry.ticket,
    };
    if due.deadline <= now && is_after(last, &due) {
        Some(due)
    } else {
        None
    }
}

/// Returns the one that comes before the other, of what there is.
fn earlier(first: Option<Due>, second: Option<Due>) -> Option<Due>
    ensures { result ≡ plain_earlier first second }
{
    match (first, second) {
        (None, second) => second,
        (first, None) => first,
        (Some(first), Some(second)) => {
            if is_before(&second, &first) {
                Some(second)
            } else {
                Some(first)
            }
        }
    }
}

/// Finds the first due entry, or the next one after the last.
pub(crate) fn due_in<A: Allocator>(entries: &[Entry<A>], now: u64, last: Option<Due>) -> Option<Due>
    ensures { result ≡ due_after now last (shown_all entries.now) }
{
    let mut first = None;
    for entry in entries {
        first = earlier(first, due_alone(entry, now, last));
    }
    first
}

/// Returns when an entry is due, if that is after the last one.
fn due_past<A: Allocator>(entry: &Entry<A>, last: Option<Due>) -> Option<Due>
    ensures { result ≡ plain_due_past last (shown entry.now) }
{
    let due = Due {
        deadline: deadline_of(&entry.standing),
        ticket: entry.ticket,
    };
    if is_after(last, &due) {
        Some(due)
    } else {
        None
    }
}

/// Finds the first entry of all after the last one, by deadline and ticket.
pub(crate) fn next_in<A: Allocator>(entries: &[Entry<A>], last: Option<Due>) -> Option<Due>
    ensures { IsNextAfter last (shown_all entries.now) result }
{
    let mut first = None;
    for entry in entries {
        first = earlier(first, due_past(entry, last));
    }
    first
}
