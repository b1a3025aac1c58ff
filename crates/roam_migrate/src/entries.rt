//! The entries of a realm that stay when it goes on under another part of a configuration.

ghost use Rattle.std.specs.Prelude.{◌≡◌, ◌-◌, ◌<◌, ◌≤◌, ◌⊎◌, IfNone, IfSome, List, None, Some, false, length, option_map, true};
ghost use Rattle.std.specs.List.{AllByRecursion, filter_map};
ghost use Rattle.roam_pending.specs.EntryList.{IsEntryList, IsInOrder, find_ticket, first_done, without};
ghost use Rattle.roam_pending.specs.PlainEntry.{PlainEntry};
ghost use Rattle.roam_pending.specs.Realms.{RealmBecomes, with_ends};
ghost use Rattle.roam_pending.specs.Shown.{shown};
ghost use Rattle.roam_realm.specs.RealmConfig.{link_count};
ghost use Rattle.roam_realm.specs.Sound.{IsEntry, IsRequest, LanesTell, cursors_of, marks_of};
ghost use Rattle.roam_realm.specs.Stays.{KeepsButLanes};
ghost use Rattle.roam_migrate.specs.Private.Moving.{kept_or_gone, set_or_gone, staying, then_at};
ghost use Rattle.roam_migrate.specs.Reload.{entries_then, entry_then, few_enough, without_done};

use crate::ends::{Ends, ends_then};
use roam_pending::{Entries, Entry, Standing};
use roam_realm::{RealmNumbers, RealmSettings};
use std::alloc::Allocator;

/// Gives back the Identifier with which an entry waited that is gone.
fn give_back<A: Allocator + Copy>(
    old: &RealmSettings<'_>,
    numbers: &mut RealmNumbers<A>,
    entry: &Entry<A>,
)
    requires entry { IsEntry old.now numbers.old.ticket (shown entry.now) }
    requires count { length numbers.old.lanes.items ≡ link_count old.now }
    ensures tells { (es : List PlainEntry) → LanesTell old.now es numbers.old.lanes.items
        → find_ticket (shown entry.now).ticket es ≡ Some (shown entry.now)
        → LanesTell old.now (without (shown entry.now).ticket es) numbers.new.lanes.items }
    ensures keeps { KeepsButLanes numbers.old numbers.new }
    ensures cursors { cursors_of numbers.new.lanes.items ≡ cursors_of numbers.old.lanes.items }
    ensures marks { marks_of numbers.new.lanes.items ≡ marks_of numbers.old.lanes.items }
{
    match &entry.standing {
        Standing::Waiting(waiting) => numbers.give_back(old, waiting.link, waiting.id),
        Standing::Done(_) => {}
    }
}

/// Lets the entry of a ticket go, and gives back the Identifier with which it waits.
fn let_go<A: Allocator + Copy, E: Entries<A>>(
    old: &RealmSettings<'_>,
    entries: &mut E,
    numbers: &mut RealmNumbers<A>,
    ticket: u64,
)
    requires entry { (e : PlainEntry) → find_ticket ticket (E.entries_of entries.old old.now.index) ≡ Some e
        → IsEntry old.now numbers.old.ticket e }
    requires count { length numbers.old.lanes.items ≡ link_count old.now }
    ensures entries { RealmBecomes old.now.index (without ticket (E.entries_of entries.old old.now.index))
        (E.entries_of entries.old) (E.entries_of entries.new) }
    ensures kept { E.keeps entries.new ≡ E.keeps entries.old }
    ensures tells { (es : List PlainEntry) → LanesTell old.now es numbers.old.lanes.items
        → find_ticket ticket es ≡ find_ticket ticket (E.entries_of entries.old old.now.index)
        → LanesTell old.now (without ticket es) numbers.new.lanes.items }
    ensures keeps { KeepsButLanes numbers.old numbers.new }
    ensures cursors { cursors_of numbers.new.lanes.items ≡ cursors_of numbers.old.lanes.items }
    ensures marks { marks_of numbers.new.lanes.items ≡ marks_of numbers.old.lanes.items }
{
    match entries.remove(old.index(), ticket) {
        Some(entry) => give_back(old, numbers, &entry),
        None => {}
    }
}

/// Returns the ends, under the new settings, of the entry of a ticket. Returns `None` where it isn't there or doesn't
/// stay.
fn ends_at<A: Allocator + Copy, E: Entries<A>>(
    old: &RealmSettings<'_>,
    new: &RealmSettings<'_>,
    entries: &E,
    ticket: u64,
) -> Option<Ends>
    requires entry { (e : PlainEntry) → find_ticket ticket (E.entries_of entries.now old.now.index) ≡ Some e
        → IsRequest old.now e.request }
    ensures stays { IfSome result (λ ends.
        then_at old.now new.now ticket (E.entries_of entries.now old.now.index)
        ≡ option_map (with_ends ends.home ends.link)
        (find_ticket ticket (E.entries_of entries.now old.now.index))) }
    ensures goes { IfNone result
        (then_at old.now new.now ticket (E.entries_of entries.now old.now.index) ≡ None) }
{
    match entries.find_ticket(old.index(), ticket) {
        Some(entry) => ends_then(old, new, entry),
        None => None,
    }
}

/// Takes the entry of a ticket out, or gives it the numbers that its ends have under the new settings.
fn carry_one<A: Allocator + Copy, E: Entries<A>>(
    old: &RealmSettings<'_>,
    new: &RealmSettings<'_>,
    entries: &mut E,
    numbers: &mut RealmNumbers<A>,
    ticket: u64,
)
    requires entry { (e : PlainEntry) → find_ticket ticket (E.entries_of entries.old old.now.index) ≡ Some e
        → IsEntry old.now numbers.old.ticket e }
    requires count { length numbers.old.lanes.items ≡ link_count old.now }
    ensures entries { RealmBecomes old.now.index
        (set_or_gone ticket (then_at old.now new.now ticket (E.entries_of entries.old old.now.index))
        (E.entries_of entries.old old.now.index)) (E.entries_of entries.old) (E.entries_of entries.new) }
    ensures kept { E.keeps entries.new ≡ E.keeps entries.old }
    ensures tells { (es : List PlainEntry) → LanesTell old.now es numbers.old.lanes.items
        → find_ticket ticket es ≡ find_ticket ticket (E.entries_of entries.old old.now.index)
        → LanesTell old.now
        (kept_or_gone ticket (then_at old.now new.now ticket (E.entries_of entries.old old.now.index)) es)
        numbers.new.lanes.items }
    ensures keeps { KeepsButLanes numbers.old numbers.new }
    ensures cursors { cursors_of numbers.new.lanes.items ≡ cursors_of numbers.old.lanes.items }
    ensures marks { marks_of numbers.new.lanes.items ≡ marks_of numbers.old.lanes.items }
{
    match ends_at(old, new, entries, ticket) {
        Some(ends) => entries.set_ends(old.index(), ticket, ends.home, ends.link),
        None => let_go(old, entries, numbers, ticket),
    }
}

/// Gives all entries of a realm that stay the numbers that their ends have under the new settings, and takes all
/// others out. Takes no memory.
fn carry_each<A: Allocator + Copy, E: Entries<A>>(
    old: &RealmSettings<'_>,
    new: &RealmSettings<'_>,
    entries: &mut E,
    numbers: &mut RealmNumbers<A>,
)
    requires each { AllByRecursion (IsEntry old.now numbers.old.ticket) (E.entries_of entries.old old.now.index) }
    requires count { length numbers.old.lanes.items ≡ link_count old.now }
    requires tells { LanesTell old.now (E.entries_of entries.old old.now.index) numbers.old.lanes.items }
    ensures entries { RealmBecomes old.now.index
        (filter_map (entry_then old.now new.now) (E.entries_of entries.old old.now.index))
        (E.entries_of entries.old) (E.entries_of entries.new) }
    ensures kept { E.keeps entries.new ≡ E.keeps entries.old }
    ensures order { IsInOrder (E.entries_of entries.old old.now.index) }
    ensures tells { LanesTell old.now (staying old.now new.now (E.entries_of entries.old old.now.index))
        numbers.new.lanes.items }
    ensures keeps { KeepsButLanes numbers.old numbers.new }
    ensures cursors { cursors_of numbers.new.lanes.items ≡ cursors_of numbers.old.lanes.items }
    ensures marks { marks_of numbers.new.lanes.items ≡ marks_of numbers.old.lanes.items }
{
    let realm = old.index();
    let _count = entries.len(realm);
    let mut last = None;
    while let Some(due) = entries.next_after(realm, last) {
        carry_one(old, new, entries, numbers, due.ticket);
        last = Some(due);
    }
}

/// Finds the answered entry that makes way next, where there are more entries than so many.
fn next_to_go<A: Allocator, E: Entries<A>>(entries: &E, realm: u16, most: u16) -> Option<u64>
    ensures some { IfSome result (λ ticket. (first_done (E.entries_of entries.now realm) ≡ Some ticket)
        × (most < length (E.entries_of entries.now realm))) }
    ensures none { IfNone result ((first_done (E.entries_of entries.now realm) ≡ None)
        ⊎ (length (E.entries_of entries.now realm) ≤ most)) }
    ensures list { IsEntryList (E.entries_of entries.now realm) }
{
    if entries.len(realm) <= usize::from(most) {
        return None;
    }
    entries.first_done(realm, None)
}

/// Takes out the entry of a ticket.
fn take_out<A: Allocator, E: Entries<A>>(entries: &mut E, realm: u16, ticket: u64)
    ensures entries { RealmBecomes realm (without ticket (E.entries_of entries.old realm))
        (E.entries_of entries.old) (E.entries_of entries.new) }
    ensures kept { E.keeps entries.new ≡ E.keeps entries.old }
{
    let _gone = entries.remove(realm, ticket);
}

/// Takes answered entries out, in order of ticket, until there are so many at most.
fn make_way<A: Allocator, E: Entries<A>>(entries: &mut E, realm: u16, most: u16)
    ensures entries { RealmBecomes realm
        (without_done (length (E.entries_of entries.old realm) - most) (E.entries_of entries.old realm))
        (E.entries_of entries.old) (E.entries_of entries.new) }
    ensures kept { E.keeps entries.new ≡ E.keeps entries.old }
{
    while let Some(ticket) = next_to_go(entries, realm, most) {
        take_out(entries, realm, ticket);
    }
}

/// Returns whether fewer may be pending than before.
fn keeps_fewer(old: &RealmSettings<'_>, new: &RealmSettings<'_>) -> bool
    ensures fewer { result ≡ true → new.now.realm.max_pending < old.now.realm.max_pending }
    ensures as_many { result ≡ false → old.now.realm.max_pending ≤ new.now.realm.max_pending }
{
    new.max_pending() < old.max_pending()
}

/// Drops answered entries, where fewer may be pending than before.
fn keep_few<A: Allocator, E: Entries<A>>(
    old: &RealmSettings<'_>,
    new: &RealmSettings<'_>,
    entries: &mut E,
)
    ensures entries { RealmBecomes old.now.index
        (few_enough old.now new.now (E.entries_of entries.old old.now.index))
        (E.entries_of entries.old) (E.entries_of entries.new) }
    ensures kept { E.keeps entries.new ≡ E.keeps entries.old }
{
    if keeps_fewer(old, new) {
        make_way(entries, old.index(), new.max_pending());
    }
}

/// Keeps the entries of a realm that stay, in the lanes that they had. Takes no memory.
pub(crate) fn carry_entries<A: Allocator + Copy, E: Entries<A>>(
    old: &RealmSettings<'_>,
    new: &RealmSettings<'_>,
    entries: &mut E,
    numbers: &mut RealmNumbers<A>,
)
    requires each { AllByRecursion (IsEntry old.now numbers.old.ticket) (E.entries_of entries.old old.now.index) }
    requires count { length numbers.old.lanes.items ≡ link_count old.now }
    requires tells { LanesTell old.now (E.entries_of entries.old old.now.index) numbers.old.lanes.items }
    ensures entries { RealmBecomes old.now.index
        (entries_then old.now new.now (E.entries_of entries.old old.now.index))
        (E.entries_of entries.old) (E.entries_of entries.new) }
    ensures kept { E.keeps entries.new ≡ E.keeps entries.old }
    ensures order { IsInOrder (E.entries_of entries.old old.now.index) }
    ensures tells { LanesTell old.now (staying old.now new.now (E.entries_of entries.old old.now.index))
        numbers.new.lanes.items }
    ensures keeps { KeepsButLanes numbers.old numbers.new }
    ensures cursors { cursors_of numbers.new.lanes.items ≡ cursors_of numbers.old.lanes.items }
    ensures marks { marks_of numbers.new.lanes.items ≡ marks_of numbers.old.lanes.items }
{
    carry_each(old, new, entries, numbers);
    keep_few(old, new, entries);
}
