//! Changing the entries of a realm, whatever keeps them, without a copy of their buffers.

ghost use Rattle.std.specs.Prelude.{◌≡◌, ◌<◌, ◌≤◌, ◌+◌, None, OnOk, OnErr};
ghost use Rattle.roam_pending.specs.Conversations.{kept_state};
ghost use Rattle.roam_pending.specs.EntryList.{IsNew};
ghost use Rattle.roam_pending.specs.Realms.{Puts, PutsChanged, sent_again, with_standing};
ghost use Rattle.roam_pending.specs.Shown.{shown, shown_standing};

use crate::entries::Entries;
use crate::entry::{Entry, Standing};
use roam_wire::NoMemory;
use std::alloc::Allocator;

/// Puts a new entry of a realm in order of ticket, where there is room. Takes no memory.
pub fn insert_entry<A: Allocator, E: Entries<A>>(entries: &mut E, realm: u16, entry: Entry<A>)
    requires new { IsNew (shown entry) (E.entries_of entries.old realm) }
    requires room { 0 < E.room_for entries.old realm }
    requires no_round { kept_state (shown_standing entry.standing) ≡ None }
    ensures entries { Puts realm (shown entry) (E.entries_of entries.old)
        (E.entries_of entries.new) }
    ensures room { E.room_for entries.old realm ≤ E.room_for entries.new realm + 1 }
    ensures keeps { E.keeps entries.new ≡ E.keeps entries.old }
{
    let mut given = Some(entry);
    entries.insert_from(realm, &mut given);
}

/// Changes how the entry of a ticket stands, as when the request goes to another target: what is new keeps no
/// State. Takes no memory.
pub fn set_standing<A: Allocator + Copy, E: Entries<A>>(
    alloc: A,
    entries: &mut E,
    realm: u16,
    ticket: u64,
    standing: Standing<A>,
)
    requires no_round { kept_state (shown_standing standing) ≡ None }
    ensures entries { PutsChanged (with_standing (shown_standing standing)) realm ticket
        (E.entries_of entries.old) (E.entries_of entries.new) }
    ensures room { E.room_for entries.old realm ≤ E.room_for entries.new realm }
    ensures keeps { E.keeps entries.new ≡ E.keeps entries.old }
{
    let mut standing = standing;
    entries.exchange_standing(realm, ticket, &mut standing);
}

/// Changes how the entry of a ticket stands, as when a reply came, which is held. `NoMemory` comes where a
/// growth was refused; all is then as it was.
pub fn hold_standing<A: Allocator + Copy, E: Entries<A>>(
    alloc: A,
    entries: &mut E,
    realm: u16,
    ticket: u64,
    standing: Standing<A>,
) -> Result<(), NoMemory>
    ensures entries { OnOk result (PutsChanged (with_standing (shown_standing standing)) realm ticket
        (E.entries_of entries.old) (E.entries_of entries.new)) }
    ensures err { OnErr result (E.entries_of entries.new ≡ E.entries_of entries.old) }
    ensures room { E.room_for entries.old realm ≤ E.room_for entries.new realm }
    ensures keeps { E.keeps entries.new ≡ E.keeps entries.old }
{
    let mut standing = standing;
    entries.hold(realm, ticket, &mut standing)
}

/// Notes that the forwarded packet of a ticket's entry was sent once more: one send fewer is left,
/// and the entry waits until the deadline. A done entry stays as it is. Takes no memory.
pub fn send_again<A: Allocator + Copy, E: Entries<A>>(
    alloc: A,
    entries: &mut E,
    realm: u16,
    ticket: u64,
    deadline: u64,
)
    ensures entries { PutsChanged (sent_again deadline) realm ticket
        (E.entries_of entries.old) (E.entries_of entries.new) }
    ensures room { E.room_for entries.old realm ≤ E.room_for entries.new realm }
    ensures keeps { E.keeps entries.new ≡ E.keeps entries.old }
{
    entries.send_again(realm, ticket, deadline);
}
