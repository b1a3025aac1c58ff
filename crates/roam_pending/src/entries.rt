//! The interface of a realm's entries, as its rules need it, whatever keeps them.

ghost use Rattle.std.specs.Prelude.{◌≡◌, ◌<◌, ◌≤◌, ◌+◌, ℕ, Bool, List, None, length, OnErr};
ghost use Rattle.std.specs.Prelude.{OnOk, IsOk, IfSome, IsSomeAnd, IsTrue};
ghost use Rattle.roam_pending.specs.PlainEntry.{PlainEntry};
ghost use Rattle.roam_pending.specs.EntryList.{IsEntryList, IsNew, find_client, find_ticket, first_done};
ghost use Rattle.roam_pending.specs.EntryList.{besides, without};
ghost use Rattle.roam_pending.specs.Conversations.{kept_state, last_round};
ghost use Rattle.roam_pending.specs.DueOrder.{due_after};
ghost use Rattle.roam_pending.specs.ListLaws.{IsNextAfter};
ghost use Rattle.roam_pending.specs.Realms.{RealmBecomes, Puts, PutsChanged, sent_again, with_ends};
ghost use Rattle.roam_pending.specs.Realms.{with_standing};
ghost use Rattle.roam_pending.specs.Shown.{shown, shown_standing, seen, taken};

use crate::course::Course;
use crate::due::Due;
use crate::entry::{Entry, Standing};
use crate::key::Key;
use roam_conf::Link;
use roam_wire::NoMemory;
use std::alloc::Allocator;

/// Keeps the entries of some realms, each realm's in order of ticket.
///
/// A change names its realm and leaves every other realm's entries as they were. How an entry stands is
/// changed in its place, without a copy of its buffers.
///
/// What goes in stands behind a `&mut`, since the check can't yet state a trait's method that takes a
/// value with an allocator of the trait's by value. `insert_entry` and `set_standing` take it by value.
pub trait Entries<A: Allocator> {
    /// The word whether the entries of the realm of this index are kept here.
    ghost keeps: { Self → ℕ → Bool };

    /// The entries of each realm.
    ghost entries_of: { Self → ℕ → List PlainEntry };

    /// The number of further entries of a realm for which there is room without memory.
    ghost room_for: { Self → ℕ → ℕ };

    /// Returns how many entries the realm has.
    fn len(&self, realm: u16) -> usize
        ensures len { result ≡ length (entries_of self.now realm) }
        ensures list { IsEntryList (entries_of self.now realm) };

    /// Finds the entry of a ticket.
    fn find_ticket(&self, realm: u16, ticket: u64) -> Option<&Entry<A>>
        ensures found { seen result ≡ find_ticket ticket (entries_of self.now realm) }
        ensures list { IsEntryList (entries_of self.now realm) };

    /// Finds the entry of a key.
    fn find_client(&self, realm: u16, key: &Key) -> Option<&Entry<A>>
        ensures found { seen result ≡ find_client key.now (entries_of self.now realm) }
        ensures list { IsEntryList (entries_of self.now realm) };

    /// Finds the ticket of the done entry of least ticket, besides one that counts as gone.
    fn first_done(&self, realm: u16, except: Option<u64>) -> Option<u64>
        ensures { result ≡ first_done (besides except (entries_of self.now realm)) };

    /// Finds the entry that keeps a peer's round of a conversation, by its State: of several the last.
    fn find_round(&self, realm: u16, peer: u16, state: &[u8]) -> Option<&Entry<A>>
        ensures found { seen result ≡ last_round peer state.now (entries_of self.now realm) }
        ensures list { IsEntryList (entries_of self.now realm) };

    /// Finds the entry of least deadline and ticket among the realm's entries whose deadline is at most `now`. Where
    /// `last` is one of them, finds the next one after it.
    fn due_after(&self, realm: u16, now: u64, last: Option<Due>) -> Option<Due>
        ensures found { result ≡ due_after now last (entries_of self.now realm) }
        ensures list { IsEntryList (entries_of self.now realm) };

    /// Finds the first of all entries of the realm after the last one, in order of deadline and ticket, whatever the
    /// moment.
    fn next_after(&self, realm: u16, last: Option<Due>) -> Option<Due>
        ensures next { IsNextAfter last (entries_of self.now realm) result }
        ensures list { IsEntryList (entries_of self.now realm) };

    /// Makes room for one entry more of the realm. No entry changes. `NoMemory` comes where there was
    /// no room and a growth was refused; all is then as it was, but for room that was gained.
    fn reserve(&mut self, realm: u16) -> Result<(), NoMemory>
        requires { IsTrue (keeps self.old realm) }
        ensures ok { OnOk result (0 < room_for self.new realm) }
        ensures err { OnErr result ((r : ℕ) → room_for self.old r ≤ room_for self.new r) }
        ensures succeeds { 0 < room_for self.old realm → IsOk result }
        ensures entries { entries_of self.new ≡ entries_of self.old }
        ensures room { room_for self.old realm ≤ room_for self.new realm }
        ensures keeps { keeps self.new ≡ keeps self.old };

    /// Puts the entry that is handed over in order of ticket, where there is room. Takes no memory.
    /// (See `insert_entry`.)
    fn insert_from(&mut self, realm: u16, entry: &mut Option<Entry<A>>)
        requires new { IsSomeAnd entry.old (λ e. IsNew (shown e) (entries_of self.old realm)) }
        requires room { 0 < room_for self.old realm }
        requires no_round { IsSomeAnd entry.old (λ e. kept_state (shown_standing e.standing) ≡ None) }
        ensures entries { IfSome entry.old
            (λ e. Puts realm (shown e) (entries_of self.old) (entries_of self.new)) }
        ensures handed_over { entry.new ≡ None }
        ensures room { room_for self.old realm ≤ room_for self.new realm + 1 }
        ensures keeps { keeps self.new ≡ keeps self.old };

    /// Takes out the entry of a ticket for good. Takes no memory, and no room.
    fn remove(&mut self, realm: u16, ticket: u64) -> Option<Entry<A>>
        ensures found { taken result ≡ find_ticket ticket (entries_of self.old realm) }
        ensures entries { RealmBecomes realm (without ticket (entries_of self.old realm))
            (entries_of self.old) (entries_of self.new) }
        ensures room { room_for self.old realm ≤ room_for self.new realm }
        ensures keeps { keeps self.new ≡ keeps self.old };

    /// Exchanges how the entry of a ticket stands with another standing, where the realm has that entry;
    /// else nothing changes. The new one keeps no State. Takes no memory, and no room. (See `set_standing`.)
    fn exchange_standing(&mut self, realm: u16, ticket: u64, standing: &mut Standing<A>)
        requires no_round { kept_state (shown_standing standing.old) ≡ None }
        ensures exchanged { IfSome (find_ticket ticket (entries_of self.old realm))
            (λ e. shown_standing standing.new ≡ e.standing) }
        ensures entries { PutsChanged (with_standing (shown_standing standing.old)) realm ticket
            (entries_of self.old) (entries_of self.new) }
        ensures room { room_for self.old realm ≤ room_for self.new realm }
        ensures keeps { keeps self.new ≡ keeps self.old };

    /// Exchanges how the entry of a ticket stands with another standing, which may keep a State, where the
    /// realm has that entry; else nothing changes. Takes no room. `NoMemory` comes where a growth was
    /// refused; all is then as it was. (See `hold_standing`.)
    fn hold(&mut self, realm: u16, ticket: u64, standing: &mut Standing<A>) -> Result<(), NoMemory>
        ensures exchanged { OnOk result (IfSome (find_ticket ticket (entries_of self.old realm))
            (λ e. shown_standing standing.new ≡ e.standing)) }
        ensures entries { OnOk result (PutsChanged (with_standing (shown_standing standing.old)) realm ticket
            (entries_of self.old) (entries_of self.new)) }
        ensures err { OnErr result (entries_of self.new ≡ entries_of self.old) }
        ensures given_back { OnErr result (standing.new ≡ standing.old) }
        ensures room { room_for self.old realm ≤ room_for self.new realm }
        ensures keeps { keeps self.new ≡ keeps self.old };

    /// Notes that the forwarded packet of a ticket's entry was sent once more: one send fewer is left,
    /// and the entry waits until the deadline. A done entry stays as it is. Takes no memory, and no room.
    fn send_again(&mut self, realm: u16, ticket: u64, deadline: u64)
        ensures entries { PutsChanged (sent_again deadline) realm ticket
            (entries_of self.old) (entries_of self.new) }
        ensures room { room_for self.old realm ≤ room_for self.new realm }
        ensures keeps { keeps self.new ≡ keeps self.old };

    /// Gives the entry of a ticket other numbers of its ends: of the home server that sent it, where one did, and of
    /// the link where it waits, or from which its held reply came, if it keeps one. Where none is given it waits
    /// where it does, and a held reply keeps no link. Takes no memory, and no room.
    fn set_ends(&mut self, realm: u16, ticket: u64, home: Option<u8>, link: Option<Link>)
        ensures entries { PutsChanged (with_ends home link) realm ticket (entries_of self.old) (entries_of self.new) }
        ensures room { room_for self.old realm ≤ room_for self.new realm }
        ensures keeps { keeps self.new ≡ keeps self.old };

    /// Gives the entry of a ticket this course, where the realm has that entry. No rule reads a course, so nothing
    /// changes that a contract sees. Takes no memory, and no room.
    fn set_course(&mut self, realm: u16, ticket: u64, course: Course)
        ensures entries { entries_of self.new ≡ entries_of self.old }
        ensures room { room_for self.old realm ≤ room_for self.new realm }
        ensures keeps { keeps self.new ≡ keeps self.old };
}
