//! The losses of a realm by a change. Nothing changes by looking.

ghost use Rattle.std.specs.Prelude.{◌≡◌, ◌+◌, ◌<◌, ◌≤◌, ◌^◌, false, filter, is_some, length, map, not};
ghost use Rattle.std.specs.Option.{ForSome, option_map_or};
ghost use Rattle.roam_conf.specs.Parts.{shown_peer};
ghost use Rattle.roam_pending.specs.PlainEntry.{is_done};
ghost use Rattle.roam_pending.specs.Shown.{seen, shown};
ghost use Rattle.roam_realm.specs.Sound.{IsRequest, IsSound, state_of};
ghost use Rattle.roam_migrate.specs.Carrying.{AreChanged, shown_loss};
ghost use Rattle.roam_migrate.specs.Losses.{all_lost, count_held, losses};
ghost use Rattle.roam_migrate.specs.Private.Lost.{counted, held_and_goes, held_lost, is_of_gone, of_one_peer, one_if};
ghost use Rattle.roam_migrate.specs.Private.Lost.{sessions_lost, waits_and_goes};
ghost use Rattle.roam_migrate.specs.Reload.{entry_then};

use crate::ends::ends_then;
use crate::reload::is_untouched;
use roam_conf::Peer;
use roam_pending::{Entries, Entry, Standing};
use roam_realm::{RealmNumbers, RealmSettings};
use roam_reload::peer_keeps_sessions;
use roam_sessions::Sessions;
use std::alloc::Allocator;

/// The number of waiting requests, held replies and sessions that go.
#[derive(Clone, Copy, PartialEq, Eq)]
pub struct Loss {
    pub waiting: usize,
    pub held: usize,
    pub sessions: usize,
}

/// The number of waiting entries that go by their ends, and of answered ones.
#[derive(Clone, Copy)]
struct Going {
    waiting: usize,
    held: usize,
}

/// Adds one to a count, where it counts.
fn more(count: usize, counts: bool) -> usize
    requires { count + 1 < 2 ^ 64 }
    ensures { result ≡ count + one_if counts }
{
    if counts { count + 1 } else { count }
}

/// Returns whether an entry that is looked at was answered.
fn is_held<A: Allocator>(entry: Option<&Entry<A>>) -> bool
    ensures { result ≡ option_map_or is_done (seen entry.entry) false }
{
    match entry {
        None => false,
        Some(entry) => {
            match &entry.standing {
                Standing::Done(_) => true,
                Standing::Waiting(_) => false,
            }
        }
    }
}

/// Returns how many entries of a realm were answered.
fn held_in<A: Allocator, E: Entries<A>>(entries: &E, realm: u16) -> usize
    ensures { result ≡ count_held (E.entries_of entries.now realm) }
{
    let most = entries.len(realm);
    let mut held = 0usize;
    let mut last = None;
    while let Some(due) = entries.next_after(realm, last) {
        held = more(held, is_held(entries.find_ticket(realm, due.ticket)));
        last = Some(due);
    }
    held.min(most)
}

/// Returns whether an entry doesn't stay, by its ends.
fn goes<A: Allocator>(old: &RealmSettings<'_>, new: &RealmSettings<'_>, entry: &Entry<A>) -> bool
    requires { IsRequest old.now (shown entry.now).request }
    ensures { result ≡ not (is_some (entry_then old.now new.now (shown entry.now))) }
{
    ends_then(old, new, entry).is_none()
}

/// Returns whether an entry that is looked at goes and waited, and whether it goes and was answered.
fn goes_as<A: Allocator>(
    old: &RealmSettings<'_>,
    new: &RealmSettings<'_>,
    entry: Option<&Entry<A>>,
) -> (bool, bool)
    requires { ForSome (seen entry) (λ e. IsRequest old.now e.request) }
    ensures waiting { result.0 ≡ option_map_or (waits_and_goes old.now new.now) (seen entry.entry) false }
    ensures held { result.1 ≡ option_map_or (held_and_goes old.now new.now) (seen entry.entry) false }
{
    let held = is_held(entry);
    match entry {
        None => (false, false),
        Some(entry) => {
            let goes = goes(old, new, entry);
            (goes && !held, goes && held)
        }
    }
}

/// Returns how many entries go by their ends.
fn count_going<A: Allocator + Copy, E: Entries<A>>(
    old: &RealmSettings<'_>,
    new: &RealmSettings<'_>,
    entries: &E,
    numbers: &RealmNumbers<A>,
) -> Going
    requires { IsSound old.now (E.entries_of entries.now old.now.index) numbers.now }
    ensures waiting { result.waiting
        ≡ counted (waits_and_goes old.now new.now) (E.entries_of entries.now old.now.index) }
    ensures held { result.held
        ≡ counted (held_and_goes old.now new.now) (E.entries_of entries.now old.now.index) }
{
    let realm = old.index();
    let most = entries.len(realm);
    let mut waiting = 0usize;
    let mut held = 0usize;
    let mut last = None;
    while let Some(due) = entries.next_after(realm, last) {
        let goes = goes_as(old, new, entries.find_ticket(realm, due.ticket));
        waiting = more(waiting, goes.0);
        held = more(held, goes.1);
        last = Some(due);
    }
    Going {
        waiting: waiting.min(most),
        held: held.min(most),
    }
}

/// Returns how many held replies go, where so many entries go by their ends: others make way where fewer may be
/// pending.
fn held_lost<A: Allocator + Copy, E: Entries<A>>(
    old: &RealmSettings<'_>,
    new: &RealmSettings<'_>,
    entries: &E,
    going: Going,
) -> usize
    requires { going.held ≤ count_held (E.entries_of entries.now old.now.index) }
    ensures { result
        ≡ held_lost old.now new.now (E.entries_of entries.now old.now.index) going.waiting going.held }
{
    if new.max_pending() >= old.max_pending() {
        return going.held;
    }
    let all = held_in(entries, old.index());
    let left = entries
        .len(old.index())
        .saturating_sub(going.waiting)
        .saturating_sub(going.held);
    let over = left.saturating_sub(usize::from(new.max_pending()));
    going.held + over.min(all.saturating_sub(going.held))
}

/// Returns how many sessions go with a peer.
fn sessions_of<A: Allocator + Copy>(
    old: &[Peer],
    new: &[Peer],
    sessions: &Sessions<A>,
    peer: u16,
) -> usize
    ensures { result
        ≡ of_one_peer (map shown_peer old.now) (map shown_peer new.now) sessions.now.sessions peer }
{
    if peer_keeps_sessions(old, new, peer) {
        0
    } else {
        sessions.count_of(peer)
    }
}

/// Returns how many sessions go with their peers.
fn sessions_gone<A: Allocator + Copy>(
    old: &[Peer],
    new: &[Peer],
    changed: &[u16],
    sessions: &Sessions<A>,
) -> usize
    requires { AreChanged (map shown_peer old.now) (map shown_peer new.now) changed.now }
    ensures { result
        ≡ length (filter (is_of_gone (map shown_peer old.now) (map shown_peer new.now)) sessions.now.sessions) }
{
    let most = sessions.len();
    let mut gone = 0usize;
    for peer in changed {
        gone = gone.saturating_add(sessions_of(old, new, sessions, *peer));
    }
    gone.min(most)
}

/// Returns how many sessions go.
fn sessions_lost<A: Allocator + Copy>(
    old: &RealmSettings<'_>,
    new: &RealmSettings<'_>,
    changed: &[u16],
    sessions: &Sessions<A>,
) -> usize
    requires { AreChanged old.now.peers new.now.peers changed.now }
    ensures { result ≡ sessions_lost old.now new.now sessions.now.sessions }
{
    let all = sessions.len();
    if old.own_sessions() != new.own_sessions() {
        return all;
    }
    let gone = sessions_gone(old.peers(), new.peers(), changed, sessions);
    if new.max_sessions() >= old.max_sessions() {
        return gone;
    }
    let left = all.saturating_sub(gone);
    gone.saturating_add(left.saturating_sub(new.max_sessions() as usize))
}

/// Returns what goes of a realm that goes on under other settings. `changed` are the peers whose tables are other
/// ones.
pub fn losses_of<A: Allocator + Copy, E: Entries<A>>(
    old: &RealmSettings<'_>,
    new: &RealmSettings<'_>,
    changed: &[u16],
    entries: &E,
    numbers: &RealmNumbers<A>,
) -> Loss
    requires changed { AreChanged old.now.peers new.now.peers changed.now }
    requires sound { IsSound old.now (E.entries_of entries.now old.now.index) numbers.now }
    ensures { shown_loss result
        ≡ losses old.now new.now (state_of (E.entries_of entries.now old.now.index) numbers.now) }
{
    if is_untouched(old, new, changed) {
        return Loss {
            waiting: 0,
            held: 0,
            sessions: 0,
        };
    }
    let gone = count_going(old, new, entries, numbers);
    Loss {
        waiting: gone.waiting,
        held: held_lost(old, new, entries, gone),
        sessions: sessions_lost(old, new, changed, &numbers.sessions),
    }
}

/// Returns what goes of a realm that goes.
pub fn all_of<A: Allocator + Copy, E: Entries<A>>(
    old: &RealmSettings<'_>,
    entries: &E,
    numbers: &RealmNumbers<A>,
) -> Loss
    requires { IsSound old.now (E.entries_of entries.now old.now.index) numbers.now }
    ensures { shown_loss result ≡ all_lost (state_of (E.entries_of entries.now old.now.index) numbers.now) }
{
    let held = held_in(entries, old.index());
    Loss {
        waiting: entries.len(old.index()).saturating_sub(held),
        held,
        sessions: numbers.sessions.len(),
    }
}
