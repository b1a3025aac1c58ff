//! The ledger of a realm that goes on under another part of a configuration.

ghost use Rattle.std.specs.Prelude.{◌≡◌, filter, if◌then◌else◌};
ghost use Rattle.roam_reload.specs.Kept.{keeps_sessions, of_peer, same_sessions};
ghost use Rattle.roam_sessions.specs.Sessions.{without_peer};
ghost use Rattle.roam_migrate.specs.Carrying.{AreChanged};
ghost use Rattle.roam_migrate.specs.Reload.{sessions_then};

use roam_realm::{RealmNumbers, RealmSettings};
use roam_reload::peer_keeps_sessions;
use roam_sessions::Sessions;
use std::alloc::Allocator;

/// Returns whether sessions are told by their access servers in both, or in neither.
fn tells_alike(old: &RealmSettings<'_>, new: &RealmSettings<'_>) -> bool
    ensures { result ≡ same_sessions old.now.realm new.now.realm }
{
    if old.own_sessions() {
        new.own_sessions()
    } else {
        !new.own_sessions()
    }
}

/// Closes the sessions of a peer, if it went.
fn close_if_gone<A: Allocator + Copy>(
    old: &RealmSettings<'_>,
    new: &RealmSettings<'_>,
    peer: u16,
    sessions: &mut Sessions<A>,
)
    ensures sessions { sessions.new.sessions ≡ (if of_peer keeps_sessions old.now.peers new.now.peers peer
        then sessions.old.sessions else without_peer peer sessions.old.sessions) }
    ensures limit { sessions.new.limit ≡ sessions.old.limit }
{
    if !peer_keeps_sessions(old.peers(), new.peers(), peer) {
        sessions.close_peer(peer);
    }
}

/// Closes the sessions of peers that went.
fn close_gone<A: Allocator + Copy>(
    old: &RealmSettings<'_>,
    new: &RealmSettings<'_>,
    changed: &[u16],
    sessions: &mut Sessions<A>,
)
    requires { AreChanged old.now.peers new.now.peers changed.now }
    ensures sessions { sessions.new.sessions
        ≡ filter (λ s. of_peer keeps_sessions old.now.peers new.now.peers s.peer) sessions.old.sessions }
    ensures limit { sessions.new.limit ≡ sessions.old.limit }
{
    for peer in changed {
        close_if_gone(old, new, *peer, sessions);
    }
}

/// Keeps the sessions that stay: those of peers that didn't go, the newest where fewer are kept, and none where
/// sessions are told otherwise now. Takes no memory.
pub(crate) fn carry_sessions<A: Allocator + Copy>(
    old: &RealmSettings<'_>,
    new: &RealmSettings<'_>,
    changed: &[u16],
    numbers: &mut RealmNumbers<A>,
)
    requires changed { AreChanged old.now.peers new.now.peers changed.now }
    requires ledger { numbers.old.sessions.limit ≡ old.now.realm.max_sessions }
    ensures sessions { numbers.new.sessions.sessions ≡ sessions_then old.now new.now numbers.old.sessions.sessions }
    ensures limit { numbers.new.sessions.limit ≡ new.now.realm.max_sessions }
    ensures lanes { numbers.new.lanes.items ≡ numbers.old.lanes.items }
    ensures ticket { numbers.new.ticket ≡ numbers.old.ticket }
    ensures stream_position { numbers.new.stream_position ≡ numbers.old.stream_position }
    ensures rests { numbers.new.rests.items ≡ numbers.old.rests.items }
{
    if tells_alike(old, new) {
        close_gone(old, new, changed, &mut numbers.sessions);
        numbers.sessions.limit_to(new.max_sessions());
    } else {
        numbers
            .sessions
            .begin_anew(new.max_sessions(), new.hash_key());
    }
}
