//! In which key two tables of a realm differ.

ghost use Rattle.std.specs.Prelude.{◌≡◌, ◌↔◌, IfNone, IfSome, IsTrue};
ghost use Rattle.roam_conf.specs.Parts.{shown_realm};
ghost use Rattle.roam_reload.specs.Differences.{RealmsDiffer};
ghost use Rattle.roam_reload.specs.Reload.{realm_part};
ghost use Rattle.roam_reload.specs.SameLimits.{HaveSameLimits, HaveSameParts, HaveSamePolicy};

use crate::keys::RealmKey;
use roam_conf::Realm;

/// Returns the first key of a realm's times and limits in which two tables differ.
fn limit_difference(old: &Realm, new: &Realm) -> Option<RealmKey>
    ensures none { IfNone result (HaveSameLimits (shown_realm old.now) (shown_realm new.now)) }
    ensures some { IfSome result (RealmsDiffer (shown_realm old.now) (shown_realm new.now)) }
{
    if old.tries != new.tries {
        Some(RealmKey::Tries)
    } else if old.wait != new.wait {
        Some(RealmKey::Wait)
    } else if old.hold != new.hold {
        Some(RealmKey::Hold)
    } else if old.max_pending != new.max_pending {
        Some(RealmKey::MaxPending)
    } else if old.max_sessions != new.max_sessions {
        Some(RealmKey::MaxSessions)
    } else if old.rest != new.rest {
        Some(RealmKey::Rest)
    } else if old.rest_after != new.rest_after {
        Some(RealmKey::RestAfter)
    } else {
        None
    }
}

/// Returns the first key in which two tables differ of who may ask a realm, of what becomes of its accounting, of
/// what is taken out of its packets, and of the share of a name.
fn policy_difference(old: &Realm, new: &Realm) -> Option<RealmKey>
    ensures none { IfNone result (HaveSamePolicy (shown_realm old.now) (shown_realm new.now)) }
    ensures some { IfSome result (RealmsDiffer (shown_realm old.now) (shown_realm new.now)) }
{
    if old.peers != new.peers {
        Some(RealmKey::Peers)
    } else if old.loop_prevention != new.loop_prevention {
        Some(RealmKey::LoopPrevention)
    } else if old.accounting != new.accounting {
        Some(RealmKey::Accounting)
    } else if old.request_without != new.request_without {
        Some(RealmKey::RequestWithout)
    } else if old.reply_without != new.reply_without {
        Some(RealmKey::ReplyWithout)
    } else if old.share != new.share {
        Some(RealmKey::Share)
    } else {
        None
    }
}

/// Returns the first key in which two tables differ of what a realm's peers and home servers may do.
fn part_difference(old: &Realm, new: &Realm) -> Option<RealmKey>
    ensures none { IfNone result (HaveSameParts (shown_realm old.now) (shown_realm new.now)) }
    ensures some { IfSome result (RealmsDiffer (shown_realm old.now) (shown_realm new.now)) }
{
    if old.peer_share != new.peer_share {
        Some(RealmKey::PeerShare)
    } else if old.own_names != new.own_names {
        Some(RealmKey::OwnNames)
    } else if old.conversations != new.conversations {
        Some(RealmKey::Conversations)
    } else if old.by_user != new.by_user {
        Some(RealmKey::Balance)
    } else if old.own_sessions != new.own_sessions {
        Some(RealmKey::OwnSessions)
    } else if old.coa_clients != new.coa_clients {
        Some(RealmKey::CoaClients)
    } else {
        None
    }
}

/// Returns the first key in which two tables of a realm differ beside its sockets and servers.
fn other_difference(old: &Realm, new: &Realm) -> Option<RealmKey>
    ensures none { IfNone result (HaveSamePolicy (shown_realm old.now) (shown_realm new.now)
        × (HaveSameParts (shown_realm old.now) (shown_realm new.now)
        × HaveSameLimits (shown_realm old.now) (shown_realm new.now))) }
    ensures some { IfSome result (RealmsDiffer (shown_realm old.now) (shown_realm new.now)) }
{
    match policy_difference(old, new) {
        Some(key) => Some(key),
        None => match part_difference(old, new) {
            Some(key) => Some(key),
            None => limit_difference(old, new),
        },
    }
}

/// Returns the first key in which two tables of a realm differ, except `name` and `also`.
pub fn realm_difference(old: &Realm, new: &Realm) -> Option<RealmKey>
    ensures none { IfNone result (realm_part (shown_realm new.now) ≡ realm_part (shown_realm old.now)) }
    ensures some { IfSome result (RealmsDiffer (shown_realm old.now) (shown_realm new.now)) }
{
    if old.gone != new.gone {
        Some(RealmKey::Gone)
    } else if old.out != new.out {
        Some(RealmKey::Out)
    } else if old.reverse != new.reverse {
        Some(RealmKey::Reverse)
    } else if old.servers != new.servers {
        Some(RealmKey::Servers)
    } else {
        other_difference(old, new)
    }
}

/// Returns whether two tables of a realm differ in a key.
pub fn is_other_in(old: &Realm, new: &Realm, key: RealmKey) -> bool
    ensures { IsTrue result ↔ RealmsDiffer (shown_realm old.now) (shown_realm new.now) key }
{
    match key {
        RealmKey::Gone => old.gone != new.gone,
        RealmKey::Out => old.out != new.out,
        RealmKey::Reverse => old.reverse != new.reverse,
        RealmKey::Tries => old.tries != new.tries,
        RealmKey::Wait => old.wait != new.wait,
        RealmKey::Hold => old.hold != new.hold,
        RealmKey::MaxPending => old.max_pending != new.max_pending,
        RealmKey::MaxSessions => old.max_sessions != new.max_sessions,
        RealmKey::Rest => old.rest != new.rest,
        RealmKey::RestAfter => old.rest_after != new.rest_after,
        RealmKey::Servers => old.servers != new.servers,
        RealmKey::Peers => old.peers != new.peers,
        RealmKey::LoopPrevention => old.loop_prevention != new.loop_prevention,
        RealmKey::Accounting => old.accounting != new.accounting,
        RealmKey::RequestWithout => old.request_without != new.request_without,
        RealmKey::ReplyWithout => old.reply_without != new.reply_without,
        RealmKey::Share => old.share != new.share,
        RealmKey::PeerShare => old.peer_share != new.peer_share,
        RealmKey::OwnNames => old.own_names != new.own_names,
        RealmKey::Conversations => old.conversations != new.conversations,
        RealmKey::Balance => old.by_user != new.by_user,
        RealmKey::OwnSessions => old.own_sessions != new.own_sessions,
        RealmKey::CoaClients => old.coa_clients != new.coa_clients,
    }
}
