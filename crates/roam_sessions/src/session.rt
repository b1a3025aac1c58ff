//! A change of the ledger that owns what it needs.

ghost use Rattle.std.specs.Prelude.{◌≡◌, option_map};
ghost use Rattle.roam_sessions.specs.Short.{short_octets, shown_short};
ghost use Rattle.roam_sessions.specs.Kept.{shown_nas, shown_session};
ghost use Rattle.roam_sessions.specs.ShownSessions.{arrayed_nas, arrayed_session};

use crate::asked::{AskedRef, NasRef, SessionRef};
use crate::open_session::NewSession;
use crate::short::{Short, ShortArray};
use std::alloc::Allocator;
use std::marker::Model;

/// The names of an access server, kept without memory.
#[derive(Clone, Copy)]
pub(crate) struct NasArray {
    pub(crate) address: Option<ShortArray>,
    pub(crate) identifier: Option<ShortArray>,
    pub(crate) ipv6: Option<ShortArray>,
}

/// A session, kept without memory.
#[derive(Clone, Copy)]
pub(crate) struct SessionArray {
    pub(crate) peer: u16,
    pub(crate) nas: NasArray,
    pub(crate) id: ShortArray,
}

/// Copies octets, where there are any.
fn array_of(part: Option<Short<'_>>) -> Option<ShortArray>
    ensures { option_map short_octets result ≡ option_map shown_short part.entry }
{
    match part {
        None => None,
        Some(part) => Some(ShortArray::copy_of(part)),
    }
}

/// Returns octets where they lie, where there are any.
fn lent(part: &Option<ShortArray>) -> Option<Short<'_>>
    ensures { option_map shown_short result ≡ option_map short_octets part.now }
{
    match part {
        None => None,
        Some(part) => Some(part.lend()),
    }
}

impl NasArray {
    /// Makes a copy of names.
    pub(crate) fn copy_of(nas: NasRef<'_>) -> NasArray
        ensures { arrayed_nas result ≡ shown_nas nas.entry }
    {
        NasArray {
            address: array_of(nas.address),
            identifier: array_of(nas.identifier),
            ipv6: array_of(nas.ipv6),
        }
    }

    /// Returns the names where they lie.
    pub(crate) fn lend(&self) -> NasRef<'_>
        ensures { shown_nas result ≡ arrayed_nas self.now }
    {
        NasRef {
            address: lent(&self.address),
            identifier: lent(&self.identifier),
            ipv6: lent(&self.ipv6),
        }
    }
}

impl SessionArray {
    /// Makes a copy of a session.
    pub(crate) fn copy_of(session: SessionRef<'_>) -> SessionArray
        ensures { arrayed_session result ≡ shown_session session.entry }
    {
        SessionArray {
            peer: session.peer,
            nas: NasArray::copy_of(session.nas),
            id: ShortArray::copy_of(session.id),
        }
    }

    /// Returns the session where it lies.
    pub(crate) fn lend(&self) -> SessionRef<'_>
        ensures { shown_session result ≡ arrayed_session self.now }
    {
        SessionRef {
            peer: self.peer,
            nas: self.nas.lend(),
            id: self.id.lend(),
        }
    }
}

/// A change of a session table, with all that it needs.
#[derive(Drop)]
pub(crate) enum Change<A: Allocator> {
    Opens(NewSession<A>),
    Closes(SessionArray),
    /// All sessions of a peer that agree with these names.
    ClosesAll(u16, NasArray),
    Nothing,
}

/// A change of a ledger for which all growth was made. It owns what it needs. Contracts see the
/// change.
#[derive(Drop)]
pub struct PreparedChange<A: Allocator> {
    pub(crate) change: Change<A>,
}

impl<A: Allocator> Model for PreparedChange<A> {
    ghost use Rattle.roam_sessions.specs.Sessions.{LedgerChange};
    ghost use Rattle.roam_sessions.specs.ShownSessions.{shown_change};

    ghost Value = { LedgerChange };

    ghost view = { λ p. shown_change p.change };
}
