//! The sessions that an Accounting-On or -Off ended at once (RFC 2866, section 5.1).

ghost use Rattle.std.specs.Prelude.{◌≡◌, None, option_map};
ghost use Rattle.roam_sessions.specs.Ended.{ended_asked, is_ended};
ghost use Rattle.roam_sessions.specs.Kept.{shown_asked, shown_nas, shown_session};
ghost use Rattle.roam_sessions.specs.Private.Masks.{has_names};
ghost use Rattle.roam_sessions.specs.Sessions.{agrees, agrees_in};
ghost use Rattle.roam_sessions.specs.Short.{shown_short};
ghost use Rattle.roam_sessions.specs.ShownSessions.{arrayed_nas};

use crate::asked::{AskedRef, NasRef, SessionRef, no_nas};
use crate::session::NasArray;
use crate::short::Short;

/// An Accounting-On or -Off: the sessions of its sender that agree with its names and whose tickets come before this
/// one are open no more.
#[derive(Clone, Copy)]
pub(crate) struct Ended {
    pub(crate) peer: u16,
    pub(crate) nas: NasArray,
    pub(crate) before: u64,
}

/// Returns whether a name is the one that is asked for, if one is.
fn agrees_in(asked: Option<Short<'_>>, own: Option<Short<'_>>) -> bool
    ensures { result ≡ agrees_in (option_map shown_short asked.entry) (option_map shown_short own.entry) }
{
    let Some(asked) = asked else {
        return true;
    };
    let Some(own) = own else {
        return false;
    };
    asked.octets == own.octets
}

/// Returns whether an access server of a peer has the names that are asked for.
fn has_names(asked: AskedRef<'_>, peer: u16, nas: NasRef<'_>) -> bool
    ensures { result ≡ has_names (shown_asked asked.entry) peer (shown_nas nas.entry) }
{
    asked.peer == peer
        && agrees_in(asked.nas.address, nas.address)
        && agrees_in(asked.nas.identifier, nas.identifier)
        && agrees_in(asked.nas.ipv6, nas.ipv6)
}

/// Returns whether a session agrees with what is asked.
pub(crate) fn agrees(asked: AskedRef<'_>, session: SessionRef<'_>) -> bool
    ensures { result ≡ agrees (shown_asked asked.entry) (shown_session session.entry) }
{
    has_names(asked, session.peer, session.nas) && agrees_in(asked.id, Some(session.id))
}

impl Ended {
    /// Returns one that ends no session.
    pub(crate) fn none() -> Ended
        ensures { result.before ≡ 0 }
    {
        Ended {
            peer: 0,
            nas: NasArray::copy_of(no_nas()),
            before: 0,
        }
    }

    /// Returns the end of all sessions that agree with what is asked, which names no id, and that have a ticket before
    /// this one.
    pub(crate) fn of(asked: AskedRef<'_>, before: u64) -> Ended
        ensures asked { (shown_asked asked.entry).id ≡ None → ended_asked result ≡ shown_asked asked.entry }
        ensures before { result.before ≡ before }
    {
        Ended {
            peer: asked.peer,
            nas: NasArray::copy_of(asked.nas),
            before,
        }
    }

    /// Returns what it asked for.
    pub(crate) fn asked(&self) -> AskedRef<'_>
        ensures { shown_asked result ≡ ended_asked self.now }
    {
        AskedRef {
            peer: self.peer,
            nas: self.nas.lend(),
            id: None,
        }
    }

    /// Returns whether it ended the session of a ticket.
    pub(crate) fn ends(&self, ticket: u64, session: SessionRef<'_>) -> bool
        ensures { result ≡ is_ended self.now ticket (shown_session session.entry) }
    {
        ticket < self.before && has_names(self.asked(), session.peer, session.nas)
    }

    /// Returns whether all sessions that it ended agree with what is asked, which names no id.
    pub(crate) fn is_within(&self, asked: AskedRef<'_>) -> bool
        ensures { result ≡ has_names (shown_asked asked.entry) self.now.peer (arrayed_nas self.now.nas) }
    {
        has_names(asked, self.peer, self.nas.lend())
    }
}
