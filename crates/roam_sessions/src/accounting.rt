//! The meaning of an Accounting-Request for sessions (RFC 2866, sections 5.1 and 5.5).

ghost use Rattle.std.specs.Prelude.{◌≡◌, option_and_then, option_map};
ghost use Rattle.roam_wire.specs.Attributes.{first_value};
ghost use Rattle.roam_sessions.specs.Sessions.{change_by_request, change_by_id, number_in};
ghost use Rattle.roam_sessions.specs.Short.{shown_short};
ghost use Rattle.roam_sessions.specs.Kept.{shown_nas};
ghost use Rattle.roam_sessions.specs.ShownSessions.{said_of};

use crate::asked::{NasRef, SessionRef, counted_nas};
use crate::short::Short;
use crate::short_copies::first_short;
use roam_wire::View;
use roam_wire::attribute_type::{ACCT_SESSION_ID, ACCT_STATUS_TYPE};

/// Values of Acct-Status-Type (RFC 2866, section 5.1).
pub const START: u32 = 1;

pub const STOP: u32 = 2;

pub const INTERIM_UPDATE: u32 = 3;

pub const ACCOUNTING_ON: u32 = 7;

pub const ACCOUNTING_OFF: u32 = 8;

/// The meaning of an Accounting-Request for its sender's sessions.
#[derive(Clone, Copy)]
pub(crate) enum Said<'a> {
    /// This session is open.
    Opens(SessionRef<'a>),
    /// This session is open no more.
    Closes(SessionRef<'a>),
    /// No session of a peer is open that agrees with these names.
    ClosesAll(u16, NasRef<'a>),
    Nothing,
}

/// Reads the number that four octets are, the high one first. Returns `None` for fewer or more octets.
fn number_in(value: &[u8]) -> Option<u32>
    ensures { result ≡ number_in value.now }
{
    let [a, b, c, d] = value else {
        return None;
    };
    Some(u32::from_be_bytes([*a, *b, *c, *d]))
}

/// Returns the status that a request states: the number of its first Acct-Status-Type.
fn status_of(request: &View<'_>) -> Option<u32>
    ensures { result
        ≡ option_and_then number_in (first_value ACCT_STATUS_TYPE request.now.attributes) }
{
    number_in(request.first(ACCT_STATUS_TYPE)?)
}

/// Returns what a status says of the session of an id, if there is one.
fn said_of_session<'a>(peer: u16, nas: NasRef<'a>, status: u32, id: Option<Short<'a>>) -> Said<'a>
    ensures { said_of result
        ≡ change_by_id peer (shown_nas nas.entry) status (option_map shown_short id.entry) }
{
    let Some(id) = id else {
        return Said::Nothing;
    };
    let session = SessionRef { peer, nas, id };
    match status {
        START | INTERIM_UPDATE => Said::Opens(session),
        STOP => Said::Closes(session),
        _ => Said::Nothing,
    }
}

/// Returns what an Accounting-Request of a peer says of its sessions, where names of access servers count or not. Its
/// first Acct-Status-Type, its first Acct-Session-Id and those names alone decide.
#[tactic(auto, unfolding(crate::specs::Sessions::change_by_request))]
pub(crate) fn said_by<'a>(own: bool, peer: u16, request: &View<'a>) -> Said<'a>
    ensures { said_of result ≡ change_by_request own peer request.now.attributes }
{
    let Some(status) = status_of(request) else {
        return Said::Nothing;
    };
    let nas = counted_nas(own, request);
    match status {
        ACCOUNTING_ON | ACCOUNTING_OFF => Said::ClosesAll(peer, nas),
        _ => said_of_session(peer, nas, status, first_short(request, ACCT_SESSION_ID)),
    }
}
