//! Sessions by the octets of their parts: what a file of ledgers has of them.

ghost use Rattle.std.specs.Prelude.{◌≡◌, ◌≤◌, IfNone, IfSome, OnErr, OnOk, length, option_map, true};
ghost use Rattle.roam_sessions.specs.Kept.{kept_session, shown_session};
ghost use Rattle.roam_sessions.specs.Parts.{AreShort, IsShortIfAny, shown_parts};
ghost use Rattle.roam_sessions.specs.Sessions.{has_session, with_session};
ghost use Rattle.roam_sessions.specs.Short.{shown_short};
ghost use Rattle.roam_sessions.specs.ShownSessions.{shown_octets};

use crate::asked::{NasRef, SessionRef};
use crate::ledger::Sessions;
use crate::packed_session::OpenSession;
use crate::short::Short;
use roam_wire::NoMemory;
use std::alloc::Allocator;

/// A session: its peer, the names of its access server, where these are kept, and its Acct-Session-Id, where their
/// octets lie.
#[derive(Clone, Copy)]
pub struct SessionParts<'a> {
    pub peer: u16,
    pub address: Option<&'a [u8]>,
    pub identifier: Option<&'a [u8]>,
    pub ipv6: Option<&'a [u8]>,
    pub id: &'a [u8],
}

/// Returns octets, where an attribute has room for them.
fn short(octets: &[u8]) -> Option<Short<'_>>
    ensures some { IfSome result (λ s. shown_short s ≡ octets.entry.now) }
    ensures none { IfNone result (length octets.now ≤ 253 → ⊥) }
{
    if octets.len() <= 253 {
        Some(Short { octets })
    } else {
        None
    }
}

/// Returns octets, where there are any. Returns `None` where there are some and an attribute has no room for them.
fn short_if_any(octets: Option<&[u8]>) -> Option<Option<Short<'_>>>
    ensures some { IfSome result (λ s. option_map shown_short s ≡ option_map shown_octets octets.entry) }
    ensures none { IfNone result (IsShortIfAny (option_map shown_octets octets.entry) → ⊥) }
{
    match octets {
        None => Some(None),
        Some(octets) => match short(octets) {
            Some(short) => Some(Some(short)),
            None => None,
        },
    }
}

/// Makes a session of these parts, if an attribute has room for each of them.
fn session_of(parts: SessionParts<'_>) -> Option<SessionRef<'_>>
    ensures some { IfSome result (λ s. shown_session s ≡ shown_parts parts.entry) }
    ensures none { IfNone result (AreShort (shown_parts parts.entry) → ⊥) }
{
    let address = short_if_any(parts.address)?;
    let identifier = short_if_any(parts.identifier)?;
    let ipv6 = short_if_any(parts.ipv6)?;
    let id = short(parts.id)?;
    Some(SessionRef {
        peer: parts.peer,
        nas: NasRef {
            address,
            identifier,
            ipv6,
        },
        id,
    })
}

/// Returns octets where they lie, where there are any.
fn lent<'a>(part: Option<Short<'a>>) -> Option<&'a [u8]>
    ensures { option_map shown_octets result ≡ option_map shown_short part.entry }
{
    match part {
        None => None,
        Some(part) => Some(part.octets),
    }
}

impl<A: Allocator> OpenSession<A> {
    /// Returns the session's parts, where they lie.
    pub(crate) fn parts(&self) -> SessionParts<'_>
        ensures { shown_parts result ≡ kept_session self.now }
    {
        let session = self.lend();
        SessionParts {
            peer: session.peer,
            address: lent(session.nas.address),
            identifier: lent(session.nas.identifier),
            ipv6: lent(session.nas.ipv6),
            id: session.id.octets,
        }
    }
}

impl<A: Allocator + Copy> Sessions<A> {
    /// Opens a session of these parts, as an accounting request does, if an attribute has room for each of them.
    /// `NoMemory` comes where a growth was refused, and the ledger is then as it was.
    pub fn restore(&mut self, parts: SessionParts<'_>) -> Result<(), NoMemory>
        ensures ok { OnOk result (AreShort (shown_parts parts.entry)
            → self.new.sessions ≡ with_session self.old.limit (shown_parts parts.entry) self.old.sessions) }
        ensures others { OnOk result ((AreShort (shown_parts parts.entry) → ⊥)
            → self.new.sessions ≡ self.old.sessions) }
        ensures err { OnErr result (self.new ≡ self.old) }
        ensures limit { self.new.limit ≡ self.old.limit }
    {
        let Some(session) = session_of(parts) else {
            return Ok(());
        };
        let prepared = self.prepare_opening(session)?;
        self.apply_prepared(prepared);
        Ok(())
    }

    /// Adds the tickets of the sessions that are open, which rise in the order in which these were opened.
    pub fn add_tickets(&self, tickets: &mut Vec<u64, A>) -> Result<(), NoMemory> {
        self.table.add_tickets(tickets)
    }

    /// Returns the session of a ticket, where that is still open. Takes no memory.
    pub fn parts_of(&self, ticket: u64) -> Option<SessionParts<'_>>
        ensures { IfSome result (λ parts. has_session (shown_parts parts) self.now.sessions ≡ true) }
    {
        self.table.parts_of(ticket)
    }
}
