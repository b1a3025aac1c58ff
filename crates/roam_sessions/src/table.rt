//! The open sessions of a ledger, and those that an Accounting-On ended and that aren't freed yet.
//!
//! An Accounting-On or -Off marks the sessions that it ends, and each later change frees two of them. So it takes the
//! time of one request, however many it ends. One mark is kept. Where a second one comes before those of the first are
//! freed, and isn't for all of these too, the fewer are freed at once.
//!
//! There are never more rows than a ledger may have sessions: where all are taken, a session that was ended goes before
//! one is opened.

ghost use Rattle.std.specs.Prelude.{◌≡◌, ◌+◌, ◌-◌, ◌<◌, [], false};
ghost use Rattle.std.specs.Prelude.{None, Some, IsOk, IsSome, OnErr, OnOk, is_some, length, option_map};
ghost use Rattle.roam_sessions.specs.Ended.{IsTable, open_at, open_sessions, some_count};
ghost use Rattle.roam_sessions.specs.Kept.{kept_session, shown_session};
ghost use Rattle.roam_sessions.specs.Parts.{shown_parts};
ghost use Rattle.roam_sessions.specs.Private.Tickets.{IsTicketOf};
ghost use Rattle.roam_sessions.specs.Sessions.{count_of_peer, has_session};
ghost use Rattle.roam_sessions.specs.Stands.{session_at, session_count};
ghost use Rattle.roam_wire.specs.Numbered.{PutsAt};

use crate::asked::{AskedRef, SessionRef, no_nas};
use crate::chain::Chain;
use crate::ended::Ended;
use crate::open_session::NewSession;
use crate::parts::SessionParts;
use roam_crypto::HashKey;
use roam_wire::NoMemory;
use std::alloc::Allocator;

/// The rows of sessions. Those that the last Accounting-On ended aren't open, and so many of them aren't freed yet.
pub(crate) struct Table<A: Allocator> {
    pub(crate) chain: Chain<A>,
    pub(crate) ended: Ended,
    pub(crate) left: usize,
}

impl<A: Allocator> Drop for Table<A> {
    fn drop(self) {
        let Self {
            chain,
            ended: _,
            left: _,
        } = self;
        drop(chain);
    }
}

impl<A: Allocator + Copy> Table<A> {
    /// Returns a table of no sessions, for at most so many. Takes no memory.
    pub(crate) fn new(alloc: A, key: HashKey, limit: u32) -> Table<A>
        ensures sound { IsTable result }
        ensures empty { open_sessions result ≡ [] }
        ensures count { session_count result.chain ≡ 0 }
    {
        Table {
            chain: Chain::new(alloc, key, limit),
            ended: Ended::none(),
            left: 0,
        }
    }

    /// Returns how many sessions are open.
    pub(crate) fn len(&self) -> usize
        ensures { IsTable self.now → result ≡ length (open_sessions self.now) }
    {
        self.chain.len().saturating_sub(self.left)
    }

    /// Returns whether the session of a ticket is open.
    pub(crate) fn is_open(&self, ticket: u64) -> bool
        ensures { result ≡ is_some (open_at self.now ticket) }
    {
        match self.chain.session(ticket) {
            Some(session) => !self.ended.ends(ticket, session),
            None => false,
        }
    }

    /// Returns the session of a ticket, where that is open.
    pub(crate) fn open_session(&self, ticket: u64) -> Option<SessionRef<'_>>
        ensures { option_map shown_session result ≡ open_at self.now ticket }
    {
        if self.is_open(ticket) {
            self.chain.session(ticket)
        } else {
            None
        }
    }

    /// Returns the ticket of an open session.
    pub(crate) fn find(&self, session: SessionRef<'_>) -> Option<u64>
        ensures { IsTable self.now → IsTicketOf (shown_session session.entry) (open_at self.now) result }
    {
        let Some(ticket) = self.chain.find(session) else {
            return None;
        };
        if self.ended.ends(ticket, session) {
            return None;
        }
        Some(ticket)
    }

    /// Returns whether a session is open that is to be opened: by the row that it has.
    pub(crate) fn holds(&self, new: &NewSession<A>) -> bool
        ensures { IsTable self.now
            → result ≡ has_session (kept_session new.now.session) (open_sessions self.now) }
    {
        let Some(ticket) = self.chain.find_new(new) else {
            return false;
        };
        !self.ended.ends(ticket, new.session.lend())
    }

    /// Makes room for one session more. No session changes. There is none once the tickets are used up, after 2^64 - 1
    /// sessions, which isn't reached.
    pub(crate) fn reserve(&mut self) -> Result<(), NoMemory>
        requires { IsTable self.old }
        ensures sound { IsTable self.new }
        ensures ok { OnOk result (0 < self.new.chain.spare) }
        ensures succeeds { 0 < self.old.chain.spare → IsOk result }
        ensures err { OnErr result (self.new.chain.spare ≡ self.old.chain.spare) }
        ensures sessions { open_sessions self.new ≡ open_sessions self.old }
        ensures count { session_count self.new.chain ≡ session_count self.old.chain }
    {
        self.chain.reserve()
    }

    /// Returns how many sessions that aren't freed yet the row of a ticket is: 1 where its session isn't open, else 0.
    fn left_of(&self, ticket: u64) -> usize
        ensures { result ≡ 1 - some_count (open_at self.now ticket) }
    {
        if self.is_open(ticket) { 0 } else { 1 }
    }

    /// Takes the session of a ticket out, be it open or not.
    pub(crate) fn take(&mut self, ticket: u64)
        requires sound { IsTable self.old }
        requires held { IsSome (session_at self.old.chain ticket) }
        ensures sound { IsTable self.new }
        ensures sessions { PutsAt (open_at self.old) (open_at self.new) ticket None }
        ensures rows { PutsAt (session_at self.old.chain) (session_at self.new.chain) ticket None }
        ensures count { session_count self.new.chain + 1 ≡ session_count self.old.chain }
        ensures ended { open_at self.old ticket ≡ None → self.new.left + 1 ≡ self.old.left }
        ensures room { self.new.chain.spare ≡ self.old.chain.spare }
    {
        self.left = self.left.saturating_sub(self.left_of(ticket));
        self.chain.remove(ticket);
    }

    /// Returns how many sessions of a peer are open.
    pub(crate) fn count_of_peer(&self, peer: u16) -> usize
        ensures { IsTable self.now → result ≡ count_of_peer peer (open_sessions self.now) }
    {
        let rows = self.chain.count_of_peer(AskedRef {
            peer,
            nas: no_nas(),
            id: None,
        });
        if peer == self.ended.peer {
            rows.saturating_sub(self.left)
        } else {
            rows
        }
    }

    /// Adds the tickets of all sessions, in no order, and those of sessions that aren't freed yet.
    pub(crate) fn add_tickets(&self, tickets: &mut Vec<u64, A>) -> Result<(), NoMemory> {
        self.chain.add_tickets(tickets)
    }

    /// Returns the session of a ticket, where that is open.
    pub(crate) fn parts_of(&self, ticket: u64) -> Option<SessionParts<'_>>
        ensures { option_map shown_parts result ≡ open_at self.now ticket }
    {
        if self.is_open(ticket) {
            self.chain.parts_of(ticket)
        } else {
            None
        }
    }
}
