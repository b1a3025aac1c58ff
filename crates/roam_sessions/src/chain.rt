//! The sessions of a ledger in the order in which they were opened.

ghost use Rattle.std.specs.Prelude.{◌≡◌, ◌≢◌, ℕ, ◌+◌, ◌-◌, ◌<◌, ◌≤◌, [], ◌∷◌, ◌++◌, false};
ghost use Rattle.std.specs.Prelude.{None, Some, IsOk, IsSome, OnOk, OnErr, filter, is_some, length};
ghost use Rattle.std.specs.Prelude.{option_map};
ghost use Rattle.roam_sessions.specs.Private.Tickets.{IsOneOf, NoneBefore};
ghost use Rattle.roam_sessions.specs.Sessions.{agrees, has_most, within, without_first};
ghost use Rattle.roam_sessions.specs.Kept.{kept_session, shown_asked, shown_session};
ghost use Rattle.roam_sessions.specs.Parts.{shown_parts};
ghost use Rattle.roam_sessions.specs.Stands.{IsSound, session_at, session_count, sessions_of};
ghost use Rattle.indexmap.specs.IndexMap.{spare};
ghost use Rattle.roam_wire.specs.Numbered.{PutsAt};

use crate::asked::{AskedRef, SessionRef};
use crate::facets::Facets;
use crate::open_session::NewSession;
use crate::parts::SessionParts;
use crate::session::SessionArray;
use crate::session_map::SessionMap;
use indexmap::IndexMap;
use roam_crypto::HashKey;
use roam_wire::NoMemory;
use std::alloc::Allocator;

/// Sessions in the order in which they were opened. Each has a ticket, and these rise. They are found by all that they
/// are, by the names of their access servers, and by the id.
pub(crate) struct Chain<A: Allocator> {
    pub(crate) by_ticket: SessionMap<A>,
    pub(crate) of_peer: Facets<A>,
    /// The ticket of the session that is opened next.
    pub(crate) next: u64,
    /// The number of sessions for which more room was made.
    pub(crate) spare: usize,
}

impl<A: Allocator> Drop for Chain<A> {
    fn drop(self) {
        let Self {
            by_ticket,
            of_peer,
            next: _,
            spare: _,
        } = self;
        drop(by_ticket);
        drop(of_peer);
    }
}

impl<A: Allocator + Copy> Chain<A> {
    /// Makes a chain without sessions, for at most so many. Takes no memory.
    pub(crate) fn new(alloc: A, key: HashKey, limit: u32) -> Chain<A>
        ensures sound { IsSound result }
        ensures empty { sessions_of result ≡ [] }
    {
        Chain {
            by_ticket: IndexMap::new(alloc),
            of_peer: Facets::new(alloc, key, limit),
            next: 0,
            spare: 0,
        }
    }

    /// Returns how many sessions there are.
    pub(crate) fn len(&self) -> usize
        ensures { result ≡ session_count self.now }
    {
        self.by_ticket.len()
    }

    /// Makes room for one session more. No session changes. There is none once the tickets are used
    /// up, after 2^64 - 1 sessions, which isn't reached.
    pub(crate) fn reserve(&mut self) -> Result<(), NoMemory>
        requires { IsSound self.old }
        ensures sound { IsSound self.new }
        ensures ok { OnOk result (0 < self.new.spare) }
        ensures succeeds { 0 < self.old.spare → IsOk result }
        ensures err { OnErr result (self.new.spare ≡ self.old.spare) }
        ensures sessions { sessions_of self.new ≡ sessions_of self.old }
        ensures rows { session_at self.new ≡ session_at self.old }
        ensures next { self.new.next ≡ self.old.next }
        ensures count { session_count self.new ≡ session_count self.old }
    {
        if self.spare > 0 {
            return Ok(());
        }
        if self.next == u64::MAX {
            return Err(NoMemory);
        }
        self.by_ticket.reserve(1)?;
        self.of_peer.reserve()?;
        self.spare = 1;
        Ok(())
    }

    /// Puts a session last, where there is room. Takes no memory.
    pub(crate) fn append(&mut self, new: NewSession<A>)
        requires sound { IsSound self.old }
        requires room { 0 < self.old.spare }
        requires absent { (t : ℕ) → session_at self.old t ≢ Some (kept_session new.session) }
        ensures sound { IsSound self.new }
        ensures sessions { sessions_of self.new
            ≡ sessions_of self.old ++ kept_session new.session ∷ [] }
        ensures puts { PutsAt (session_at self.old) (session_at self.new) self.old.next
            (Some (kept_session new.session)) }
        ensures next { self.new.next ≡ self.old.next + 1 }
        ensures count { session_count self.new ≡ session_count self.old + 1 }
    {
        let ticket = self.next;
        self.of_peer.append(&mut self.by_ticket, ticket, new);
        self.next = ticket + 1;
        self.spare -= 1;
    }

    /// Takes the session of a ticket out.
    pub(crate) fn remove(&mut self, ticket: u64)
        requires sound { IsSound self.old }
        requires held { IsSome (session_at self.old ticket) }
        ensures sound { IsSound self.new }
        ensures sessions { PutsAt (session_at self.old) (session_at self.new) ticket None }
        ensures next { self.new.next ≡ self.old.next }
        ensures count { session_count self.new + 1 ≡ session_count self.old }
        ensures room { self.new.spare ≡ self.old.spare }
    {
        let session = SessionArray::copy_of(self.session(ticket).unwrap());
        self.of_peer
            .remove(&mut self.by_ticket, ticket, session.lend());
    }

    /// Takes the oldest session of the peer that has most out; of several that have most, the oldest of all theirs.
    pub(crate) fn remove_of_most(&mut self)
        requires { IsSound self.old }
        ensures sound { IsSound self.new }
        ensures sessions { sessions_of self.new
            ≡ without_first (has_most (sessions_of self.old)) (sessions_of self.old) }
        ensures count { session_count self.new ≡ session_count self.old - 1 }
        ensures room { self.new.spare ≡ self.old.spare }
    {
        if let Some(ticket) = self.of_peer.oldest_of_most() {
            self.remove(ticket);
        }
    }

    /// Takes out the oldest session of the peer that has most, where there is one more than may be.
    pub(crate) fn keep_within(&mut self, limit: usize)
        requires sound { IsSound self.old }
        requires few { session_count self.old ≤ limit + 1 }
        ensures sound { IsSound self.new }
        ensures sessions { sessions_of self.new ≡ within limit (sessions_of self.old) }
        ensures count { session_count self.new ≤ limit }
        ensures room { self.new.spare ≡ self.old.spare }
    {
        if self.len() > limit {
            self.remove_of_most();
        }
    }

    /// Finds the ticket of the oldest session that agrees with what is asked, which names no id. Looks at no other
    /// session.
    pub(crate) fn oldest(&self, asked: AskedRef<'_>) -> Option<u64>
        ensures agrees { IsSound self.now → (shown_asked asked.entry).id ≡ None
            → IsOneOf (agrees (shown_asked asked.entry)) (session_at self.now) result }
        ensures first { IsSound self.now → (shown_asked asked.entry).id ≡ None
            → NoneBefore (agrees (shown_asked asked.entry)) (session_at self.now) result }
    {
        self.of_peer.oldest(asked)
    }

    /// Returns how many sessions agree with what is asked, which names no id.
    pub(crate) fn count_of_peer(&self, asked: AskedRef<'_>) -> usize
        ensures { IsSound self.now → is_some (shown_asked asked.entry).id ≡ false
            → result ≡ length (filter (agrees (shown_asked asked.entry)) (sessions_of self.now)) }
    {
        self.of_peer.count(asked)
    }

    /// Adds the tickets of all sessions, in no order.
    pub(crate) fn add_tickets(&self, tickets: &mut Vec<u64, A>) -> Result<(), NoMemory> {
        match tickets.extend_from_slice(self.by_ticket.keys().as_slice()) {
            Ok(()) => Ok(()),
            Err(_) => Err(NoMemory),
        }
    }

    /// Returns the session of a ticket, where it lies.
    pub(crate) fn session(&self, ticket: u64) -> Option<SessionRef<'_>>
        ensures { option_map shown_session result ≡ session_at self.now ticket }
    {
        match self.by_ticket.get(&ticket) {
            Some(linked) => Some(linked.session.lend()),
            None => None,
        }
    }

    /// Returns the session of a ticket, where there is one.
    pub(crate) fn parts_of(&self, ticket: u64) -> Option<SessionParts<'_>>
        ensures { option_map shown_parts result ≡ session_at self.now ticket }
    {
        match self.by_ticket.get(&ticket) {
            Some(linked) => Some(linked.session.parts()),
            None => None,
        }
    }
}
