//! The ledger of a realm's open sessions.

ghost use Rattle.std.specs.Prelude.{◌≡◌, ◌<◌, ◌≤◌, ◌-◌, [], drop, IfOk, IsOk, None, OnOk, OnErr, filter, is_some, length, true};
ghost use Rattle.roam_sessions.specs.Sessions.{IsLedger, agrees, applied, change_by_request, changed, is_open};
ghost use Rattle.roam_sessions.specs.Sessions.{count_of_peer, has_session, with_session, without_agreeing};
ghost use Rattle.roam_sessions.specs.Sessions.{without_peer, without_session};
ghost use Rattle.roam_sessions.specs.Kept.{kept_session, shown_asked, shown_session};
ghost use Rattle.roam_sessions.specs.ShownSessions.{HasRoomFor, IsClosing};

use crate::accounting::{Said, said_by};
use crate::asked::{AskedRef, SessionRef, counted_nas, no_nas};
use crate::open_session::NewSession;
use crate::session::{Change, NasArray, PreparedChange, SessionArray};
use crate::short_copies::first_short;
use crate::table::Table;
use roam_crypto::HashKey;
use roam_wire::attribute_type::ACCT_SESSION_ID;
use roam_wire::{NoMemory, View};
use std::alloc::Allocator;
use std::marker::Model;

/// The ledger of a realm's open sessions (RFC 2866, section 5.5). Contracts see its limit, the
/// sessions with the oldest first, and for how many more there is room.
pub struct Sessions<A: Allocator> {
    alloc: A,
    limit: u32,
    /// It lies by itself, so that a ledger is small where it is moved.
    pub(crate) table: Box<Table<A>, A>,
}

impl<A: Allocator> Drop for Sessions<A> {
    fn drop(self) {
        let Self {
            alloc,
            limit: _,
            table,
        } = self;
        drop(table);
        drop(alloc);
    }
}

impl<A: Allocator> Model for Sessions<A> {
    ghost use Rattle.std.specs.Prelude.{◌≤◌};
    ghost use Rattle.roam_sessions.specs.ShownSessions.{Ledger};
    ghost use Rattle.roam_sessions.specs.Ended.{IsTable, open_sessions};
    ghost use Rattle.roam_sessions.specs.Stands.{session_count};

    ghost Value = { Ledger };

    ghost view = { λ l. record {
      limit = l.limit;
      sessions = open_sessions l.table.value;
      spare = l.table.value.chain.spare;
    } };

    ghost invariant = { λ l. IsTable l.table.value × (session_count l.table.value.chain ≤ l.limit) };
}

impl<A: Allocator + Copy> Sessions<A> {
    /// Makes a session table without sessions, which has at most so many from now on. Its answers don't depend on the
    /// key of its hashes. Errs with `NoMemory` where a growth was refused.
    pub fn new(alloc: A, limit: u32, key: HashKey) -> Result<Sessions<A>, NoMemory>
        ensures limit { IfOk result (λ ledger. ledger.limit ≡ limit) }
        ensures sessions { IfOk result (λ ledger. ledger.sessions ≡ []) }
    {
        match Box::new(alloc, Table::new(alloc, key, limit)) {
            Ok(table) => Ok(Sessions {
                alloc,
                limit,
                table,
            }),
            Err(_) => Err(NoMemory),
        }
    }

    /// Removes all sessions, and keeps at most so many from now on, whose hashes have this key. Takes no memory.
    pub fn begin_anew(&mut self, limit: u32, key: HashKey)
        ensures limit { self.new.limit ≡ limit }
        ensures sessions { self.new.sessions ≡ [] }
    {
        *self.table = Table::new(self.alloc, key, limit);
        self.limit = limit;
    }

    /// Returns how many sessions are open. Takes no memory.
    pub fn len(&self) -> usize
        ensures { result ≡ length self.now.sessions }
    {
        self.table.len()
    }

    /// Returns whether a session is open. Takes no memory.
    pub(crate) fn has(&self, session: SessionRef<'_>) -> bool
        ensures found { result ≡ has_session (shown_session session.entry) self.now.sessions }
        ensures ledger { IsLedger self.now.limit self.now.sessions }
    {
        self.table.find(session).is_some()
    }

    /// Returns whether a session is open that is to be opened. Takes no memory.
    fn holds(&self, new: &NewSession<A>) -> bool
        ensures { result ≡ has_session (kept_session new.now.session) self.now.sessions }
    {
        self.table.holds(new)
    }

    /// Returns how many sessions agree with what is asked, which names an id. Takes no memory.
    pub(crate) fn count(&self, asked: AskedRef<'_>) -> usize
        requires { is_some (shown_asked asked).id ≡ true }
        ensures { result ≡ length (filter (agrees (shown_asked asked.entry)) self.now.sessions) }
    {
        self.table.count(asked)
    }

    /// Makes all growth that the change by an Accounting-Request of a peer wants, where names of access servers
    /// count or not, and changes no session. Then [`Sessions::apply_prepared`] always answers. Memory is wanted
    /// only where the request opens a session that isn't there.
    pub fn prepare(
        &mut self,
        own: bool,
        peer: u16,
        request: &View<'_>,
    ) -> Result<PreparedChange<A>, NoMemory>
        ensures change { IfOk result (λ prepared.
            changed self.old.limit prepared self.old.sessions
            ≡ applied self.old.limit own peer request.now.attributes self.old.sessions) }
        ensures room { IfOk result (λ prepared. HasRoomFor prepared self.new) }
        ensures err { OnErr result (self.new ≡ self.old) }
        ensures idle { applied self.old.limit own peer request.now.attributes self.old.sessions
            ≡ self.old.sessions → IsOk result }
        ensures closing { IsClosing (change_by_request own peer request.now.attributes) → IsOk result }
        ensures limit { self.new.limit ≡ self.old.limit }
        ensures sessions { self.new.sessions ≡ self.old.sessions }
    {
        let change = match said_by(own, peer, request) {
            Said::Opens(session) => return self.prepare_opening(session),
            Said::Closes(session) => Change::Closes(SessionArray::copy_of(session)),
            Said::ClosesAll(peer, nas) => Change::ClosesAll(peer, NasArray::copy_of(nas)),
            Said::Nothing => Change::Nothing,
        };
        Ok(PreparedChange { change })
    }

    /// Makes all growth that the change for an open session wants, and changes no session. Takes no memory for a
    /// session that is there, or that can't be kept.
    pub(crate) fn prepare_opening(
        &mut self,
        session: SessionRef<'_>,
    ) -> Result<PreparedChange<A>, NoMemory>
        ensures change { IfOk result (λ prepared.
            changed self.old.limit prepared self.old.sessions
            ≡ with_session self.old.limit (shown_session session.entry) self.old.sessions) }
        ensures room { IfOk result (λ prepared. HasRoomFor prepared self.new) }
        ensures err { OnErr result (self.new ≡ self.old) }
        ensures idle { with_session self.old.limit (shown_session session.entry)
            self.old.sessions ≡ self.old.sessions → IsOk result }
        ensures limit { self.new.limit ≡ self.old.limit }
        ensures sessions { self.new.sessions ≡ self.old.sessions }
    {
        if self.has(session) || self.limit == 0 {
            return Ok(PreparedChange {
                change: Change::Nothing,
            });
        }
        let new = NewSession::copy_of(self.alloc, session)?;
        self.table.reserve()?;
        Ok(PreparedChange {
            change: Change::Opens(new),
        })
    }

    /// Makes a change that was prepared. Takes no memory.
    pub fn apply_prepared(&mut self, prepared: PreparedChange<A>)
        requires { HasRoomFor prepared self.old }
        ensures limit { self.new.limit ≡ self.old.limit }
        ensures sessions { self.new.sessions ≡ changed self.old.limit prepared self.old.sessions }
    {
        self.free_some();
        match prepared.change {
            Change::Opens(new) => self.open(new),
            Change::Closes(session) => self.close(session.lend()),
            Change::ClosesAll(peer, nas) => self.close_all(AskedRef {
                peer,
                nas: nas.lend(),
                id: None,
            }),
            Change::Nothing => {}
        }
    }

    /// For tests and callers that have the memory anyway; a realm's rules prepare a change before they carry it out.
    ///
    /// Changes the sessions as an Accounting-Request of a peer does once it was answered. Takes memory as
    /// [`Sessions::prepare`] does.
    pub fn apply(&mut self, own: bool, peer: u16, request: &View<'_>) -> Result<(), NoMemory>
        ensures ok { OnOk result (self.new.sessions
            ≡ applied self.old.limit own peer request.now.attributes self.old.sessions) }
        ensures err { OnErr result (self.new ≡ self.old) }
        ensures idle { applied self.old.limit own peer request.now.attributes self.old.sessions
            ≡ self.old.sessions → IsOk result }
        ensures closing { IsClosing (change_by_request own peer request.now.attributes) → IsOk result }
        ensures limit { self.new.limit ≡ self.old.limit }
    {
        let prepared = self.prepare(own, peer, request)?;
        self.apply_prepared(prepared);
        Ok(())
    }

    /// For tests. Returns whether the session is open that an Accounting-Request of a peer names, as
    /// [`Sessions::apply`] would open or close it. Takes no memory.
    pub fn is_open(&self, own: bool, peer: u16, request: &View<'_>) -> bool
        ensures { result ≡ is_open own peer request.now.attributes self.now.sessions }
    {
        match first_short(request, ACCT_SESSION_ID) {
            None => false,
            Some(id) => self.has(SessionRef {
                peer,
                nas: counted_nas(own, request),
                id,
            }),
        }
    }

    /// Frees some of the sessions that an Accounting-On ended, which aren't open.
    fn free_some(&mut self)
        ensures { self.new ≡ self.old }
    {
        self.table.free_some();
    }

    /// Adds a session where there is room, last: where there is then one more than may be, the oldest of the peer
    /// that has most goes.
    fn open(&mut self, new: NewSession<A>)
        requires { 0 < self.old.spare }
        ensures limit { self.new.limit ≡ self.old.limit }
        ensures sessions { self.new.sessions
            ≡ with_session self.old.limit (kept_session new.session) self.old.sessions }
    {
        if self.holds(&new) || self.limit == 0 {
            return;
        }
        self.table.open(new, self.limit as usize);
    }

    /// Takes a session out.
    fn close(&mut self, session: SessionRef<'_>)
        ensures limit { self.new.limit ≡ self.old.limit }
        ensures sessions { self.new.sessions
            ≡ without_session (shown_session session.entry) self.old.sessions }
    {
        if let Some(ticket) = self.table.find(session) {
            self.table.take(ticket);
        }
    }

    /// Takes all sessions out that agree with what is asked, which names no id.
    fn close_all(&mut self, asked: AskedRef<'_>)
        requires { (shown_asked asked).id ≡ None }
        ensures limit { self.new.limit ≡ self.old.limit }
        ensures sessions { self.new.sessions
            ≡ without_agreeing (shown_asked asked.entry) self.old.sessions }
    {
        self.table.end_agreeing(asked);
    }

    /// Takes all sessions of a peer out, as one that went. Takes no memory.
    pub fn close_peer(&mut self, peer: u16)
        ensures limit { self.new.limit ≡ self.old.limit }
        ensures sessions { self.new.sessions ≡ without_peer peer self.old.sessions }
    {
        self.close_all(AskedRef {
            peer,
            nas: no_nas(),
            id: None,
        });
    }

    /// Keeps so many sessions at most from now on: where there are more, the oldest go. Takes no memory.
    pub fn limit_to(&mut self, limit: u32)
        ensures limit { self.new.limit ≡ limit }
        ensures sessions { self.new.sessions ≡ drop (length self.old.sessions - limit) self.old.sessions }
        // So where the limit is no less, none goes.
        ensures few { length self.old.sessions ≤ self.old.limit }
    {
        self.table.keep_newest(limit as usize);
        self.limit = limit;
    }

    /// Returns how many sessions of a peer are open. Takes no memory.
    pub fn count_of(&self, peer: u16) -> usize
        ensures { result ≡ count_of_peer peer self.now.sessions }
    {
        self.table.count_of_peer(peer)
    }
}
