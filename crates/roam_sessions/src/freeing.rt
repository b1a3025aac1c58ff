//! The sessions that are ended at once, and freed later.

ghost use Rattle.std.specs.Prelude.{◌≡◌, ◌≢◌, ℕ, ◌+◌, ◌-◌, ◌<◌, ◌≤◌, ◌∷◌, ◌++◌, [], drop, false, true};
ghost use Rattle.std.specs.Prelude.{None, Some, length};
ghost use Rattle.roam_sessions.specs.Ended.{IsTable, is_ended, open_sessions};
ghost use Rattle.roam_sessions.specs.Kept.{kept_session, shown_asked};
ghost use Rattle.roam_sessions.specs.Sessions.{Session, agrees, has_session, within, without_agreeing};
ghost use Rattle.roam_sessions.specs.Stands.{session_at, session_count};

use crate::asked::AskedRef;
use crate::ended::Ended;
use crate::open_session::NewSession;
use crate::table::Table;
use std::alloc::Allocator;

impl<A: Allocator + Copy> Table<A> {
    /// Frees a session that was ended, where one is left.
    pub(crate) fn free_one(&mut self)
        requires { IsTable self.old }
        ensures sound { IsTable self.new }
        ensures sessions { open_sessions self.new ≡ open_sessions self.old }
        ensures left { self.new.left ≡ self.old.left - 1 }
        ensures rows { (t : ℕ) (s : Session) → session_at self.new.chain t ≡ Some s
            → session_at self.old.chain t ≡ Some s }
        ensures count { session_count self.new.chain ≤ session_count self.old.chain }
        ensures room { self.new.chain.spare ≡ self.old.chain.spare }
    {
        if self.left == 0 {
            return;
        }
        if let Some(ticket) = self.chain.oldest(self.ended.asked()) {
            self.take(ticket);
        }
    }

    /// Frees two sessions that were ended, where they are left: so those of an Accounting-On are gone before as many
    /// changes were made.
    pub(crate) fn free_some(&mut self)
        requires { IsTable self.old }
        ensures sound { IsTable self.new }
        ensures sessions { open_sessions self.new ≡ open_sessions self.old }
        ensures left { self.new.left ≡ self.old.left - 2 }
        ensures count { session_count self.new.chain ≤ session_count self.old.chain }
        ensures room { self.new.chain.spare ≡ self.old.chain.spare }
    {
        self.free_one();
        self.free_one();
    }

    /// Frees all sessions that were ended.
    fn free_all(&mut self)
        requires { IsTable self.old }
        ensures sound { IsTable self.new }
        ensures sessions { open_sessions self.new ≡ open_sessions self.old }
        ensures left { self.new.left ≡ 0 }
        ensures count { session_count self.new.chain ≤ session_count self.old.chain }
        ensures room { self.new.chain.spare ≡ self.old.chain.spare }
    {
        while self.left > 0 {
            self.free_one();
        }
    }

    /// Takes all sessions out one by one that agree with what is asked, which names no id.
    fn take_agreeing(&mut self, asked: AskedRef<'_>)
        requires sound { IsTable self.old }
        requires no_id { (shown_asked asked).id ≡ None }
        ensures sound { IsTable self.new }
        ensures sessions { open_sessions self.new
            ≡ without_agreeing (shown_asked asked.entry) (open_sessions self.old) }
        ensures count { session_count self.new.chain ≤ session_count self.old.chain }
        ensures room { self.new.chain.spare ≡ self.old.chain.spare }
    {
        while let Some(ticket) = self.chain.oldest(asked) {
            self.take(ticket);
        }
    }

    /// Ends all sessions at once that agree with what is asked, which names no id, where those that were ended before
    /// are among them.
    fn mark(&mut self, asked: AskedRef<'_>)
        requires sound { IsTable self.old }
        requires no_id { (shown_asked asked).id ≡ None }
        requires within { (t : ℕ) (s : Session) → session_at self.old.chain t ≡ Some s
            → is_ended self.old.ended t s ≡ true → agrees (shown_asked asked) s ≡ true }
        ensures sound { IsTable self.new }
        ensures sessions { open_sessions self.new
            ≡ without_agreeing (shown_asked asked.entry) (open_sessions self.old) }
        ensures count { session_count self.new.chain ≡ session_count self.old.chain }
        ensures room { self.new.chain.spare ≡ self.old.chain.spare }
    {
        self.left = self.chain.count_of_peer(asked);
        self.ended = Ended::of(asked, self.chain.next);
    }

    /// Returns whether no session that was ended is left, but for those that agree with what is asked, which names no
    /// id.
    fn may_mark(&self, asked: AskedRef<'_>) -> bool
        ensures { result ≡ true → IsTable self.now → (shown_asked asked.entry).id ≡ None
            → (t : ℕ) (s : Session) → session_at self.now.chain t ≡ Some s
            → is_ended self.now.ended t s ≡ true → agrees (shown_asked asked.entry) s ≡ true }
    {
        if self.left == 0 {
            return true;
        }
        self.ended.is_within(asked)
    }

    /// Frees all sessions that were ended, and then ends all at once that agree with what is asked, which names no id.
    fn mark_anew(&mut self, asked: AskedRef<'_>)
        requires sound { IsTable self.old }
        requires no_id { (shown_asked asked).id ≡ None }
        ensures sound { IsTable self.new }
        ensures sessions { open_sessions self.new
            ≡ without_agreeing (shown_asked asked.entry) (open_sessions self.old) }
        ensures count { session_count self.new.chain ≤ session_count self.old.chain }
        ensures room { self.new.chain.spare ≡ self.old.chain.spare }
    {
        self.free_all();
        self.mark(asked);
    }

    /// Ends all sessions that agree with what is asked, which names no id. Looks at none of them, unless others that
    /// were ended aren't freed yet.
    pub(crate) fn end_agreeing(&mut self, asked: AskedRef<'_>)
        requires sound { IsTable self.old }
        requires no_id { (shown_asked asked).id ≡ None }
        ensures sound { IsTable self.new }
        ensures sessions { open_sessions self.new
            ≡ without_agreeing (shown_asked asked.entry) (open_sessions self.old) }
        ensures count { session_count self.new.chain ≤ session_count self.old.chain }
        ensures room { self.new.chain.spare ≡ self.old.chain.spare }
    {
        if self.may_mark(asked) {
            self.mark(asked);
        } else if self.chain.count_of_peer(asked) <= self.left {
            self.take_agreeing(asked);
        } else {
            self.mark_anew(asked);
        }
    }

    /// Frees the session that is the one which is to be opened, where that one was ended.
    fn free_twin(&mut self, new: &NewSession<A>)
        requires sound { IsTable self.old }
        requires absent { has_session (kept_session new.now.session) (open_sessions self.old) ≡ false }
        ensures sound { IsTable self.new }
        ensures sessions { open_sessions self.new ≡ open_sessions self.old }
        ensures absent { (t : ℕ) → session_at self.new.chain t ≢ Some (kept_session new.now.session) }
        ensures count { session_count self.new.chain ≤ session_count self.old.chain }
        ensures room { self.new.chain.spare ≡ self.old.chain.spare }
    {
        if let Some(ticket) = self.chain.find_new(new) {
            self.take(ticket);
        }
    }

    /// Frees a session that was ended where no row is left under a limit, and one such session is left.
    fn make_way(&mut self, limit: usize)
        requires sound { IsTable self.old }
        requires few { session_count self.old.chain ≤ limit }
        ensures sound { IsTable self.new }
        ensures sessions { open_sessions self.new ≡ open_sessions self.old }
        ensures few { session_count self.new.chain ≤ limit }
        ensures full { session_count self.new.chain ≡ limit → self.new.left ≡ 0 }
        ensures rows { (t : ℕ) (s : Session) → session_at self.new.chain t ≡ Some s
            → session_at self.old.chain t ≡ Some s }
        ensures room { self.new.chain.spare ≡ self.old.chain.spare }
    {
        if self.chain.len() >= limit {
            self.free_one();
        }
    }

    /// Puts a session that has no row last, where there is room. Takes no memory.
    fn append(&mut self, new: NewSession<A>)
        requires sound { IsTable self.old }
        requires room { 0 < self.old.chain.spare }
        requires absent { (t : ℕ) → session_at self.old.chain t ≢ Some (kept_session new.session) }
        ensures sound { IsTable self.new }
        ensures sessions { open_sessions self.new
            ≡ open_sessions self.old ++ kept_session new.session ∷ [] }
        ensures count { session_count self.new.chain ≡ session_count self.old.chain + 1 }
        ensures left { self.new.left ≡ self.old.left }
    {
        self.chain.append(new);
    }

    /// Takes out the oldest session of the peer that has most, where there is one row more than sessions may be, and
    /// none that was ended.
    fn keep_within(&mut self, limit: usize)
        requires sound { IsTable self.old }
        requires few { session_count self.old.chain ≤ limit + 1 }
        requires full { session_count self.old.chain ≡ limit + 1 → self.old.left ≡ 0 }
        ensures sound { IsTable self.new }
        ensures sessions { open_sessions self.new ≡ within limit (open_sessions self.old) }
        ensures count { session_count self.new.chain ≤ limit }
    {
        if self.left > 0 {
            return;
        }
        self.ended = Ended::none();
        self.chain.keep_within(limit);
    }

    /// Opens a session that isn't open, last, where there is room: where there is then one more than may be, the oldest
    /// of the peer that has most goes.
    pub(crate) fn open(&mut self, new: NewSession<A>, limit: usize)
        requires sound { IsTable self.old }
        requires room { 0 < self.old.chain.spare }
        requires few { session_count self.old.chain ≤ limit }
        requires absent { has_session (kept_session new.session) (open_sessions self.old) ≡ false }
        ensures sound { IsTable self.new }
        ensures sessions { open_sessions self.new
            ≡ within limit (open_sessions self.old ++ kept_session new.session ∷ []) }
        ensures count { session_count self.new.chain ≤ limit }
    {
        self.free_twin(&new);
        self.make_way(limit);
        self.append(new);
        self.keep_within(limit);
    }

    /// Keeps so many open sessions at most: where there are more, the oldest go.
    pub(crate) fn keep_newest(&mut self, limit: usize)
        requires { IsTable self.old }
        ensures sound { IsTable self.new }
        ensures sessions { open_sessions self.new
            ≡ drop (length (open_sessions self.old) - limit) (open_sessions self.old) }
        ensures count { session_count self.new.chain ≤ limit }
        ensures room { self.new.chain.spare ≡ self.old.chain.spare }
    {
        self.free_all();
        self.ended = Ended::none();
        self.chain.keep_newest(limit);
    }
}
