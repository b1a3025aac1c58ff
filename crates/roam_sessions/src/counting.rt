//! The number of open sessions that agree with what is asked.

ghost use Rattle.std.specs.Prelude.{◌≡◌, filter, is_some, length, true};
ghost use Rattle.roam_sessions.specs.Ended.{IsTable, agreeing_at, open_count, open_sessions, where_open};
ghost use Rattle.roam_sessions.specs.Kept.{shown_asked};
ghost use Rattle.roam_sessions.specs.Facets.{id_buckets};
ghost use Rattle.roam_sessions.specs.Private.Buckets.{bucket_text};
ghost use Rattle.roam_sessions.specs.Private.Groups.{in_group};
ghost use Rattle.roam_sessions.specs.Private.Tickets.{all_listed};
ghost use Rattle.roam_sessions.specs.Sessions.{agrees};
ghost use Rattle.roam_sessions.specs.Stands.{session_at};

use crate::asked::AskedRef;
use crate::bucket_ends::{count_of, oldest_of};
use crate::ended::agrees;
use crate::links::{Facet, newer_in};
use crate::row::Row;
use crate::table::Table;
use std::alloc::Allocator;

impl<A: Allocator + Copy> Table<A> {
    /// Returns 1 where the session of a ticket is open and agrees with what is asked, if a ticket is given, else 0.
    fn agreeing_of(&self, asked: AskedRef<'_>, ticket: Option<u64>) -> usize
        ensures { result ≡ open_count (agreeing_at (shown_asked asked.entry) self.now) ticket }
    {
        let Some(ticket) = ticket else {
            return 0;
        };
        let Some(session) = self.open_session(ticket) else {
            return 0;
        };
        if agrees(asked, session) { 1 } else { 0 }
    }

    /// Returns how many tickets of a bucket by the peer and the id are those of open sessions that agree with what is
    /// asked.
    fn count_agreeing(&self, asked: AskedRef<'_>, bucket: u32) -> usize
        ensures { IsTable self.now → result ≡ length (all_listed (in_group
            (where_open (agreeing_at (shown_asked asked.entry) self.now)
            (id_buckets self.now.chain.of_peer.buckets (session_at self.now.chain)))
            (bucket_text bucket))) }
    {
        let mut count = 0usize;
        let mut at = oldest_of(&self.chain.of_peer.by_id, bucket);
        for i in 0..count_of(&self.chain.of_peer.by_id, bucket) {
            count = count.saturating_add(self.agreeing_of(asked, at));
            at = newer_in(&self.chain.by_ticket, Facet::Id, at);
        }
        count
    }

    /// Returns how many open sessions agree with what is asked, which names an id. It looks at all sessions in the
    /// bucket of the peer and the id.
    pub(crate) fn count(&self, asked: AskedRef<'_>) -> usize
        ensures { IsTable self.now → is_some (shown_asked asked.entry).id ≡ true
            → result ≡ length (filter (agrees (shown_asked asked.entry)) (open_sessions self.now)) }
    {
        let row = Row::of(asked.without_names());
        self.count_agreeing(asked, self.chain.of_peer.buckets.of(row.as_slice()))
    }
}
