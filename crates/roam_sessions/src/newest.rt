//! The sessions of a ledger that were opened last.

ghost use Rattle.std.specs.Prelude.{◌≡◌, ℕ, ◌-◌, ◌<◌, ◌≤◌, None, drop, length, nat_lt, slice_index};
ghost use Rattle.std.specs.Prelude.{EachIndex, IfNone, IfSome, IsSome};
ghost use Rattle.std.specs.List.{count_by};
ghost use Rattle.roam_wire.specs.Numbered.{listed};
ghost use Rattle.roam_sessions.specs.Stands.{IsSound, session_at, session_count, sessions_of};

use crate::chain::Chain;
use std::alloc::Allocator;

/// Returns how many tickets come before a ticket.
fn count_below(tickets: &[u64], ticket: u64) -> usize
    ensures { result ≡ count_by (λ t. nat_lt t ticket) tickets.now }
{
    tickets.iter().filter(|other| **other < ticket).count()
}

/// Finds the last of these tickets that comes before a ticket, and its place.
fn last_below(tickets: &[u64], end: u64) -> Option<(usize, u64)>
    ensures within { IfSome result (λ x. x.0 < length tickets.now) }
    ensures there { IfSome result (λ x. slice_index tickets.now x.0 ≡ x.1) }
    ensures below { IfSome result (λ x. x.1 < end) }
    ensures none { IfNone result (EachIndex tickets.now (λ k. end ≤ slice_index tickets.now k)) }
{
    let mut index = tickets.len();
    while index > 0 {
        index -= 1;
        let ticket = tickets[index];
        if ticket < end {
            return Some((index, ticket));
        }
    }
    None
}

/// Finds the last of the `first` front ones of these tickets that comes before a ticket, and its place. Where none of
/// those does, it is the last of all.
fn one_below(tickets: &[u64], first: usize, end: u64) -> Option<(usize, u64)>
    ensures within { IfSome result (λ x. x.0 < length tickets.now) }
    ensures there { IfSome result (λ x. slice_index tickets.now x.0 ≡ x.1) }
    ensures below { IfSome result (λ x. x.1 < end) }
    ensures none { IfNone result (EachIndex tickets.now (λ k. end ≤ slice_index tickets.now k)) }
{
    let size = first.min(tickets.len());
    let (front, back) = tickets.split_at(size);
    match last_below(front, end) {
        Some(found) => Some(found),
        None => {
            match last_below(back, end) {
                Some((place, ticket)) => Some((size + place, ticket)),
                None => None,
            }
        }
    }
}

impl<A: Allocator + Copy> Chain<A> {
    /// Returns how many sessions were opened before a ticket.
    fn count_before(&self, ticket: u64) -> usize
        ensures { result ≡ length (listed (session_at self.now) 0 ticket) }
    {
        count_below(self.by_ticket.keys().as_slice(), ticket)
    }

    /// Finds a ticket before which just so many sessions were opened. Looks at each session some 64 times, however
    /// many tickets are no session's any more.
    fn ticket_after(&self, count: usize) -> u64
        requires sound { IsSound self.now }
        requires few { count ≤ session_count self.now }
        ensures count { length (listed (session_at self.now) 0 result) ≡ count }
        ensures given { result ≤ self.now.next }
    {
        let mut least = 0u64;
        let mut most = self.next;
        while least < most {
            let middle = least + (most - least) / 2;
            if self.count_before(middle) < count {
                least = middle + 1;
            } else {
                most = middle;
            }
        }
        least
    }

    /// Finds a session that was opened before a ticket, and its place in the table: the last such one of the `first`
    /// front places, and where there is none, the last of all.
    fn one_before(&self, end: u64, first: usize) -> Option<(usize, u64)>
        ensures below { IfSome result (λ x. x.1 < end) }
        ensures there { IfSome result (λ x. IsSome (session_at self.now x.1)) }
        ensures none { IfNone result ((t : ℕ) → t < end → session_at self.now t ≡ None) }
    {
        one_below(self.by_ticket.keys().as_slice(), first, end)
    }

    /// Takes out the oldest sessions, where there are more than may be: one pass from the end, as the last one takes
    /// the place of each that goes.
    pub(crate) fn keep_newest(&mut self, limit: usize)
        requires { IsSound self.old }
        ensures sound { IsSound self.new }
        ensures sessions { sessions_of self.new
            ≡ drop (length (sessions_of self.old) - limit) (sessions_of self.old) }
        ensures count { session_count self.new ≤ limit }
        ensures room { self.new.spare ≡ self.old.spare }
    {
        let count = self.len();
        if count <= limit {
            return;
        }
        let end = self.ticket_after(count - limit);
        let mut first = count;
        while let Some((place, ticket)) = self.one_before(end, first) {
            self.remove(ticket);
            first = place;
        }
    }
}
