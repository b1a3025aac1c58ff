//! The counts of one caller's calls, and what it has seen of the shards' histories.

ghost use Rattle.std.specs.Prelude.{◌≡◌, ◌<◌, ◌-◌, ◌^◌, [], length, vec_len, IfOk, IfErr};
ghost use Rattle.roam_history.specs.Fronts.{AreOfShards, entries_of};
ghost use Rattle.roam_history.specs.Seats.{after_call, after_letting_go, front_of, having_seen, no_tallies, no_times, noted, once_more};
ghost use Rattle.roam_history.specs.Seats.{tally_of, times_of};

use crate::front::Front;
use crate::opened::Opened;
use crate::tally::Tally;
use roam_wire::NoMemory;
use std::alloc::Allocator;
use std::marker::Model;

/// Seat: what one caller counts of its recorded calls, for each shard, how often it let go of the stored steps, and
/// what it has seen of that shard's one history. Contracts see these and the entries that it has seen, by shard.
pub struct Seat<A: Allocator, N: Opened> {
    tallies: Vec<Tally, A>,
    /// The number of times that it cleared the stored steps, by shard.
    times: Vec<u64, A>,
    fronts: Vec<Front<N>, A>,
}

// By hand, so that a proof sees one call wherever it ends, and not each of its parts.
impl<A: Allocator, N: Opened> Drop for Seat<A, N> {
    fn drop(self) {
        let Self {
            tallies,
            times,
            fronts,
        } = self;
        drop(tallies);
        drop(times);
        drop(fronts);
    }
}

impl<A: Allocator, N: Opened> Model for Seat<A, N> {
    ghost use Rattle.std.specs.Prelude.{◌≡◌, length};
    ghost use Rattle.roam_history.specs.Fronts.{AreOfShards, entries_of};
    ghost use Rattle.roam_history.specs.Seats.{SeatView};

    ghost Value = { SeatView };

    ghost view = { λ s.
        record { tallies = s.tallies.items; times = s.times.items; fronts = entries_of s.fronts.items } };

    ghost invariant = { λ s. (length s.tallies.items ≡ N.opening.config.shards)
        × (length s.times.items ≡ N.opening.config.shards)
        × (length s.fronts.items ≡ N.opening.config.shards)
        × AreOfShards s.fronts.items };
}

impl<A: Allocator, N: Opened> Seat<A, N> {
    /// For tests. Returns what is counted, by shard.
    pub fn tallies(&self) -> &[Tally]
        ensures tallies { result.now ≡ self.now.tallies }
        ensures shards { length result.now ≡ N.opening.config.shards }
    {
        self.tallies.as_slice()
    }

    /// Returns what it has seen of a shard's history.
    pub fn front(&self, shard: u16) -> &Front<N>
        requires { shard < N.opening.config.shards }
        ensures shard { result.now.shard ≡ shard }
        ensures there { shard < length self.now.fronts }
        ensures entries { result.now.entries ≡ front_of self.now shard }
    {
        &self.fronts[usize::from(shard)]
    }

    /// Returns how many calls of a shard it counted.
    pub(crate) fn calls(&self, shard: usize) -> u64
        requires { shard < N.opening.config.shards }
        ensures { result ≡ (tally_of self.now.tallies shard).calls }
    {
        self.tallies[shard].calls
    }

    /// Returns how often it let go of a shard's stored steps.
    pub(crate) fn times(&self, shard: usize) -> u64
        requires { shard < N.opening.config.shards }
        ensures { result ≡ times_of self.now.times shard }
    {
        self.times[shard]
    }

    /// Returns whether it is marked at a shard.
    pub(crate) fn is_marked(&self, shard: usize) -> bool
        requires { shard < N.opening.config.shards }
        ensures { result ≡ (tally_of self.now.tallies shard).is_marked }
    {
        self.tallies[shard].is_marked
    }

    /// Has then seen this front of a shard's history. Takes no memory.
    pub fn learn(&mut self, front: Front<N>)
        requires { front.shard < N.opening.config.shards }
        ensures { self.new ≡ having_seen self.old front.shard front.entries }
    {
        let shard = usize::from(front.shard());
        self.fronts[shard] = front;
    }

    /// Counts a call that was recorded under this number of a shard, and has then seen this front of its
    /// history. Takes no memory.
    pub fn note(&mut self, number: u64, front: Front<N>)
        requires shard { front.shard < N.opening.config.shards }
        requires number { number < 2 ^ 64 - 1 }
        ensures { self.new ≡ after_call self.old front.shard number front.entries }
    {
        count(&mut self.tallies, front.shard(), number);
        self.learn(front);
    }

    /// Counts that it let go of a shard's stored steps, and has then seen this front of its history. Takes no memory.
    pub fn note_let_go(&mut self, front: Front<N>)
        requires { front.shard < N.opening.config.shards }
        ensures { self.new ≡ after_letting_go self.old front.shard front.entries }
    {
        count_time(&mut self.times, front.shard());
        self.learn(front);
    }
}

/// Counts a call that was recorded under this number of a shard.
fn count<A: Allocator>(tallies: &mut Vec<Tally, A>, shard: u16, number: u64)
    requires shard { shard < length tallies.old.items }
    requires number { number < 2 ^ 64 - 1 }
    ensures items { tallies.new.items ≡ noted tallies.old.items shard number }
    ensures len { vec_len tallies.new ≡ vec_len tallies.old }
{
    let tally = &mut tallies[usize::from(shard)];
    tally.is_marked = tally.is_marked || tally.calls == u64::MAX || number < tally.next;
    tally.calls = tally.calls.saturating_add(1);
    tally.next = number + 1;
}

/// Counts that a shard's stored steps were let go of once more.
fn count_time<A: Allocator>(times: &mut Vec<u64, A>, shard: u16)
    requires { shard < length times.old.items }
    ensures items { times.new.items ≡ once_more times.old.items shard }
    ensures len { vec_len times.new ≡ vec_len times.old }
{
    let time = &mut times[usize::from(shard)];
    *time = time.saturating_add(1);
}

/// Tallies that count no call, for so many shards.
pub fn no_tallies<A: Allocator>(alloc: A, shards: usize) -> Result<Vec<Tally, A>, NoMemory>
    ensures { IfOk result (λ v. v.items ≡ no_tallies shards) }
{
    let no_calls = Tally {
        calls: 0,
        next: 0,
        is_marked: false,
    };
    let tallies = vec![in alloc; no_calls; shards]?;
    Ok(tallies)
}

/// Makes counts that say that no steps were dropped, for so many shards.
pub fn no_times<A: Allocator>(alloc: A, shards: usize) -> Result<Vec<u64, A>, NoMemory>
    ensures { IfOk result (λ v. v.items ≡ no_times shards) }
{
    let times = vec![in alloc; 0u64; shards]?;
    Ok(times)
}

/// Makes equal fronts.
fn copies<A: Allocator, N: Opened>(
    alloc: A,
    fronts: &[Front<N>],
) -> Result<Vec<Front<N>, A>, NoMemory>
    ensures { IfOk result (λ v. v.items ≡ fronts.now) }
{
    let mut copies = Vec::with_capacity(alloc, fronts.len())?;
    for front in fronts {
        copies.push(front.again())?;
    }
    Ok(copies)
}

impl<A: Allocator + Copy, N: Opened> Seat<A, N> {
    /// Makes a seat that counted no call, dropped nothing, and has seen these fronts, one for each shard.
    pub fn new(alloc: A, fronts: Vec<Front<N>, A>) -> Result<Seat<A, N>, NoMemory>
        requires count { vec_len fronts ≡ N.opening.config.shards }
        requires shards { AreOfShards fronts.items }
        ensures { IfOk result (λ s. s ≡ record {
          tallies = no_tallies N.opening.config.shards;
          times = no_times N.opening.config.shards;
          fronts = entries_of fronts.items;
        }) }
    {
        let tallies = no_tallies(alloc, fronts.len())?;
        let times = no_times(alloc, fronts.len())?;
        Ok(Seat {
            tallies,
            times,
            fronts,
        })
    }

    /// Makes a seat that counted no call, dropped nothing, and has seen these fronts, one for each shard, over counts
    /// of nothing. Takes no memory.
    pub fn over(tallies: Vec<Tally, A>, times: Vec<u64, A>, fronts: Vec<Front<N>, A>) -> Seat<A, N>
        requires tallies { tallies.items ≡ no_tallies N.opening.config.shards }
        requires times { times.items ≡ no_times N.opening.config.shards }
        requires count { vec_len fronts ≡ N.opening.config.shards }
        requires shards { AreOfShards fronts.items }
        ensures { result ≡ record {
          tallies = no_tallies N.opening.config.shards;
          times = no_times N.opening.config.shards;
          fronts = entries_of fronts.items;
        } }
    {
        Seat {
            tallies,
            times,
            fronts,
        }
    }
}

/// Returns the seat as it was, and another one that has seen as much, counted no call and dropped nothing. Where
/// memory is wanted the seat comes back as it was.
pub fn split<A: Allocator + Copy, N: Opened>(
    seat: Seat<A, N>,
) -> Result<(Seat<A, N>, Seat<A, N>), (Seat<A, N>, NoMemory)>
    ensures same { IfOk result (λ seats. seats.0 ≡ seat) }
    ensures new { IfOk result (λ seats. seats.1.tallies ≡ no_tallies N.opening.config.shards) }
    ensures times { IfOk result (λ seats. seats.1.times ≡ no_times N.opening.config.shards) }
    ensures seen { IfOk result (λ seats. seats.1.fronts ≡ seat.fronts) }
    ensures err { IfErr result (λ e. e.0 ≡ seat) }
{
    let alloc = *seat.tallies.allocator();
    let Ok(fronts) = copies(alloc, seat.fronts.as_slice()) else {
        return Err((seat, NoMemory));
    };
    match Seat::new(alloc, fronts) {
        Ok(new) => Ok((seat, new)),
        Err(refused) => Err((seat, refused)),
    }
}
