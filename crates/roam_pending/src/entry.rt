//! An entry: a request, its ticket, and how it stands.
//!
//! ```text
//!                    a reply comes in time
//! request --> Waiting -----------------------------> Done --> gone, at its deadline,
//!             |  ^  |                                 ^       or to make way for another
//!             |  |  |  no send and no target is left  |
//!             +--+  +---------------------------------+
//!          at its   |  a Disconnect- or CoA-Request is answered by a NAK
//!       deadline:   |
//!      sent again,  +--> gone: any other request, and one whose reply isn't held
//!   or to the next
//!           target
//! ```
//!
//! A waiting entry also goes where a request of its key with other octets takes its place.

ghost use Rattle.std.specs.Prelude.{◌≡◌};
ghost use Rattle.roam_pending.specs.Realms.{waits_on, with_ends, with_link};
ghost use Rattle.roam_pending.specs.Shown.{shown, shown_standing};

use crate::course::Course;
use crate::key::{Key, Requester};
use roam_conf::Link;
use roam_wire::Octets;
use std::alloc::Allocator;

/// A request of a realm, as it came in.
#[derive(Drop)]
pub struct Request<A: Allocator> {
    pub key: Key,
    pub requester: Requester,
    /// The octets up to Length.
    pub octets: Octets<A>,
    /// The time when it came in, in milliseconds. No rule reads it: lines tell it.
    pub came: u64,
    /// The round of its conversation. No rule reads it: lines and counts tell it.
    pub course: Course,
}

/// A request that was forwarded and has no reply yet.
#[derive(Drop)]
pub struct Waiting<A: Allocator> {
    /// The link to which it was forwarded.
    pub link: Link,
    /// The Identifier that the forwarded packet has there.
    pub id: u8,
    /// The forwarded packet.
    pub forwarded: Octets<A>,
    /// The number of times that this packet may be sent again.
    pub sends_left: u8,
    /// In milliseconds.
    pub deadline: u64,
    /// The number of signs of life that the link had given when that packet was built, modulo 2^64.
    pub signs: u64,
}

/// A request that was answered, while its reply is held for retransmissions of the request.
#[derive(Drop)]
pub struct Done<A: Allocator> {
    /// The packet that was returned.
    pub reply: Octets<A>,
    /// In milliseconds.
    pub deadline: u64,
    /// The link from which the reply came; none where the broker made it itself.
    pub from: Option<Link>,
}

/// The state of an entry.
#[derive(Drop)]
pub enum Standing<A: Allocator> {
    Waiting(Waiting<A>),
    Done(Done<A>),
}

impl<A: Allocator> Standing<A> {
    /// Notes that the forwarded packet was sent once more: one send fewer is left, and the wait lasts until the
    /// deadline. An entry that is done stays as it is.
    pub fn wait_on(&mut self, deadline: u64)
        ensures { shown_standing self.new ≡ waits_on deadline (shown_standing self.old) }
    {
        if let Standing::Waiting(waiting) = self {
            waiting.sends_left = waiting.sends_left.saturating_sub(1);
            waiting.deadline = deadline;
        }
    }

    /// Sets the link: the one at which a waiting request waits, if one is given; of an answered one that from which the
    /// reply came, if it came from one.
    pub fn set_link(&mut self, link: Option<Link>)
        ensures { shown_standing self.new ≡ with_link link (shown_standing self.old) }
    {
        match self {
            Standing::Waiting(waiting) => {
                if let Some(link) = link {
                    waiting.link = link;
                }
            }
            Standing::Done(done) => {
                if done.from.is_some() {
                    done.from = link;
                }
            }
        }
    }
}

/// A pending request.
#[derive(Drop)]
pub struct Entry<A: Allocator> {
    pub request: Request<A>,
    /// The number under which the realm admitted it.
    pub ticket: u64,
    pub standing: Standing<A>,
}

impl<A: Allocator> Entry<A> {
    /// Gives it other numbers of its ends.
    pub fn set_ends(&mut self, home: Option<u8>, link: Option<Link>)
        ensures { shown self.new ≡ with_ends home link (shown self.old) }
    {
        if let (Requester::Home(_), Some(home)) = (self.request.requester, home) {
            self.request.requester = Requester::Home(home);
        }
        self.standing.set_link(link);
    }
}
