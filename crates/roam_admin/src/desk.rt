//! A desk: where a thread that answers over HTTP asks the server's own thread for something, and waits for what that
//! answers.

use crate::missing::{Handed, Missing};
use crate::order::{Asked, Order};
use crate::reloads::{Build, Tally};
use roam_metrics::About;
use std::alloc::{AllocError, Global};
use std::sync::atomic::{AtomicBool, Ordering};
use std::sync::{Mutex, Wait};
use std::thread::Parker;
use std::time::{Clock, Instant};

/// The cause why there is no answer.
#[derive(Clone, Copy, PartialEq, Eq)]
pub enum NoReply {
    /// The server ends.
    Over,
    /// The connection of whoever asked was closed before the order was taken. It isn't carried out.
    Withdrawn,
}

/// The end of an order.
#[derive(Clone, Copy, PartialEq, Eq)]
pub enum Course {
    /// It was done.
    Done,
    /// It was begun.
    Begun,
    /// There is no such thing.
    Unknown,
    /// It was not done, and the body says why. Nothing has changed, unless it says that it is tried again.
    Declined,
    /// Memory is wanting, or the server ends.
    Unavailable,
}

/// The answer to an order.
#[derive(Drop)]
pub struct Reply {
    pub course: Course,
    pub body: Vec<u8>,
    /// The stored steps that it has. They are stored no more.
    pub handed: Option<Handed>,
}

/// Makes an answer that has no stored steps.
pub fn plain_reply(course: Course, body: Vec<u8>) -> Reply {
    Reply {
        course,
        body,
        handed: None,
    }
}

/// Makes the answer that it was done.
pub fn done(body: Vec<u8>) -> Reply {
    plain_reply(Course::Done, body)
}

/// The state of a desk.
#[derive(Drop)]
enum Slip {
    Nothing,
    Asked(Asked),
    Answered(Reply),
    Withdrawn,
}

/// A desk, at which one thread asks.
#[derive(Drop)]
pub struct Desk {
    slip: Mutex<Slip>,
    /// The parker on which whoever asks sleeps.
    waiting: Parker,
}

/// Returns the order that lies there and isn't answered yet.
fn asked_on(slip: &Slip) -> Option<Asked> {
    match slip {
        Slip::Asked(asked) => Some(*asked),
        Slip::Nothing | Slip::Answered(_) | Slip::Withdrawn => None,
    }
}

/// Takes the answer away, where there is one, or that there is none.
fn take_reply(slip: &mut Slip) -> Option<Result<Reply, NoReply>> {
    match slip {
        Slip::Answered(_) | Slip::Withdrawn => {}
        Slip::Nothing | Slip::Asked(_) => return None,
    }
    match std::mem::replace(slip, Slip::Nothing) {
        Slip::Answered(reply) => Some(Ok(reply)),
        Slip::Withdrawn => Some(Err(NoReply::Withdrawn)),
        Slip::Nothing | Slip::Asked(_) => None,
    }
}

impl Desk {
    /// Makes a desk where nothing lies.
    pub fn new() -> Desk {
        Desk {
            slip: Mutex::new(Slip::Nothing),
            waiting: Parker::new(),
        }
    }

    /// Puts something there, in place of what lay there.
    fn put<R: Wait>(&self, rt: &R, slip: Slip) {
        *self.slip.lock(rt) = slip;
    }

    /// Takes the answer, where there is one.
    fn take<R: Wait>(&self, rt: &R) -> Option<Result<Reply, NoReply>> {
        take_reply(&mut self.slip.lock(rt))
    }

    /// Asks, wakes the one who answers, and waits for the answer.
    ///
    /// # Errors
    ///
    /// `Over`, where the server ends before it is answered; `Withdrawn`, where the order changes something and whoever
    /// asked has gone: before it lies there, or before it is taken.
    pub fn ask<R: Wait>(
        &self,
        rt: &R,
        attendant: &Parker,
        is_over: &AtomicBool,
        asked: Asked,
    ) -> Result<Reply, NoReply> {
        if asked.is_withdrawn() {
            return Err(NoReply::Withdrawn);
        }
        self.put(rt, Slip::Asked(asked));
        attendant.unpark();
        for _ in rt.forever() {
            if let Some(reply) = self.take(rt) {
                return reply;
            }
            if is_over.load(Ordering::SeqCst) {
                return Err(NoReply::Over);
            }
            self.waiting.park(rt);
        }
        unreachable!()
    }

    /// Returns what is asked for and isn't answered yet.
    fn asked<R: Wait>(&self, rt: &R) -> Option<Asked> {
        asked_on(&self.slip.lock(rt))
    }

    /// Takes the order that lies there, to carry it out. It lies there until it is answered, and nobody asks any more
    /// whether its caller still waits. One that changes something is withdrawn where its caller has gone before.
    pub fn order<R: Wait>(&self, rt: &R) -> Option<Order> {
        let asked = self.asked(rt)?;
        if asked.is_withdrawn() {
            self.put(rt, Slip::Withdrawn);
            self.waiting.unpark();
            return None;
        }
        self.put(rt, Slip::Asked(asked.taken()));
        Some(asked.order)
    }

    /// Answers.
    pub fn answer<R: Wait>(&self, rt: &R, reply: Reply) {
        self.put(rt, Slip::Answered(reply));
        self.waiting.unpark();
    }

    /// Has the one who waits look whether the server ends.
    pub fn wake(&self) {
        self.waiting.unpark();
    }
}

/// The desks of a server, and what its own thread sleeps on. They outlast each configuration.
#[derive(Drop)]
pub struct Office {
    pub metrics: Desk,
    pub control: Desk,
    pub attendant: Parker,
    /// The steps that were handed over by answers that weren't taken whole.
    pub missing: Missing,
    /// The program that serves.
    pub build: Build,
    /// The reloads after which another configuration was served.
    pub served: Tally,
    /// Those that changed nothing.
    pub declined: Tally,
    /// The time when the server started.
    pub start: Instant,
    /// The same in seconds since 1970, where the system's clock told it.
    pub began: Option<u64>,
    /// True where the server ends: nothing is answered any more.
    pub is_over: AtomicBool,
}

/// Returns the seconds since 1970, where the system's clock tells them.
fn seconds_since_1970<R: Clock>(rt: &R) -> Option<u64> {
    match rt.since_1970() {
        Ok(time) => Some(time.as_secs()),
        Err(_) => None,
    }
}

impl Office {
    /// Makes an office where nobody asks yet, for so many shards.
    pub fn new<R: Clock>(
        rt: &R,
        alloc: Global,
        start: Instant,
        shards: u16,
        build: Build,
    ) -> Result<Office, AllocError> {
        Ok(Office {
            metrics: Desk::new(),
            control: Desk::new(),
            attendant: Parker::new(),
            missing: Missing::new(alloc, shards)?,
            build,
            served: Tally::new(),
            declined: Tally::new(),
            start,
            began: seconds_since_1970(rt),
            is_over: AtomicBool::new(false),
        })
    }

    /// Counts that a reload went so, at this moment, in milliseconds since the start.
    pub fn count_reload(&self, course: Course, now: u64) {
        if course == Course::Done {
            self.served.add(now);
        } else {
            self.declined.add(now);
        }
    }

    /// Returns which server is told of at this moment, in milliseconds since the start.
    pub fn about(&self, now: u64) -> About {
        About {
            version: self.build.version(),
            toolchain: self.build.toolchain(),
            began: self.began,
            uptime: now,
            served: self.served.reloads(),
            declined: self.declined.reloads(),
        }
    }

    /// Notes that the server ends, and wakes the desks so that those who wait are told.
    pub fn close(&self) {
        self.is_over.store(true, Ordering::SeqCst);
        self.metrics.wake();
        self.control.wake();
    }
}
