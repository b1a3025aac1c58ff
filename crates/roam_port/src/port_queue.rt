//! The packets that wait for one port.

ghost use Rattle.std.specs.Prelude.{◌≡◌, ◌≤◌, ◌<◌, [], length};
ghost use Rattle.std.specs.VecDeque.{deque_len, deque_capacity};
ghost use Rattle.roam_port.specs.declared.port_queue.Standing.{Standing};

use crate::{Account, Port, SendFault};
use roam_admission::Out;
use roam_wire::NoMemory;
use std::alloc::Allocator;
use std::collections::VecDeque;

/// The state of the packets that wait for a port.
#[derive(Clone, Copy, PartialEq, Eq)]
pub enum Standing {
    /// None waits.
    Idle,
    /// They are handed to the port at the next sending.
    Listed,
    /// The port had no room for the oldest: they stand aside until it may have some again.
    Aside,
}

/// The packets that wait for one port, the oldest first. It has memory for as many as may wait.
pub(crate) struct PortQueue<A: Allocator> {
    pub waiting: VecDeque<Out<A>, A>,
    /// The number of packets that may wait.
    pub share: usize,
    pub standing: Standing,
    ghost room: { share ≤ deque_capacity waiting },
    ghost within: { deque_len waiting ≤ share },
    ghost idle: { standing ≡ Standing.Idle → waiting.items ≡ [] },
}

// By hand, so that a proof sees one call wherever it ends, and the crates above prove nothing of it.
impl<A: Allocator> Drop for PortQueue<A> {
    fn drop(self) {
        let Self {
            waiting,
            share: _,
            standing: _,
        } = self;
        drop(waiting);
    }
}

impl<A: Allocator> PortQueue<A> {
    ghost use Rattle.std.specs.Prelude.{◌↔◌, ◌++◌, ◌∷◌, IsTrue, IfOk};
    ghost use Rattle.roam_port.specs.PortQueue.{Drains, HandsOldest, after_put, is_aside, is_idle, is_listed};
    ghost use Rattle.roam_port.specs.Queues.{IsListedAgain};

    /// Makes a queue in which none waits, for so many packets.
    pub fn new(alloc: A, share: usize) -> Result<PortQueue<A>, NoMemory>
        ensures waiting { IfOk result (λ q. q.waiting.items ≡ []) }
        ensures share { IfOk result (λ q. q.share ≡ share) }
        ensures standing { IfOk result (λ q. q.standing ≡ Standing.Idle) }
    {
        Ok(PortQueue {
            waiting: VecDeque::with_capacity(alloc, share)?,
            share,
            standing: Standing::Idle,
        })
    }

    /// Returns whether none waits.
    pub fn is_idle(&self) -> bool
        ensures { result ≡ is_idle self.now.standing }
    {
        matches!(self.standing, Standing::Idle)
    }

    /// Returns whether packets are handed to the port at the next sending.
    pub fn is_listed(&self) -> bool
        ensures { result ≡ is_listed self.now.standing }
    {
        matches!(self.standing, Standing::Listed)
    }

    /// Returns whether packets stand aside.
    pub fn is_aside(&self) -> bool
        ensures { result ≡ is_aside self.now.standing }
    {
        matches!(self.standing, Standing::Aside)
    }

    /// Notes that the port may have room again: lists what stands aside.
    pub fn list_again(&mut self)
        requires { self.old.standing ≡ Standing.Aside }
        ensures { IsListedAgain self.old self.new }
    {
        self.standing = Standing::Listed;
    }

    /// Returns whether as many packets wait as may.
    pub fn is_full(&self) -> bool
        ensures { IsTrue result ↔ (length self.now.waiting.items ≡ self.now.share) }
    {
        self.waiting.len() == self.share
    }

    /// Puts a packet behind those that wait.
    pub fn put(&mut self, out: Out<A>)
        requires { length self.old.waiting.items < self.old.share }
        ensures behind { self.new.waiting.items ≡ self.old.waiting.items ++ out ∷ [] }
        ensures standing { self.new.standing ≡ after_put self.old.standing }
        ensures share { self.new.share ≡ self.old.share }
    {
        self.waiting.push_back_reserved(out);
        if let Standing::Idle = self.standing {
            self.standing = Standing::Listed;
        }
    }

    /// Hands the oldest packet that waits to the port, once. Answers whether it is gone: it is sent, or is lost and
    /// counted. Else the port has no room, and it waits on.
    fn hand_oldest<P: Port>(&mut self, port: &mut P, account: &mut Account) -> bool
        requires { 0 < length self.old.waiting.items }
        ensures handed { HandsOldest P.hands port.old port.new self.old.waiting.items self.new.waiting.items
            account.old account.new result }
        ensures standing { self.new.standing ≡ self.old.standing }
        ensures share { self.new.share ≡ self.old.share }
    {
        let answer = match self.waiting.front() {
            Some(out) => port.send(out.from, out.to, out.bytes.as_slice()),
            None => unreachable!(),
        };
        if let Err(SendFault::WouldBlock) = answer {
            return false;
        }
        account.count_answer(answer);
        drop(self.waiting.pop_front());
        true
    }

    /// Hands the packets that wait to the port, the oldest first, each once, until none waits or the port has no room
    /// for one: it and those behind it stand aside. Answers how many are gone.
    pub fn send<P: Port>(&mut self, port: &mut P, account: &mut Account) -> usize
        requires { self.old.standing ≡ Standing.Listed }
        ensures drains { Drains P.hands port.old port.new self.old self.new account.old account.new result }
        ensures share { self.new.share ≡ self.old.share }
    {
        let count = self.waiting.len();
        for gone in 0..count {
            if !self.hand_oldest(port, account) {
                self.standing = Standing::Aside;
                return gone;
            }
        }
        self.standing = Standing::Idle;
        count
    }
}
