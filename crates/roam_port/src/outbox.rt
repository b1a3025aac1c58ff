//! The packets of a thread that are to leave, each port's apart.

ghost use Rattle.std.specs.Prelude.{◌≡◌, ◌≤◌, max, length};
ghost use Rattle.std.specs.Vec.{vec_len, vec_capacity};
ghost use Rattle.roam_port.specs.Accounts.{IsBalanced};
ghost use Rattle.roam_port.specs.Queues.{AreListed, count_listed, count_waiting};
ghost use Rattle.roam_port.specs.Sharing.{share_of};

use crate::port_queue::{PortQueue, Standing};
use crate::queues::{add_queues, send_at};
use crate::{Account, Port, Sent, socket_of};
use roam_admission::Out;
use roam_conf::Place;
use roam_wire::NoMemory;
use std::alloc::Allocator;

/// The packets of a thread that are to leave, each port's apart, and what became of those that were put. What waits for
/// a port that has no room stands aside: no other port's packet meets it. Putting and sending take no memory.
pub struct Outbox<A: Allocator> {
    /// In the order of the sockets' numbers.
    pub(crate) queues: Vec<PortQueue<A>, A>,
    /// The sockets whose packets are handed on at the next sending.
    pub(crate) listed: Vec<usize, A>,
    pub(crate) account: Account,
    /// The account as it was when it was asked for last.
    pub(crate) told: Account,
    ghost room: { vec_len queues ≤ vec_capacity listed },
    ghost few: { vec_len listed ≤ count_listed queues.items },
    ghost all: { AreListed queues.items listed.items },
    ghost balanced: { IsBalanced account (count_waiting queues.items) },
}

// By hand, so that a proof sees one call wherever it ends, and the crates above prove nothing of it.
impl<A: Allocator> Drop for Outbox<A> {
    fn drop(self) {
        let Self {
            queues,
            listed,
            account: _,
            told: _,
        } = self;
        drop(queues);
        drop(listed);
    }
}

impl<A: Allocator + Copy> Outbox<A> {
    ghost use Rattle.std.specs.Prelude.{IfOk, OnOk};
    ghost use Rattle.std.specs.List.{AllByRecursion};
    ghost use Rattle.roam_port.specs.Accounts.{none_put};
    ghost use Rattle.roam_port.specs.Outbox.{port_count};
    ghost use Rattle.roam_port.specs.Queues.{AreMore, IsUnused};

    /// Makes an outbox for so many ports, in which nothing waits, and into which nothing was put.
    pub fn new(alloc: A, ports: usize) -> Result<Outbox<A>, NoMemory>
        ensures ports { IfOk result (λ o. port_count o ≡ ports) }
        ensures unused { IfOk result (λ o. AllByRecursion (IsUnused (share_of ports)) o.queues.items) }
        ensures account { IfOk result (λ o. o.account ≡ none_put) }
    {
        let mut outbox = Outbox {
            queues: Vec::new(alloc),
            listed: Vec::new(alloc),
            account: Account::none(),
            told: Account::none(),
        };
        outbox.add_ports(alloc, ports)?;
        Ok(outbox)
    }

    /// Adds ports, until there are so many. Those that there are keep what waits for them, and their shares. Where a
    /// growth is refused, some may have been added.
    pub fn add_ports(&mut self, alloc: A, ports: usize) -> Result<(), NoMemory>
        ensures ok { OnOk result (port_count self.new ≡ max ports (port_count self.old)) }
        ensures more { AreMore (share_of ports) self.old.queues.items self.new.queues.items }
        ensures account { self.new.account ≡ self.old.account }
    {
        self.listed
            .reserve(ports.saturating_sub(self.listed.len()))?;
        add_queues(alloc, &mut self.queues, ports)
    }
}

impl<A: Allocator> Outbox<A> {
    ghost use Rattle.std.specs.Prelude.{◌+◌, ◌<◌, ◌↔◌, [], ◌∷◌, true, false, Some, IsTrue};
    ghost use Rattle.roam_port.specs.declared.port_queue.Standing.{Standing};
    ghost use Rattle.roam_port.specs.Accounts.{after_put, since};
    ghost use Rattle.roam_port.specs.Fates.{GoesOrWaits};
    ghost use Rattle.roam_port.specs.Sockets.{socket_number};
    ghost use Rattle.roam_port.specs.Queues.{AtPort, IsBehind, IsListedAgain};
    ghost use Rattle.roam_port.specs.Outbox.{IsFullAt, IsTriedAgain, Puts, PutsSending, SendsAll, SendsLast};
    ghost use Rattle.roam_port.specs.Outbox.{account_of, is_idle_at, port_count, standing_at, told_of, waits_at};

    /// Returns how many ports there are.
    pub fn port_count(&self) -> usize
        ensures { result ≡ port_count self.now }
    {
        self.queues.len()
    }

    /// Returns how the packets stand that wait for the port of this number; none where there is no such port.
    pub fn standing_of(&self, socket: usize) -> Option<Standing>
        ensures { result ≡ standing_at self.now socket }
    {
        match self.queues.get(socket) {
            Some(queue) => Some(queue.standing),
            None => None,
        }
    }

    /// Returns how many packets wait for the port of this number.
    pub fn waiting_at(&self, socket: usize) -> usize
        ensures { result ≡ length (waits_at self.now socket) }
    {
        match self.queues.get(socket) {
            Some(queue) => queue.waiting.len(),
            None => 0,
        }
    }

    /// Returns whether as many packets wait for the port of a place as may. For a port that isn't there, none may.
    pub fn is_full_at(&self, place: Place) -> bool
        ensures { IsTrue result ↔ IsFullAt self.now (socket_number place) }
    {
        match self.queues.get(socket_of(place)) {
            Some(queue) => queue.is_full(),
            None => true,
        }
    }

    /// Puts a packet behind those that wait for its port, where there is room for it.
    fn put_behind(&mut self, socket: usize, out: Out<A>)
        requires waits { is_idle_at self.old socket ≡ false }
        requires room { ¬ IsFullAt self.old socket }
        ensures queues { AtPort (IsBehind out) self.old.queues.items self.new.queues.items socket }
        ensures account { self.new.account ≡ after_put self.old.account }
    {
        self.queues[socket].put(out);
        self.account.count_put();
    }

    /// Puts a packet where none waits for its port, and lists that port.
    fn put_first(&mut self, socket: usize, out: Out<A>)
        requires idle { is_idle_at self.old socket ≡ true }
        requires room { ¬ IsFullAt self.old socket }
        ensures queues { AtPort (IsBehind out) self.old.queues.items self.new.queues.items socket }
        ensures account { self.new.account ≡ after_put self.old.account }
    {
        self.queues[socket].put(out);
        self.account.count_put();
        self.listed.push_reserved(socket);
    }

    /// Returns whether no packet waits for a port.
    fn is_idle_at(&self, socket: usize) -> bool
        ensures { result ≡ is_idle_at self.now socket }
    {
        match self.queues.get(socket) {
            Some(queue) => queue.is_idle(),
            None => true,
        }
    }

    /// Puts a packet behind those that wait for the port of its place. Where as many wait for that port as may, the
    /// packet is lost, and counted.
    pub fn put(&mut self, out: Out<A>)
        ensures puts { Puts out self.old self.new }
        ensures count { port_count self.new ≡ port_count self.old }
    {
        let socket = socket_of(out.from);
        if self.is_full_at(out.from) {
            self.account.count_loss();
        } else if self.is_idle_at(socket) {
            self.put_first(socket, out);
        } else {
            self.put_behind(socket, out);
        }
    }

    /// Hands the packets that wait for the port that was listed last to it, where they are listed still.
    fn send_last<P: Port>(&mut self, ports: &mut [P]) -> Sent
        requires listed { 0 < length self.old.listed.items }
        requires ports { port_count self.old ≤ length ports.old }
        ensures sends { SendsLast P.hands ports.old ports.new self.old self.new result }
        ensures listed { length self.new.listed.items + 1 ≡ length self.old.listed.items }
        ensures count { port_count self.new ≡ port_count self.old }
        ensures ports { length ports.new ≡ length ports.old }
    {
        let socket = self.listed.pop().unwrap();
        send_at(&mut self.queues, ports, &mut self.account, socket)
    }

    /// Hands the packets that wait to their ports, each port's the oldest first and each packet once, until none waits
    /// for a port or it has no room for one: it and those behind it stand aside, until the port is tried again.
    ///
    /// The ports stand in the order of the sockets' numbers.
    pub fn send_all<P: Port>(&mut self, ports: &mut [P]) -> Sent
        requires { port_count self.old ≤ length ports.old }
        ensures sends { SendsAll P.hands ports.old ports.new self.old self.new result }
        ensures becomes { GoesOrWaits P.hands [] ports.old ports.new self.old self.new }
        ensures count { port_count self.new ≡ port_count self.old }
    {
        let mut sent = Sent::none();
        for _ in 0..self.listed.len() {
            sent = sent.and(self.send_last(ports));
        }
        sent
    }

    /// Puts a packet behind those that wait for its port. Where as many wait as may, what waits is sent first.
    pub fn put_sending<P: Port>(&mut self, ports: &mut [P], out: Out<A>) -> Sent
        requires { port_count self.old ≤ length ports.old }
        ensures puts { PutsSending P.hands out ports.old ports.new self.old self.new result }
        ensures becomes { GoesOrWaits P.hands (out ∷ []) ports.old ports.new self.old self.new }
        ensures count { port_count self.new ≡ port_count self.old }
    {
        if !self.is_full_at(out.from) {
            self.put(out);
            return Sent::none();
        }
        let sent = self.send_all(ports);
        self.put(out);
        sent
    }

    /// Lists again what stands aside for a port.
    fn list_again(&mut self, socket: usize)
        requires aside { standing_at self.old socket ≡ Some Standing.Aside }
        requires within { socket < length self.old.queues.items }
        ensures queues { AtPort IsListedAgain self.old.queues.items self.new.queues.items socket }
        ensures account { self.new.account ≡ self.old.account }
    {
        self.queues[socket].list_again();
        self.listed.push_reserved(socket);
    }

    /// Notes that the port of this number may have room again: what stands aside for it is handed to it at the next
    /// sending.
    pub fn try_again(&mut self, socket: usize)
        ensures again { IsTriedAgain socket self.old self.new }
        ensures count { port_count self.new ≡ port_count self.old }
    {
        if let Some(Standing::Aside) = self.standing_of(socket) {
            self.list_again(socket);
        }
    }

    /// For tests. Returns what became of all packets that were put so far.
    pub fn account(&self) -> Account
        ensures { result ≡ account_of self.now }
    {
        self.account
    }

    /// Returns what was counted of them since this was asked last.
    pub fn take_account(&mut self) -> Account
        ensures value { result ≡ since (account_of self.old) (told_of self.old) }
        ensures told { told_of self.new ≡ account_of self.old }
        ensures account { account_of self.new ≡ account_of self.old }
        ensures waiting { self.new.queues ≡ self.old.queues }
    {
        let since = self.account.since(self.told);
        self.told = self.account;
        since
    }
}
