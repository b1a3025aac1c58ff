//! Sockets without room: they are watched, and tried again once they have some.

use crate::outgoing::{Outgoing, ROOM_EVENTS, RoomEvents};
use mio::unix::SourceFd;
use mio::{Interest, Token};
use roam_port::Standing;
use std::time::Duration;

impl Outgoing<'_> {
    ghost use Rattle.std.specs.Prelude.{◌≡◌, []};
    ghost use Rattle.roam_outgoing.specs.Sending.{PutsEach, outbox_in};

    /// Asks to be told when the sockets for which packets stand aside have room, where sending blocked.
    pub(crate) fn watch(&mut self, is_blocked: bool)
        ensures { outbox_in self.new ≡ outbox_in self.old }
    {
        if !is_blocked {
            return;
        }
        for number in 0..self.ports.len() {
            self.watch_aside(number);
        }
    }

    /// Asks to be told when the socket of this number has room, where packets stand aside for it.
    fn watch_aside(&mut self, number: usize)
        ensures { outbox_in self.new ≡ outbox_in self.old }
    {
        if self.outbox.standing_of(number) == Some(Standing::Aside) {
            self.watch_at(number);
        }
    }

    /// Asks to be told when the socket of this number has room, where that wasn't asked yet. It is told at once where
    /// the socket has some by now.
    fn watch_at(&mut self, number: usize)
        ensures { outbox_in self.new ≡ outbox_in self.old }
    {
        let Some(port) = self.ports.get_mut(number) else {
            return;
        };
        if port.is_watched() {
            return;
        }
        let fd = port.descriptor();
        let registry = self.room.poll.registry();
        match registry.register(&mut SourceFd(&fd), Token(number), Interest::WRITABLE) {
            Ok(()) => {
                port.set_watched(true);
                self.watched = self.watched.saturating_add(1);
            }
            Err(_) => self.is_unwatched = true,
        }
    }

    /// Notes that the socket of this number may have room again: what stands aside for it is sent next.
    fn room_came(&mut self, number: usize)
        ensures { PutsEach [] (outbox_in self.old) (outbox_in self.new) }
    {
        let Some(port) = self.ports.get_mut(number) else {
            return;
        };
        if port.is_watched() {
            let fd = port.descriptor();
            let registry = self.room.poll.registry();
            let _is_forgotten = registry.deregister(&mut SourceFd(&fd)).is_ok();
            port.set_watched(false);
            self.watched = self.watched.saturating_sub(1);
        }
        self.outbox.try_again(number);
    }

    /// Returns the numbers of sockets that have room again, `ROOM_EVENTS` at most. None where that can't be asked.
    fn with_room(&mut self) -> Option<[Option<usize>; ROOM_EVENTS]>
        ensures { outbox_in self.new ≡ outbox_in self.old }
    {
        let RoomEvents { poll, events } = &mut self.room;
        if poll.poll(events, Some(Duration::ZERO)).is_err() {
            return None;
        }
        let mut numbers = [None; ROOM_EVENTS];
        for (place, event) in numbers.iter_mut().zip(self.room.events.iter()) {
            let Token(number) = event.token();
            *place = Some(number);
        }
        Some(numbers)
    }

    /// Has what stands aside for these sockets be sent next. Answers whether there were so many that there may be more.
    fn rooms_came(&mut self, numbers: [Option<usize>; ROOM_EVENTS]) -> bool
        ensures { PutsEach [] (outbox_in self.old) (outbox_in self.new) }
    {
        for number in numbers {
            match number {
                Some(number) => self.room_came(number),
                None => return false,
            }
        }
        true
    }

    /// Asks which sockets have room again. Answers whether there were so many that there may be more.
    fn ask_for_room(&mut self) -> bool
        ensures { PutsEach [] (outbox_in self.old) (outbox_in self.new) }
    {
        match self.with_room() {
            Some(numbers) => self.rooms_came(numbers),
            None => false,
        }
    }

    /// Asks which sockets have room again, until that was asked of all.
    fn ask_all(&mut self)
        ensures { PutsEach [] (outbox_in self.old) (outbox_in self.new) }
    {
        for _ in 0..=self.ports.len() / ROOM_EVENTS {
            if !self.ask_for_room() {
                return;
            }
        }
    }

    /// Tries the socket of this number again, unless it is watched.
    fn try_one_unwatched(&mut self, number: usize)
        ensures { PutsEach [] (outbox_in self.old) (outbox_in self.new) }
    {
        if self
            .ports
            .get(number)
            .is_some_and(|port| !port.is_watched())
        {
            self.outbox.try_again(number);
        }
    }

    /// Tries the sockets again that had no room and can't be watched, where there are any.
    fn try_unwatched(&mut self)
        ensures { PutsEach [] (outbox_in self.old) (outbox_in self.new) }
    {
        if !self.is_unwatched {
            return;
        }
        self.is_unwatched = false;
        for number in 0..self.ports.len() {
            self.try_one_unwatched(number);
        }
    }

    /// Sends to the sockets that have room again.
    pub fn send_again(&mut self)
        ensures { PutsEach [] (outbox_in self.old) (outbox_in self.new) }
    {
        if !self.is_blocked() {
            return;
        }
        self.ask_all();
        self.try_unwatched();
        self.send();
    }
}
