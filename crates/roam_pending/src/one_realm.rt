//! A plain list as what keeps the entries of its one realm.

use crate::course::Course;
use crate::due::Due;
use crate::entries::Entries;
use crate::entry::{Entry, Standing};
use crate::key::Key;
use crate::pending::Pending;
use roam_conf::Link;
use roam_wire::NoMemory;
use std::alloc::Allocator;

impl<A: Allocator> Entries<A> for Pending<A> {
    ghost use Rattle.roam_pending.specs.Realms.{keeps_in, entries_in, room_in};

    ghost keeps = { keeps_in };

    ghost entries_of = { entries_in };

    ghost room_for = { room_in };

    fn len(&self, realm: u16) -> usize {
        if realm == self.realm() { self.len() } else { 0 }
    }

    fn find_ticket(&self, realm: u16, ticket: u64) -> Option<&Entry<A>> {
        if realm == self.realm() {
            self.find_ticket(ticket)
        } else {
            None
        }
    }

    fn find_client(&self, realm: u16, key: &Key) -> Option<&Entry<A>> {
        if realm == self.realm() {
            self.find_client(key)
        } else {
            None
        }
    }

    fn first_done(&self, realm: u16, except: Option<u64>) -> Option<u64> {
        if realm == self.realm() {
            self.first_done(except)
        } else {
            None
        }
    }

    fn find_round(&self, realm: u16, peer: u16, state: &[u8]) -> Option<&Entry<A>> {
        if realm == self.realm() {
            self.find_round(peer, state)
        } else {
            None
        }
    }

    fn due_after(&self, realm: u16, now: u64, last: Option<Due>) -> Option<Due> {
        if realm == self.realm() {
            self.due_after(now, last)
        } else {
            None
        }
    }

    fn next_after(&self, realm: u16, last: Option<Due>) -> Option<Due> {
        if realm == self.realm() {
            self.next_after(last)
        } else {
            None
        }
    }

    fn reserve(&mut self, realm: u16) -> Result<(), NoMemory> {
        self.reserve()
    }

    fn insert_from(&mut self, realm: u16, entry: &mut Option<Entry<A>>) {
        if let Some(entry) = entry.take() {
            self.insert_reserved(entry);
        }
    }

    fn remove(&mut self, realm: u16, ticket: u64) -> Option<Entry<A>> {
        if realm == self.realm() {
            self.remove(ticket)
        } else {
            None
        }
    }

    fn exchange_standing(&mut self, realm: u16, ticket: u64, standing: &mut Standing<A>) {
        if realm == self.realm() {
            self.exchange_standing(ticket, standing);
        }
    }

    fn hold(
        &mut self,
        realm: u16,
        ticket: u64,
        standing: &mut Standing<A>,
    ) -> Result<(), NoMemory> {
        if realm == self.realm() {
            self.exchange_standing(ticket, standing);
        }
        Ok(())
    }

    fn send_again(&mut self, realm: u16, ticket: u64, deadline: u64) {
        if realm == self.realm() {
            self.send_again(ticket, deadline);
        }
    }

    fn set_ends(&mut self, realm: u16, ticket: u64, home: Option<u8>, link: Option<Link>) {
        if realm == self.realm() {
            self.set_ends(ticket, home, link);
        }
    }

    fn set_course(&mut self, realm: u16, ticket: u64, course: Course) {
        if realm == self.realm() {
            self.set_course(ticket, course);
        }
    }
}
