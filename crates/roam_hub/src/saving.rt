//! The ledgers of a hub's realms as octets, written while it answers.

ghost use Rattle.std.specs.Prelude.{OnOk};
ghost use Rattle.roam_history.specs.Written.{BeginsRealm, SavesThen};

use crate::hub::Hub;
use crate::locking::wait_for;
use roam_history::{Opened, Seat};
use roam_sessions::Writing;
use roam_wire::NoMemory;
use std::alloc::{AllocError, Allocator};
use std::sync::Wait;

impl<A: Allocator + Copy, N: Opened> Hub<'_, A, N> {
    /// Writes that the sessions of a realm follow, and adds the tickets by which they are written then. Waits for the
    /// shard's lock, and records nothing.
    pub fn begin_saving<R: Wait>(
        &self,
        rt: &R,
        seat: &Seat<A, N>,
        realm: u16,
        tickets: &mut Vec<u64, A>,
        writing: &mut Writing<A>,
    ) -> Result<(), NoMemory>
        ensures { OnOk result (BeginsRealm N.opening realm writing.old writing.new) }
    {
        let shard = self.config.shard_of(realm);
        let lock = wait_for(rt, &self.locks[usize::from(shard)]);
        lock.begin_saving(seat, shard, realm, tickets, writing)
    }

    /// Writes those sessions of a realm that have these tickets and are still open. Waits for the shard's lock, and
    /// records nothing.
    pub fn save<R: Wait>(
        &self,
        rt: &R,
        seat: &Seat<A, N>,
        realm: u16,
        tickets: &[u64],
        writing: &mut Writing<A>,
    ) -> Result<(), AllocError>
        ensures { OnOk result (SavesThen N.opening realm seat.now writing.old writing.new) }
    {
        let shard = self.config.shard_of(realm);
        let lock = wait_for(rt, &self.locks[usize::from(shard)]);
        lock.save(seat, shard, realm, tickets, writing)
    }
}
