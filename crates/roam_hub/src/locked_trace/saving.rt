//! The contents of a shard's lock, written as a sessions' file.

ghost use Rattle.std.specs.Prelude.{◌<◌, OnOk};
ghost use Rattle.roam_history.specs.Written.{BeginsRealm, SavesOrNothing};

use crate::locked_trace::LockedTrace;
use roam_history::{Opened, Seat};
use roam_sessions::Writing;
use roam_wire::NoMemory;
use std::alloc::{AllocError, Allocator};

impl<A: Allocator + Copy, N: Opened> LockedTrace<'_, A, N> {
    /// Writes that the sessions of a realm follow, and adds their tickets; nothing where this is another shard's trace.
    pub(crate) fn begin_saving(
        &self,
        seat: &Seat<A, N>,
        shard: u16,
        realm: u16,
        tickets: &mut Vec<u64, A>,
        writing: &mut Writing<A>,
    ) -> Result<(), NoMemory>
        requires { shard < N.opening.config.shards }
        ensures { OnOk result (BeginsRealm N.opening realm writing.old writing.new) }
    {
        if !self.goes_on(seat, shard) {
            return Ok(());
        }
        self.traced.shard().add_session_tickets(realm, tickets)?;
        match self.traced.shard().save_realm(realm, writing) {
            Ok(()) => Ok(()),
            Err(_) => Err(NoMemory),
        }
    }

    /// Writes the sessions of a realm that have these tickets; nothing where this is another shard's trace.
    pub(crate) fn save(
        &self,
        seat: &Seat<A, N>,
        shard: u16,
        realm: u16,
        tickets: &[u64],
        writing: &mut Writing<A>,
    ) -> Result<(), AllocError>
        requires { shard < N.opening.config.shards }
        ensures { OnOk result (SavesOrNothing N.opening shard realm seat.now writing.old writing.new) }
    {
        if !self.goes_on(seat, shard) {
            return Ok(());
        }
        self.traced.shard().save(realm, tickets, writing)
    }
}
