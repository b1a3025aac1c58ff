//! The state of a hub's realms.

ghost use Rattle.std.specs.Prelude.{IfSome};
ghost use Rattle.roam_conf.specs.Shown.{shown};
ghost use Rattle.roam_migrate.specs.Carrying.{AreChanged};
ghost use Rattle.roam_history.specs.Looks.{StandsThen, WouldLose};

use crate::hub::Hub;
use crate::locking::wait_for;
use roam_conf::Config;
use roam_history::{Opened, Seat};
use roam_migrate::Loss;
use roam_realm::Gauges;
use std::alloc::Allocator;
use std::sync::Wait;

impl<A: Allocator + Copy, N: Opened> Hub<'_, A, N> {
    /// Returns how a realm stands, in numbers, where its shard's history ends now: no earlier than the seat has seen
    /// it. None where the realm isn't configured, or the lock holds another shard's trace. Waits for the shard's lock,
    /// records nothing, and takes no memory.
    pub fn look<R: Wait>(&self, rt: &R, seat: &Seat<A, N>, realm: u16) -> Option<Gauges>
        ensures { IfSome result (StandsThen N.opening realm seat.now) }
    {
        let shard = self.config.shard_of(realm);
        wait_for(rt, &self.locks[usize::from(shard)]).gauges(seat, shard, realm)
    }

    /// Returns what goes of a realm where another configuration is followed, in which these peers have other tables:
    /// as it stands where its shard's history ends now. None as for `look`. Waits for the shard's lock, records
    /// nothing, and takes no memory.
    pub fn losses<R: Wait>(
        &self,
        rt: &R,
        seat: &Seat<A, N>,
        realm: u16,
        next: &Config,
        changed: &[u16],
    ) -> Option<Loss>
        requires { AreChanged N.opening.config.peers (shown next.now).peers changed.now }
        ensures { IfSome result (WouldLose N.opening (shown next.now) realm seat.now) }
    {
        let shard = self.config.shard_of(realm);
        wait_for(rt, &self.locks[usize::from(shard)]).losses(seat, shard, realm, next, changed)
    }
}
