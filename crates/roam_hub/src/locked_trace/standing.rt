//! The state of a realm in the contents of a shard's lock, and what goes of it.

ghost use Rattle.std.specs.Prelude.{◌<◌, IfSome};
ghost use Rattle.roam_conf.specs.Shown.{shown};
ghost use Rattle.roam_migrate.specs.Carrying.{AreChanged};
ghost use Rattle.roam_history.specs.Looks.{LosesIn, StandsIn};

use crate::locked_trace::LockedTrace;
use roam_conf::Config;
use roam_history::{Opened, Seat};
use roam_migrate::Loss;
use roam_realm::Gauges;
use std::alloc::Allocator;

impl<'c, A: Allocator + Copy, N: Opened> LockedTrace<'c, A, N> {
    /// Returns how a realm stands where the history ends; none where it isn't one of the shard's own, or this is
    /// another shard's trace. Takes no memory.
    pub(crate) fn gauges(&self, seat: &Seat<A, N>, shard: u16, realm: u16) -> Option<Gauges>
        requires { shard < N.opening.config.shards }
        ensures { IfSome result (StandsIn N.opening shard realm seat.now) }
    {
        if !self.goes_on(seat, shard) {
            return None;
        }
        self.traced.shard().gauges(realm)
    }

    /// Returns what goes of a realm where another configuration is followed; none as for `gauges`. Takes no memory.
    pub(crate) fn losses(
        &self,
        seat: &Seat<A, N>,
        shard: u16,
        realm: u16,
        next: &Config,
        changed: &[u16],
    ) -> Option<Loss>
        requires shard { shard < N.opening.config.shards }
        requires changed { AreChanged N.opening.config.peers (shown next.now).peers changed.now }
        ensures { IfSome result (LosesIn N.opening (shown next.now) shard realm seat.now) }
    {
        if !self.goes_on(seat, shard) {
            return None;
        }
        self.traced.shard().losses(realm, next, changed)
    }
}
