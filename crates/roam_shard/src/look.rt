//! The parts of a shard that are looked at, beside its events. Nothing changes by it, and nothing takes memory.

ghost use Rattle.std.specs.Prelude.{◌≡◌, Some, slice_get, IfNone, IfSome, IsSome};
ghost use Rattle.roam_core.specs.ManyRealms.{state_at};
ghost use Rattle.roam_conf.specs.Shown.{shown};
ghost use Rattle.roam_migrate.specs.Carrying.{AreChanged};
ghost use Rattle.roam_shard.specs.Looks.{IsLoss, IsOwn, NoneThere, StandsAs};

use crate::shard::Shard;
use roam_conf::Config;
use roam_migrate::{Loss, all_of, losses_of};
use roam_pending::Entries;
use roam_realm::{Gauges, RealmNumbers, RealmSettings};
use roam_reload::is_carried;
use std::alloc::Allocator;

/// Returns the numbers of a realm, where it is one of the shard's own.
pub(crate) fn numbers_at<A: Allocator>(
    numbers: &[Option<RealmNumbers<A>>],
    realm: u16,
) -> Option<&RealmNumbers<A>>
    ensures some { IfSome result (λ n. slice_get numbers.now realm ≡ Some (Some n.now)) }
    ensures none { IfNone result (NoneThere numbers.now realm) }
{
    if usize::from(realm) >= numbers.len() {
        return None;
    }
    match &numbers[usize::from(realm)] {
        Some(numbers) => Some(numbers),
        None => None,
    }
}

impl<A: Allocator + Copy> Shard<'_, A> {
    /// Returns how a realm stands; none where it isn't one of the shard's own.
    pub fn gauges(&self, realm: u16) -> Option<Gauges>
        ensures stands { IfSome result (StandsAs (state_at self.now.states realm)) }
        ensures there { IsOwn self.now.opening realm → IsSome result }
    {
        let Some(numbers) = numbers_at(&self.numbers, realm) else {
            return None;
        };
        let settings = RealmSettings::new(self.opening.config, realm);
        Some(numbers.gauges(self.entries.len(realm), settings.out_count()))
    }

    /// Returns what goes of a realm where another configuration is followed, in which these peers have other tables;
    /// none where it isn't one of the shard's own.
    pub fn losses(&self, realm: u16, next: &Config, changed: &[u16]) -> Option<Loss>
        requires { AreChanged self.now.opening.config.peers (shown next.now).peers changed.now }
        ensures { IfSome result (IsLoss self.now.opening.config (shown next.now) realm
            (state_at self.now.states realm)) }
    {
        let Some(numbers) = numbers_at(&self.numbers, realm) else {
            return None;
        };
        let old = RealmSettings::new(self.opening.config, realm);
        if !is_carried(self.opening.config, next, realm) {
            return Some(all_of(&old, &self.entries, numbers));
        }
        let new = RealmSettings::new(next, realm);
        Some(losses_of(&old, &new, changed, &self.entries, numbers))
    }
}
