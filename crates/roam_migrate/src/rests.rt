//! The links of a realm that are marked dead, when it goes on under another part of a configuration.

ghost use Rattle.std.specs.Prelude.{◌≡◌, ◌<◌, length, map, slice_index_or};
ghost use Rattle.roam_conf.specs.Lookup.{out_of};
ghost use Rattle.roam_realm.specs.RealmConfig.{IsLink, end_place, server_link_count};
ghost use Rattle.roam_realm.specs.Rests.{awake};
ghost use Rattle.roam_realm.specs.Stays.{RestsBecome};
ghost use Rattle.roam_migrate.specs.Reload.{rest_then, rests_then, server_links_of};

use crate::ends::link_before;
use crate::lanes::link_to_end;
use roam_conf::Link;
use roam_realm::{RealmNumbers, RealmSettings, Rest};
use roam_reload::has_same_servers;
use std::alloc::Allocator;

/// Returns how the link of a place is marked dead, and a state that isn't marked dead where there is none.
fn rest_at(rests: &[Rest], place: usize) -> Rest
    ensures { result ≡ slice_index_or rests.now place awake }
{
    match rests.get(place) {
        Some(rest) => *rest,
        None => Rest::awake(),
    }
}

/// Returns how a server's end rests then, by the first link to it: as it did, if it was there and the same.
fn rest_then(old: &RealmSettings<'_>, new: &RealmSettings<'_>, before: &[Rest], link: Link) -> Rest
    requires link { IsLink new.now link }
    requires server { end_place new.now link < server_link_count new.now }
    requires first { out_of link ≡ 0 }
    ensures { result ≡ rest_then old.now new.now before.now link }
{
    let _outs = old.out_count();
    match link_before(old, new, link) {
        Some(link) => rest_at(before, old.end_place(link)),
        None => Rest::awake(),
    }
}

/// Moves to their places how the servers' links are marked dead.
fn move_rests<A: Allocator>(
    old: &RealmSettings<'_>,
    new: &RealmSettings<'_>,
    before: &[Rest],
    after: &mut Vec<Rest, A>,
)
    requires { length after.old.items ≡ server_link_count new.now }
    ensures { after.new.items ≡ map (rest_then old.now new.now before.now) (server_links_of new.now) }
{
    let _outs = new.out_count();
    for place in 0..after.len() {
        after[place] = rest_then(old, new, before, link_to_end(new, place, 0));
    }
}

/// Returns how the servers' links are marked dead then: as they are, where all stand where they stood; else in a list
/// that has a place for each. Takes no memory.
pub(crate) fn take_rests<A: Allocator + Copy>(
    old: &RealmSettings<'_>,
    new: &RealmSettings<'_>,
    numbers: &mut RealmNumbers<A>,
    mut rests: Vec<Rest, A>,
)
    requires { length rests.items ≡ server_link_count new.now }
    ensures { RestsBecome (rests_then old.now new.now numbers.old.rests.items) numbers.old numbers.new }
{
    if !has_same_servers(old.realm(), new.realm()) {
        move_rests(old, new, numbers.rests.as_slice(), &mut rests);
        numbers.rests = rests;
    }
}
