//! The servers' links that do not answer, and the signs of life that they give.

ghost use Rattle.std.specs.Prelude.{◌≡◌, ◌≤◌, ◌^◌, length};
ghost use Rattle.roam_realm.specs.Conversing.{rests_chosen, same_end};
ghost use Rattle.roam_realm.specs.RealmConfig.{IsLink, link_count};
ghost use Rattle.roam_realm.specs.Rests.{after_choice, after_sign, after_silence, has_moment, rest_of};
ghost use Rattle.roam_realm.specs.Rests.{signs_of, with_rest};
ghost use Rattle.roam_realm.specs.Stays.{RestsBecome};
ghost use Rattle.roam_realm.specs.Sound.{is_sought, is_wanted};

use crate::realm_numbers::RealmNumbers;
use crate::realm_settings::RealmSettings;
use crate::rest::Rest;
use roam_conf::Link;
use std::alloc::Allocator;

/// The links that are wanted for a request.
#[derive(Clone, Copy)]
pub enum Wanted {
    /// All.
    Any,
    /// Those that don't stand back at this moment, in milliseconds.
    NotBackAt(u64),
    /// This one.
    This(Link),
    /// Those to the same end as this one, by whichever `out`.
    SameEnd(Link),
    /// Those that have no moment until which they rest.
    Untried,
}

/// Returns whether two links lead to one end.
fn is_same_end(a: Link, b: Link) -> bool
    ensures { result ≡ same_end a b }
{
    match (a, b) {
        (Link::Auth(a, _), Link::Auth(b, _)) => a == b,
        (Link::Acct(a, _), Link::Acct(b, _)) => a == b,
        (Link::Coa(a, _), Link::Coa(b, _)) => a == b,
        _ => false,
    }
}

impl<A: Allocator + Copy> RealmNumbers<A> {
    /// Returns how a link rests: a peer's `coa` never does.
    fn rest_of(&self, settings: &RealmSettings<'_>, link: Link) -> Rest
        requires link { IsLink settings.now link }
        ensures { result ≡ rest_of settings.now self.now.rests.items link }
    {
        let place = settings.end_place(link);
        if place < self.rests.len() {
            self.rests[place]
        } else {
            Rest::awake()
        }
    }

    /// Returns how many signs of life a link has given, modulo 2^64.
    pub fn signs_of(&self, settings: &RealmSettings<'_>, link: Link) -> u64
        requires link { IsLink settings.now link }
        ensures { result ≡ signs_of settings.now self.now.rests.items link }
    {
        self.rest_of(settings, link).signs
    }

    /// Returns whether a link has a moment until which it rests, in the past or not.
    fn has_moment(&self, settings: &RealmSettings<'_>, link: Link) -> bool
        requires link { IsLink settings.now link }
        ensures { result ≡ has_moment settings.now self.now.rests.items link }
    {
        self.rest_of(settings, link).until.is_some()
    }

    /// Returns whether a link is one that is wanted.
    fn is_wanted(&self, settings: &RealmSettings<'_>, wanted: Wanted, link: Link) -> bool
        requires link { IsLink settings.now link }
        ensures { result ≡ is_wanted settings.now self.now.rests.items wanted link }
    {
        match wanted {
            Wanted::Any => true,
            Wanted::NotBackAt(now) => !self.rest_of(settings, link).is_resting(now),
            Wanted::This(only) => only == link,
            Wanted::SameEnd(other) => is_same_end(other, link),
            Wanted::Untried => !self.has_moment(settings, link),
        }
    }

    /// Returns whether a link is wanted, and has a free Identifier, or is `freed`.
    pub(crate) fn is_sought(
        &self,
        settings: &RealmSettings<'_>,
        wanted: Wanted,
        freed: Option<Link>,
        link: Link,
    ) -> bool
        requires link { IsLink settings.now link }
        requires count { length self.now.lanes.items ≡ link_count settings.now }
        ensures { result ≡ is_sought settings.now self.now.rests.items self.now.lanes.items wanted freed link }
    {
        self.is_wanted(settings, wanted, link) && self.is_open(settings, freed, link)
    }

    /// Writes how a link rests: a peer's `coa` never does, and the rests stay.
    fn set_rest(&mut self, settings: &RealmSettings<'_>, link: Link, rest: Rest)
        requires link { IsLink settings.now link }
        ensures { RestsBecome (with_rest settings.now self.old.rests.items link rest)
            self.old self.new }
    {
        let place = settings.end_place(link);
        if place < self.rests.len() {
            self.rests[place] = rest;
        }
    }

    /// Notes that a link was chosen as a target: where it has a moment until which it is marked dead, in the past or
    /// not, that is `now + rest` from now on.
    pub fn put_off(&mut self, settings: &RealmSettings<'_>, now: u64, link: Link)
        requires moment { now ≤ 2 ^ 62 }
        requires link { IsLink settings.now link }
        ensures { RestsBecome (after_choice settings.now now self.old.rests.items link)
            self.old self.new }
    {
        let rest = self.rest_of(settings, link).once_chosen(settings, now);
        self.set_rest(settings, link, rest);
    }

    /// Notes that a link was chosen as a target, where no conversation bound the request to the link: then a moment
    /// until which it is marked dead is `now + rest` from now on.
    pub fn put_off_unless(
        &mut self,
        settings: &RealmSettings<'_>,
        now: u64,
        link: Link,
        bound: bool,
    )
        requires moment { now ≤ 2 ^ 62 }
        requires link { IsLink settings.now link }
        ensures { RestsBecome (rests_chosen settings.now now self.old.rests.items bound link)
            self.old self.new }
    {
        if !bound {
            self.put_off(settings, now, link);
        }
    }

    /// Counts a request that was given up at a link. Its packet was built when the link had given so many signs of
    /// life: where the link gave none since, that is counted there, and where it was so often enough, the link is
    /// marked dead. Where the realm's `rest` is 0 nothing is counted.
    pub fn count_silence(&mut self, settings: &RealmSettings<'_>, now: u64, link: Link, signs: u64)
        requires moment { now ≤ 2 ^ 62 }
        requires link { IsLink settings.now link }
        ensures { RestsBecome (after_silence settings.now now self.old.rests.items link signs)
            self.old self.new }
    {
        if settings.rest() > 0 && self.signs_of(settings, link) == signs {
            let rest = self.rest_of(settings, link).once_silent(settings, now);
            self.set_rest(settings, link, rest);
        }
    }

    /// Notes that a link gave a sign of life: it isn't marked dead, and no request counts as given up there.
    pub fn hear(&mut self, settings: &RealmSettings<'_>, link: Link)
        requires link { IsLink settings.now link }
        ensures { RestsBecome (after_sign settings.now self.old.rests.items link)
            self.old self.new }
    {
        let rest = self.rest_of(settings, link).once_heard();
        self.set_rest(settings, link, rest);
    }
}
