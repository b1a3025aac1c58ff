//! Laws of the look-ups.

ghost use Rattle.std.specs.Prelude.{◌≡◌, ◌≢◌, ◌&&◌, ℕ, List, ◌<◌, [], false, length, None, not, Some, true, ⊤};
ghost use Rattle.std.specs.List.{AllByRecursion};
ghost use Rattle.std.specs.Str.{str_eq_ignore_ascii_case};
ghost use Rattle.roam_conf.specs.Config.{whole, suffix, any};
ghost use Rattle.roam_conf.specs.Lookup.{EndsIn, NoSuffix, first_place, realm_named, realm_owning, realm_owned};
ghost use Rattle.roam_conf.specs.Lookup.{owner_with, may_fit, link_in, out_of};
ghost use Rattle.roam_conf.specs.Lookup.{endpoint_in_realm};
ghost use Rattle.roam_conf.specs.Shown.{shown};
ghost use Rattle.roam_conf.specs.Targets.{exactly, begins, BeginsWith, peer_with_nas, peer_meant};

use crate::{Config, Endpoint, Link};

/// States that the link that is found for an endpoint at an `out` is one that ends there, and that its packets leave
/// from that `out`.
pub fn link_of_finds_its_endpoint(
    config: &Config,
    realm: u16,
    out: u16,
    endpoint: Endpoint,
    link: Link,
)
    requires { link_in (shown config.now) realm out endpoint ≡ Some link }
    ensures ends { endpoint_in_realm (shown config.now) realm link ≡ Some endpoint }
    ensures leaves { out_of link ≡ out }
{}

/// States that each link of a realm is the one that is found for its endpoint at its `out`, since no two of that
/// `out` end there.
pub fn link_of_finds_each_link(config: &Config, realm: u16, endpoint: Endpoint, link: Link)
    requires { endpoint_in_realm (shown config.now) realm link ≡ Some endpoint }
    ensures { link_in (shown config.now) realm (out_of link) endpoint ≡ Some link }
{}

/// States that the realm whose name it is comes first, whatever patterns there are.
pub fn whole_name_comes_first(config: &Config, name: &[u8], owner: u16)
    requires { owner_with (shown config.now) (whole name.now) ≡ Some owner }
    ensures { realm_named (shown config.now) name.now ≡ realm_owning (shown config.now) owner }
{}

/// States that of the suffixes in which the name ends, the longest that has an owner decides, where the name itself
/// has no owner.
pub fn longest_suffix_comes_next(config: &Config, name: &[u8], ending: &[u8], owner: u16)
    requires unnamed { owner_with (shown config.now) (whole name.now) ≡ None }
    requires fits { may_fit (shown config.now) name.now ≡ true }
    requires ends { EndsIn name.now ending.now }
    requires named { owner_with (shown config.now) (suffix ending.now) ≡ Some owner }
    requires longest { NoSuffix (λ longer. length ending.now < length longer) (shown config.now) name.now }
    ensures { realm_named (shown config.now) name.now ≡ realm_owning (shown config.now) owner }
{}

/// States that the realm of any name comes last.
pub fn any_name_comes_last(config: &Config, name: &[u8])
    requires some { name.now ≢ [] }
    requires unnamed { owner_with (shown config.now) (whole name.now) ≡ None }
    requires fits { may_fit (shown config.now) name.now ≡ true }
    requires no_suffix { NoSuffix (λ ending. ⊤) (shown config.now) name.now }
    ensures { realm_named (shown config.now) name.now
        ≡ realm_owned (shown config.now) (owner_with (shown config.now) any) }
{}

/// States that a name that fits no pattern, since it has to be well formed and isn't, is matched whole.
pub fn ill_formed_names_are_matched_whole(config: &Config, name: &[u8])
    requires { may_fit (shown config.now) name.now ≡ false }
    ensures { realm_named (shown config.now) name.now
        ≡ realm_owned (shown config.now) (owner_with (shown config.now) (whole name.now)) }
{}

/// States that where no realm has a pattern, and nothing is rejected, a name means the realm that is here whose name it
/// is, matched whole.
pub fn names_alone_are_matched_whole(config: &Config, name: &[u8])
    requires realms { AllByRecursion (λ realm. realm.also ≡ []) (shown config.now).realms }
    requires reject { (shown config.now).reject ≡ [] }
    ensures { realm_named (shown config.now) name.now
        ≡ first_place (λ realm. not realm.gone && str_eq_ignore_ascii_case name.now realm.name)
        (shown config.now).realms }
{}

/// States that the peer that has a NAS-Identifier as a whole comes first, whatever patterns there are.
pub fn whole_identifier_comes_first(config: &Config, name: &[u8], peer: u16)
    requires { peer_with_nas (shown config.now).peers (exactly name.now) ≡ Some peer }
    ensures { peer_meant (shown config.now).peers name.now ≡ Some peer }
{}

/// States that of the patterns that a NAS-Identifier fits, the longest that a peer has decides, where no peer has the
/// whole.
pub fn longest_front_comes_next(config: &Config, name: &[u8], front: &[u8], peer: u16)
    requires unnamed { peer_with_nas (shown config.now).peers (exactly name.now) ≡ None }
    requires begins { BeginsWith name.now front.now }
    requires named { peer_with_nas (shown config.now).peers (begins front.now) ≡ Some peer }
    requires longest { (longer : List ℕ) → BeginsWith name.now longer → length front.now < length longer
        → peer_with_nas (shown config.now).peers (begins longer) ≡ None }
    ensures { peer_meant (shown config.now).peers name.now ≡ Some peer }
{}
