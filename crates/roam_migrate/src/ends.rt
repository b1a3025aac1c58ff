//! The ends of an entry when its realm goes on under another part of a configuration: its sender, and its link.

ghost use Rattle.std.specs.Prelude.{◌≡◌, ◌<◌, IfSome, IfNone, Some, None, false, if◌then◌else◌, length, option_and_then, option_map, true};
ghost use Rattle.roam_wire.specs.Reading.{IsPacketText, packet_of};
ghost use Rattle.roam_pending.specs.Realms.{with_ends, with_home};
ghost use Rattle.roam_pending.specs.Shown.{shown, shown_request};
ghost use Rattle.roam_reload.specs.Kept.{keeps_coa, keeps_request, keeps_source, of_peer};
ghost use Rattle.roam_realm.specs.RealmConfig.{RealmConfig};
ghost use Rattle.roam_realm.specs.Sound.{IsOfPeer, IsRequest};
ghost use Rattle.roam_migrate.specs.Reload.{entry_then, fits, link_before, link_then, request_from, request_then};
ghost use Rattle.roam_migrate.specs.Reload.{way_before, way_then};

use roam_conf::{Address, Link};
use roam_forward::can_be_shaped;
use roam_pending::{Entry, Request, Requester, Standing};
use roam_realm::RealmSettings;
use roam_reload::{home_then, is_same_out, peer_keeps_coa, peer_keeps_secret, server_then};
use roam_wire::View;
use std::alloc::Allocator;

/// The numbers that the ends of an entry have: of the home server that sent it, where one did, and of the link where it
/// waits, or from which its held reply came, if it keeps one.
#[derive(Clone, Copy)]
pub(crate) struct Ends {
    pub(crate) home: Option<u8>,
    pub(crate) link: Option<Link>,
}

/// Returns the link to the `auth` of a server by an `out`, if there is one.
fn auth_of(server: Option<u8>, out: u8) -> Option<Link>
    ensures { result ≡ option_map (λ s. Link.Auth s out) server }
{
    match server {
        Some(server) => Some(Link::Auth(server, out)),
        None => None,
    }
}

/// Returns the link to the `acct` of a server by an `out`, if there is one.
fn acct_of(server: Option<u8>, out: u8) -> Option<Link>
    ensures { result ≡ option_map (λ s. Link.Acct s out) server }
{
    match server {
        Some(server) => Some(Link::Acct(server, out)),
        None => None,
    }
}

/// Returns the link to the `coa` of a peer by an `out`, where that `coa` is the same in both.
fn coa_of(old: &RealmSettings<'_>, new: &RealmSettings<'_>, peer: u16, out: u8) -> Option<Link>
    ensures { result ≡ (if of_peer keeps_coa old.now.peers new.now.peers peer then Some (Link.Coa peer out) else None) }
{
    if peer_keeps_coa(old.peers(), new.peers(), peer) {
        Some(Link::Coa(peer, out))
    } else {
        None
    }
}

/// Returns the link under the new settings that a link of the old ones is, if it is there and the same.
pub(crate) fn link_then(
    old: &RealmSettings<'_>,
    new: &RealmSettings<'_>,
    link: Link,
) -> Option<Link>
    ensures { result ≡ link_then old.now new.now link }
{
    match link {
        Link::Auth(server, out) => auth_of(server_then(old.realm(), new.realm(), server), out),
        Link::Acct(server, out) => acct_of(server_then(old.realm(), new.realm(), server), out),
        Link::Coa(peer, out) => coa_of(old, new, peer, out),
    }
}

/// Returns the link under the old settings that a link of the new ones was, if it was there and the same.
pub(crate) fn link_before(
    old: &RealmSettings<'_>,
    new: &RealmSettings<'_>,
    link: Link,
) -> Option<Link>
    ensures { result ≡ link_before old.now new.now link }
{
    match link {
        Link::Auth(server, out) => auth_of(server_then(new.realm(), old.realm(), server), out),
        Link::Acct(server, out) => acct_of(server_then(new.realm(), old.realm(), server), out),
        Link::Coa(peer, out) => coa_of(old, new, peer, out),
    }
}

/// Returns the link under the new settings that a link of the old ones is, if it is there and the same, and forwarded
/// packets leave from the same `out`.
fn way_then(old: &RealmSettings<'_>, new: &RealmSettings<'_>, link: Link) -> Option<Link>
    ensures { result ≡ way_then old.now new.now link }
{
    if is_same_out(old.realm(), new.realm(), new.out_of(link)) {
        link_then(old, new, link)
    } else {
        None
    }
}

/// Returns the link under the old settings that a link of the new ones was, if it was there and the same, and
/// forwarded packets left from the same `out`.
pub(crate) fn way_before(
    old: &RealmSettings<'_>,
    new: &RealmSettings<'_>,
    link: Link,
) -> Option<Link>
    ensures { result ≡ way_before old.now new.now link }
{
    if is_same_out(old.realm(), new.realm(), new.out_of(link)) {
        link_before(old, new, link)
    } else {
        None
    }
}

/// Returns whether a peer's request can be forwarded with what is added for it then.
fn still_fits<A: Allocator>(new: &RealmSettings<'_>, peer: u16, request: &Request<A>) -> bool
    requires peer { peer < length new.now.peers }
    requires packet { IsPacketText request.now.octets }
    ensures { (c : RealmConfig) → IsOfPeer c peer (packet_of request.now.octets)
        → result ≡ fits new.now peer (shown_request request.now) }
{
    let packet = View::of_packet(request.octets.as_slice());
    can_be_shaped(&packet, &new.shaping_from(peer))
}

/// Returns whether a source that was a peer's still is.
fn keeps_source(old: &RealmSettings<'_>, new: &RealmSettings<'_>, peer: u16, ip: Address) -> bool
    ensures { result ≡ keeps_source old.now.peers new.now.peers peer ip }
{
    new.is_source_of(peer, ip) || !old.is_source_of(peer, ip)
}

/// Returns whether the requests of a peer stay that came from an address.
fn keeps_request(old: &RealmSettings<'_>, new: &RealmSettings<'_>, peer: u16, ip: Address) -> bool
    ensures { result ≡ keeps_request old.now.peers new.now.peers peer ip }
{
    peer_keeps_secret(old.peers(), new.peers(), peer) && keeps_source(old, new, peer, ip)
}

/// Returns whether a peer's request stays.
fn peer_stays<A: Allocator>(
    old: &RealmSettings<'_>,
    new: &RealmSettings<'_>,
    peer: u16,
    request: &Request<A>,
) -> bool
    requires request { IsRequest old.now (shown_request request.now) }
    requires sender { request.now.requester ≡ Requester.Peer peer }
    ensures stays { result ≡ true → request_then old.now new.now (shown_request request.now)
        ≡ Some (request_from (shown_request request.now) (with_home None request.now.requester)) }
    ensures goes { result ≡ false → request_then old.now new.now (shown_request request.now) ≡ None }
{
    if keeps_request(old, new, peer, request.key.from.ip) {
        still_fits(new, peer, request)
    } else {
        false
    }
}

/// Returns the sender of a request under the new settings: the number of the home server, where one sent it. Returns
/// `None` where its requests don't stay.
fn sender_then<A: Allocator>(
    old: &RealmSettings<'_>,
    new: &RealmSettings<'_>,
    request: &Request<A>,
) -> Option<Option<u8>>
    requires { IsRequest old.now (shown_request request.now) }
    ensures stays { IfSome result (λ home. request_then old.now new.now (shown_request request.now)
        ≡ Some (request_from (shown_request request.now) (with_home home request.now.requester))) }
    ensures goes { IfNone result (request_then old.now new.now (shown_request request.now) ≡ None) }
{
    match request.requester {
        Requester::Peer(peer) => {
            if peer_stays(old, new, peer, request) {
                Some(None)
            } else {
                None
            }
        }
        Requester::Home(home) => {
            match home_then(old.realm(), new.realm(), request.key.from.ip, home) {
                Some(home) => Some(Some(home)),
                None => None,
            }
        }
    }
}

/// Returns the link that a held reply keeps under the new settings, of the one from which it came.
fn held_link(old: &RealmSettings<'_>, new: &RealmSettings<'_>, from: Option<Link>) -> Option<Link>
    ensures { result ≡ option_and_then (way_then old.now new.now) from }
{
    match from {
        Some(link) => way_then(old, new, link),
        None => None,
    }
}

/// Returns the ends, under the new settings, of an entry whose request stays. Returns `None` where it waits at a link
/// that doesn't stay.
fn standing_ends<A: Allocator>(
    old: &RealmSettings<'_>,
    new: &RealmSettings<'_>,
    entry: &Entry<A>,
    home: Option<u8>,
) -> Option<Ends>
    requires { request_then old.now new.now (shown entry.now).request
        ≡ Some (request_from (shown entry.now).request (with_home home (shown entry.now).request.requester)) }
    ensures stays { IfSome result (λ ends. entry_then old.now new.now (shown entry.now)
        ≡ Some (with_ends ends.home ends.link (shown entry.now))) }
    ensures goes { IfNone result (entry_then old.now new.now (shown entry.now) ≡ None) }
{
    match &entry.standing {
        Standing::Waiting(waiting) => {
            match way_then(old, new, waiting.link) {
                Some(link) => {
                    Some(Ends {
                        home,
                        link: Some(link),
                    })
                }
                None => None,
            }
        }
        Standing::Done(done) => {
            Some(Ends {
                home,
                link: held_link(old, new, done.from),
            })
        }
    }
}

/// Returns the ends of an entry under the new settings. Returns `None` where it doesn't stay.
pub(crate) fn ends_then<A: Allocator>(
    old: &RealmSettings<'_>,
    new: &RealmSettings<'_>,
    entry: &Entry<A>,
) -> Option<Ends>
    requires { IsRequest old.now (shown entry.now).request }
    ensures stays { IfSome result (λ ends. entry_then old.now new.now (shown entry.now)
        ≡ Some (with_ends ends.home ends.link (shown entry.now))) }
    ensures goes { IfNone result (entry_then old.now new.now (shown entry.now) ≡ None) }
{
    match sender_then(old, new, &entry.request) {
        Some(home) => standing_ends(old, new, entry, home),
        None => None,
    }
}
