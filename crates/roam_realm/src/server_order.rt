//! The home servers of a request, in the order of their use: in configured order, or turned by its user.

ghost use Rattle.std.specs.Prelude.{◌≡◌, ◌<◌, ◌≤◌, IfSome, Some, drop, is_some, length, slice_get, take};
ghost use Rattle.std.specs.Int.{w32, from_be_bytes};
ghost use Rattle.roam_conf.specs.Config.{ServerView};
ghost use Rattle.roam_wire.specs.Reading.{IsPacketText, packet_of};
ghost use Rattle.roam_realm.specs.RealmConfig.{service_at, service_of};
ghost use Rattle.roam_realm.specs.ServerOrder.{behind, digest_number, in_order, links_from, links_to, order_by};
ghost use Rattle.roam_realm.specs.ServerOrder.{places_of, servers_from};
ghost use Rattle.roam_realm.specs.ServerOrder.{start_of, user_octets, user_start};

use crate::realm_settings::RealmSettings;
use crate::service::Service;
use md5::{Digest, Md5};
use roam_wire::View;
use roam_wire::attribute_type::USER_NAME;

/// The attribute type of a Calling-Station-Id (RFC 2865, section 5.31).
pub const CALLING_STATION_ID: u8 = 31;

/// The home servers of a service in the order in which a request goes to them, from a place of this order on.
#[derive(Clone, Copy)]
pub struct ServersFrom {
    pub service: Service,
    /// The one of the service's servers, in configured order, with which the order begins.
    pub start: u8,
    /// How many of the order were passed.
    pub passed: u8,
}

/// Returns the octets by which a request's user is told: its first Calling-Station-Id, or else its first User-Name.
fn user_octets<'a>(request: &View<'a>) -> &'a [u8]
    ensures { result.now ≡ user_octets request.now.attributes }
{
    match request.first(CALLING_STATION_ID) {
        Some(station) => station,
        None => match request.first(USER_NAME) {
            Some(name) => name,
            None => b"",
        },
    }
}

/// Returns the number in the first four octets, big-endian.
fn first_number(octets: &[u8]) -> u32
    requires { 4 ≤ length octets.now }
    ensures { result ≡ from_be_bytes w32 (take 4 octets.now) }
{
    u32::from_be_bytes([octets[0], octets[1], octets[2], octets[3]])
}

/// Returns the number in the first four octets of some octets' MD5.
fn digest_number(octets: &[u8]) -> u32
    ensures { result ≡ digest_number octets.now }
{
    let mut hasher = Md5::new();
    hasher.update(octets);
    let digest = hasher.finalize();
    first_number(&digest)
}

/// Returns with which of so many servers the user of a request begins.
fn user_start(request: &View<'_>, count: u8) -> u8
    ensures { result ≡ user_start request.now.attributes count }
{
    if count == 0 {
        return 0;
    }
    (digest_number(user_octets(request)) % u32::from(count)) as u8
}

impl RealmSettings<'_> {
    /// Returns whether the server of a place takes requests of a service.
    fn serves(&self, service: Service, server: u8) -> bool
        requires { server < length self.now.realm.servers }
        ensures { (s : ServerView) → slice_get self.now.realm.servers server ≡ Some s
            → result ≡ is_some (service_at service s) }
    {
        self.service_at(service, server).is_some()
    }

    /// Returns how many servers take requests of a service: at most 8.
    fn service_count(&self, service: Service) -> u8
        ensures count { result ≡ length (places_of service 0 self.now.realm.servers) }
        ensures few { result ≤ 8 }
    {
        let mut count = 0;
        for server in 0..self.server_count() {
            if self.serves(service, server as u8) {
                count += 1;
            }
        }
        count
    }

    /// Returns the place of the nth of the servers that take requests of a service, in configured order from 0.
    fn nth_of_service(&self, service: Service, nth: u8) -> Option<u8>
        ensures nth { result ≡ slice_get (places_of service 0 self.now.realm.servers) nth }
        ensures there { IfSome result (λ server. server < length self.now.realm.servers) }
    {
        let mut before = nth;
        for server in 0..self.server_count() {
            if self.serves(service, server as u8) {
                if before == 0 {
                    return Some(server as u8);
                }
                before -= 1;
            }
        }
        None
    }

    /// Returns the place of the nth server of an order, from 0.
    pub(crate) fn nth_in_order(&self, servers: ServersFrom, nth: u8) -> Option<u8>
        ensures nth { result ≡ slice_get (in_order self.now servers) nth }
        ensures there { IfSome result (λ server. server < length self.now.realm.servers) }
    {
        let count = self.service_count(servers.service);
        let to_end = count.saturating_sub(servers.start);
        if nth < to_end {
            self.nth_of_service(servers.service, servers.start + nth)
        } else if nth < count {
            self.nth_of_service(servers.service, nth - to_end)
        } else {
            None
        }
    }

    /// Returns how many servers an order has: at most 8.
    pub(crate) fn order_count(&self, servers: ServersFrom) -> u8
        ensures count { result ≡ length (in_order self.now servers) }
        ensures few { result ≤ 8 }
    {
        self.service_count(servers.service)
    }

    /// Returns with which of a service's servers the order for a request begins.
    fn start_of(&self, service: Service, request: &View<'_>) -> u8
        ensures { result ≡ start_of self.now request.now.attributes
            (length (places_of service 0 self.now.realm.servers)) }
    {
        if self.is_by_user() {
            user_start(request, self.service_count(service))
        } else {
            0
        }
    }

    /// Returns the servers of a service, in the order of their use for a request.
    fn servers_of(&self, service: Service, request: &View<'_>) -> ServersFrom
        ensures service { result.service ≡ service }
        ensures order { servers_from self.now result ≡ order_by self.now service request.now.attributes }
        ensures whole { in_order self.now result ≡ order_by self.now service request.now.attributes }
    {
        ServersFrom {
            service,
            start: self.start_of(service, request),
            passed: 0,
        }
    }

    /// Returns the servers of the service that a request asks for, in the order of their use.
    pub fn servers_for(&self, request: &View<'_>) -> ServersFrom
        ensures { links_from self.now result ≡ links_to self.now (service_of request.now.code)
            (order_by self.now (service_of request.now.code) request.now.attributes) }
    {
        self.servers_of(Service::of_code(request.code()), request)
    }

    /// Returns how many servers of an order are passed once one is: all where it isn't there.
    fn passed_with(&self, servers: ServersFrom, server: u8) -> u8
        ensures { drop result (in_order self.now servers) ≡ behind server (in_order self.now servers) }
    {
        let count = self.order_count(servers);
        for nth in 0..count {
            if self.nth_in_order(servers, nth) == Some(server) {
                return nth + 1;
            }
        }
        count
    }

    /// Returns the servers behind one, in the order of their use for a request of a service, whose octets these are.
    pub fn servers_behind(&self, service: Service, server: u8, request: &[u8]) -> ServersFrom
        requires { IsPacketText request.now }
        ensures { links_from self.now result ≡ links_to self.now service
            (behind server (order_by self.now service (packet_of request.now).attributes)) }
    {
        let all = self.servers_of(service, &View::of_packet(request));
        ServersFrom {
            service,
            start: all.start,
            passed: self.passed_with(all, server),
        }
    }
}
