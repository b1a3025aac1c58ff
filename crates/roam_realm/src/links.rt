//! The links of a realm, and their ends, as the configuration has them. None of this takes memory.

ghost use Rattle.std.specs.Prelude.{◌≡◌, ◌↔◌, ◌<◌, ◌≤◌, ◌+◌, IsTrue, Some, length, slice_get};
ghost use Rattle.roam_conf.specs.Config.{ServerView};
ghost use Rattle.roam_conf.specs.Lookup.{end_of, out_of};
ghost use Rattle.roam_conf.specs.Ways.{is_way};
ghost use Rattle.roam_realm.specs.Private.Ends.{IsEnd};
ghost use Rattle.roam_realm.specs.RealmConfig.{IsLink, coa_of, end_place, link_count, link_endpoint, link_place};
ghost use Rattle.roam_realm.specs.RealmConfig.{server_link_count, service_at};

use crate::nowhere::NOWHERE;
use crate::realm_settings::RealmSettings;
use crate::service::Service;
use roam_conf::{Endpoint, Link};

impl RealmSettings<'_> {
    /// Returns how many outgoing sockets the realm has: 1 to 16.
    pub fn out_count(&self) -> usize
        ensures count { result ≡ length self.now.realm.out }
        ensures some { 1 ≤ result }
        ensures few { result ≤ 16 }
    {
        self.realm().out.len()
    }

    /// Returns whether the realm's `out` of this place sends to an endpoint.
    pub fn is_way(&self, out: usize, endpoint: Endpoint) -> bool
        ensures { result ≡ is_way self.now.realm.out out endpoint }
    {
        self.realm().is_way(out, endpoint)
    }

    /// Returns where a server takes the requests of a service, if it does.
    pub(crate) fn service_at(&self, service: Service, server: u8) -> Option<Endpoint>
        requires { server < length self.now.realm.servers }
        ensures { (s : ServerView) → slice_get self.now.realm.servers server ≡ Some s
            → result ≡ service_at service s }
    {
        match service {
            Service::Authentication => self.server(server).auth,
            Service::Accounting => self.server(server).acct,
        }
    }

    /// Returns where a peer takes reverse requests, if it does.
    pub(crate) fn coa_of(&self, peer: u16) -> Option<Endpoint>
        requires { peer < length self.now.peers }
        ensures { result ≡ coa_of self.now peer }
    {
        self.peer(peer).coa
    }

    /// Returns where what goes to a link arrives, by whichever `out`.
    fn end_of(&self, link: Link) -> Option<Endpoint>
        requires { IsLink self.now link }
        ensures { result ≡ end_of self.now.peers self.now.realm link }
    {
        match link {
            Link::Auth(server, _) => self.service_at(Service::Authentication, server),
            Link::Acct(server, _) => self.service_at(Service::Accounting, server),
            Link::Coa(peer, _) => self.coa_of(peer),
        }
    }

    /// Returns the place of a link's socket in the realm's `out`.
    pub fn out_of(&self, link: Link) -> u8
        ensures place { result ≡ out_of link }
        ensures below { IsLink self.now link → result < length self.now.realm.out }
    {
        match link {
            Link::Auth(_, out) | Link::Acct(_, out) | Link::Coa(_, out) => out,
        }
    }

    /// Returns the endpoint of a link of the realm.
    pub fn endpoint_of(&self, link: Link) -> Endpoint
        requires { IsLink self.now link }
        ensures { result ≡ link_endpoint self.now link }
    {
        match self.end_of(link) {
            Some(endpoint) if self.is_way(usize::from(self.out_of(link)), endpoint) => endpoint,
            _ => NOWHERE,
        }
    }

    /// Returns how many places there are for the ends of links.
    pub fn end_count(&self) -> usize
        ensures count { result ≡ server_link_count self.now + length self.now.peers }
        ensures few { result ≤ 1040 }
    {
        2 * self.server_count() + self.peer_count()
    }

    /// Returns how many places there are for links: at each end one for each `out`.
    pub fn link_count(&self) -> usize
        ensures count { result ≡ link_count self.now }
        ensures few { result ≤ 16640 }
    {
        self.end_count() * self.out_count()
    }

    /// Returns whether a link's end is the realm's.
    fn has_end(&self, link: Link) -> bool
        ensures { IsTrue result ↔ (end_place self.now link < server_link_count self.now + length self.now.peers)
            × IsEnd self.now link }
    {
        match link {
            Link::Auth(server, _) | Link::Acct(server, _) => {
                usize::from(server) < self.server_count()
            }
            Link::Coa(peer, _) => usize::from(peer) < self.peer_count(),
        }
    }

    /// Returns whether a link is the realm's.
    pub fn has_link(&self, link: Link) -> bool
        ensures { IsTrue result ↔ IsLink self.now link }
    {
        self.has_end(link) && usize::from(self.out_of(link)) < self.out_count()
    }

    /// Returns the place of a link's end among the realm's ends.
    pub fn end_place(&self, link: Link) -> usize
        requires { IsLink self.now link }
        ensures place { result ≡ end_place self.now link }
        ensures below { result < server_link_count self.now + length self.now.peers }
    {
        let servers = self.server_count();
        let _peers = self.peer_count();
        match link {
            Link::Auth(server, _) => usize::from(server),
            Link::Acct(server, _) => servers + usize::from(server),
            Link::Coa(peer, _) => 2 * servers + usize::from(peer),
        }
    }

    /// Returns the place of a link among the realm's links.
    pub fn place_of(&self, link: Link) -> usize
        requires { IsLink self.now link }
        ensures place { result ≡ link_place self.now link }
        ensures below { result < link_count self.now }
    {
        let _ends = self.end_count();
        self.end_place(link) * self.out_count() + usize::from(self.out_of(link))
    }
}
