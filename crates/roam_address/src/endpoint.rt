//! An endpoint, where a packet comes from or goes to: an address and a UDP port.

ghost use Rattle.std.specs.Prelude.{Some};
ghost use Rattle.roam_address.specs.Endpoints.{endpoint_text};

use crate::Address;
use crate::decimals::decimal;
use crate::host::host;
use std::fmt;
use std::fmt::{Display, Formatter, Write};
use std::net::SocketAddr;

/// An address and a UDP port.
#[derive(Clone, Copy, Debug, PartialEq, Eq, Hash)]
pub struct Endpoint {
    pub ip: Address,
    pub port: u16,
}

impl Endpoint {
    ghost use Rattle.std.specs.Prelude.{◌≡◌, ◌≤◌, IfSome, MatchOption};
    ghost use Rattle.std.specs.Net.Socket.{socket_ip, socket_port, IsPlainSocket};
    ghost use Rattle.roam_address.specs.Addresses.{ip_of, IsMapped};
    ghost use Rattle.roam_address.specs.Endpoints.{IsEndpointText};
    ghost use Rattle.roam_address.specs.Reading.{Reads};
    ghost use Rattle.roam_address.specs.Texts.{endpoint_from, endpoint_in};

    /// Makes an endpoint of an address and a port, if both are there.
    fn from_parts(ip: Option<Address>, port: Option<u64>) -> Option<Endpoint>
        requires { IfSome port (λ n. n ≤ 65535) }
        ensures { result ≡ endpoint_from ip port }
    {
        match (ip, port) {
            (Some(ip), Some(port)) => Some(Endpoint {
                ip,
                port: port as u16,
            }),
            _ => None,
        }
    }

    /// Returns what a text states, cut at its last colon.
    fn read(text: &str) -> Option<Endpoint>
        ensures { Reads IsEndpointText text.now result }
    {
        match text.rsplit_once(':') {
            Some((address, port)) => Endpoint::from_parts(host(address), decimal(port, 1, 65535)),
            None => None,
        }
    }

    /// Reads the endpoint that a text states: `a.b.c.d:port` or `[address]:port`, the port from 1 to 65535 without
    /// leading zeros.
    pub fn from_text(text: &str) -> Option<Endpoint>
        ensures states { Reads IsEndpointText text.now result }
        ensures value { result ≡ endpoint_in text.now }
        ensures port { IfSome result (λ e. 1 ≤ e.port) }
    {
        Endpoint::read(text)
    }

    /// Makes the endpoint that the system names so, where its address is one here. Leaves a flow label and a zone
    /// out.
    pub fn from_socket_address(socket: SocketAddr) -> Option<Endpoint>
        ensures { MatchOption result (IsMapped (socket_ip socket))
            (λ e. (ip_of e.ip ≡ socket_ip socket) × (e.port ≡ socket_port socket)) }
    {
        match Address::new(socket.ip()) {
            Some(ip) => Some(Endpoint {
                ip,
                port: socket.port(),
            }),
            None => None,
        }
    }

    /// Returns the endpoint as the system takes it.
    pub fn socket_address(self) -> SocketAddr
        ensures ip { socket_ip result ≡ ip_of self.ip }
        ensures plain { IsPlainSocket result self.port }
    {
        SocketAddr::new(self.ip.ip(), self.port)
    }
}

impl Display for Endpoint {
    ghost output = { λ endpoint. Some (endpoint_text endpoint) };

    /// Prints the address and the port, as a configuration states them.
    fn fmt<W: Write>(&self, f: &mut Formatter<W>) -> fmt::Result {
        let ip = self.ip;
        let port = self.port;
        if ip.is_ipv6() {
            write!(f, "[{ip}]:{port}")
        } else {
            write!(f, "{ip}:{port}")
        }
    }
}
