//! The two services of a home server.

ghost use Rattle.std.specs.Prelude.{◌≡◌};
ghost use Rattle.roam_realm.specs.RealmConfig.{server_link, service_of};

use roam_conf::Link;
use roam_wire::code::ACCESS_REQUEST;

/// The service of a home server for a request.
#[derive(Clone, Copy, Debug, PartialEq, Eq)]
pub enum Service {
    /// It answers Access-Requests (RFC 2865).
    Authentication,
    /// It answers Accounting-Requests (RFC 2866).
    Accounting,
}

impl Service {
    /// Returns the service that a request of this code asks for.
    pub fn of_code(code: u8) -> Service
        ensures { result ≡ service_of code }
    {
        if code == ACCESS_REQUEST {
            Service::Authentication
        } else {
            Service::Accounting
        }
    }

    /// Returns the link to the server of this place, by the `out` of this place.
    pub fn link(self, server: u8, out: u8) -> Link
        ensures { result ≡ server_link self server out }
    {
        match self {
            Service::Authentication => Link::Auth(server, out),
            Service::Accounting => Link::Acct(server, out),
        }
    }
}
