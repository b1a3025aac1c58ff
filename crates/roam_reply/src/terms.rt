//! With what a reply is returned.

ghost use Rattle.std.specs.Prelude.{◌≡◌};
ghost use Rattle.roam_forward.specs.Removal.{removed_by};
ghost use Rattle.roam_reply.specs.Returned.{own_of, removed_of};
ghost use Rattle.roam_reply.specs.Shown.{shown};

use crate::own_names::own_of;
use roam_crypto::Secret;
use roam_forward::{Removal, nothing_removed};
use roam_wire::View;
use roam_wire::code::is_access_reply;

/// With what a reply is returned. Secrets have 1 to 64 octets.
#[derive(Drop)]
pub struct Returning<'a> {
    /// The Authenticator of the forwarded request.
    pub forwarded_authenticator: [u8; 16],
    /// The secret shared with the link from which the reply came.
    pub home_secret: &'a [u8],
    /// The secret shared with the requester.
    pub client_secret: &'a Secret,
    /// The attributes of an Access reply that don't pass.
    pub removal: Removal<'a>,
    /// Whether a User-Name of an Access-Accept passes only where its name part is the request's.
    pub own: bool,
}

impl<'a> Returning<'a> {
    /// Keeps of what doesn't pass only what doesn't of a reply of this code: nothing where it is no Access reply, no
    /// name where it is no Access-Accept.
    pub(crate) fn of_code(&self, code: u8) -> Returning<'a>
        ensures terms { shown result ≡ shown self.now }
        ensures removal { removed_by result.removal ≡ removed_of (removed_by self.now.removal) code }
        ensures own { result.own ≡ own_of self.now.own code }
    {
        let removal = if is_access_reply(code) {
            self.removal
        } else {
            nothing_removed()
        };
        Returning {
            forwarded_authenticator: self.forwarded_authenticator,
            home_secret: self.home_secret,
            client_secret: self.client_secret,
            removal,
            own: own_of(self.own, code),
        }
    }
}

/// What of a reply passes by its attributes and names, and for which request.
#[derive(Clone, Copy)]
pub(crate) struct Passing<'p, 'r> {
    /// Whether it is an Access reply.
    pub(crate) access: bool,
    pub(crate) removal: &'p Removal<'p>,
    pub(crate) own: bool,
    pub(crate) request: &'p View<'r>,
}
