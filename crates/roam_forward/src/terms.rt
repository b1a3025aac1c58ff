//! With what a request is forwarded.

use roam_crypto::Secret;

/// With what a request is forwarded: the secret shared with the requester and the one shared with the
/// link, the new Identifier, the Authenticator, and the ticket.
///
/// The Authenticator counts for an Access-Request alone, and so does the requester's secret.
#[derive(Drop)]
pub struct Forwarding<'a> {
    pub from_secret: &'a [u8],
    pub to_secret: &'a Secret,
    pub id: u8,
    pub authenticator: [u8; 16],
    pub ticket: u64,
}
