//! An access server, or the proxy of a visited network.

ghost use Rattle.std.specs.Prelude.{◌≤◌, length, map, string_bytes, ◌≡◌, true, vec_len};
ghost use Rattle.std.specs.List.{list_all};
ghost use Rattle.roam_conf.specs.Letters.{is_nas_text, is_peer_letter};
ghost use Rattle.std.specs.Option.{ForSome};
ghost use Rattle.roam_wire.specs.RemovedAttributes.{is_removal_in_requests, is_removal_in_replies};

use crate::{Endpoint, Prefix, SharedSecret};
use roam_crypto::Secret;
use roam_wire::RemovedAttribute;

/// An access server (NAS), or the proxy of a visited network, known by its addresses, or all that are at the addresses
/// of some prefixes.
#[derive(Drop, PartialEq, Eq)]
pub struct Peer {
    /// True where it went from the file while that was served: its index stays empty, and nothing means it. A file's
    /// never is.
    pub gone: bool,
    /// 1 to 64 ASCII letters, digits, `.`, `-` and `_`.
    pub name: String,
    /// Its addresses: 1 to 8 prefixes. Their order says nothing.
    pub ips: Vec<Prefix>,
    /// The shared secret: 1 to 64 octets.
    pub secret: SharedSecret,
    /// Takes Disconnect- and CoA-Requests (RFC 5176), where the peer takes them; its port isn't 0.
    pub coa: Option<Endpoint>,
    /// The NAS-IP-Address by which a reverse request names the peer.
    pub nas_ip: Option<[u8; 4]>,
    /// The NAS-IPv6-Address (RFC 3162) by which a reverse request names the peer.
    pub nas_ipv6: Option<[u8; 16]>,
    /// The NAS-Identifier by which a reverse request names the peer: 1 to 253 octets.
    pub nas_id: Option<String>,
    /// Further NAS-Identifiers of what stands behind the peer, at most 1024, each of 1 to 253 octets. One that ends in
    /// `*` behind at least one octet stands for all that begin with what is before it.
    pub nas_ids: Vec<String>,
    /// True where each Access-Request of the peer needs a Message-Authenticator.
    pub require_seal: bool,
    /// True where an Access-Request of the peer with a Proxy-State needs a Message-Authenticator.
    pub limit_proxy_state: bool,
    /// The value of the Operator-Name with which the peer's requests go out (RFC 5580, section 4.1): the octet of its
    /// namespace, and a name of 1 to 252 octets behind it.
    pub operator_name: Option<String>,
    /// True where a Chargeable-User-Identity (RFC 4372) is asked for in the peer's Access-Requests.
    pub ask_cui: bool,
    /// The attributes of the peer's requests that aren't forwarded: at most 64.
    pub request_without: Vec<RemovedAttribute>,
    /// The attributes of replies to the peer, and of CoA-Requests, that aren't returned: at most 64.
    pub reply_without: Vec<RemovedAttribute>,
    ghost name_length: { (1 ≤ length (string_bytes name)) × (length (string_bytes name) ≤ 64) },
    ghost name_letters: { list_all is_peer_letter (string_bytes name) ≡ true },
    ghost ips_count: { (1 ≤ vec_len ips) × (vec_len ips ≤ 8) },
    ghost secret_length: { (1 ≤ length secret) × (length secret ≤ 64) },
    ghost nas_id_length: { ForSome nas_id
        (λ s. (1 ≤ length (string_bytes s)) × (length (string_bytes s) ≤ 253)) },
    ghost nas_ids_count: { vec_len nas_ids ≤ 1024 },
    ghost nas_ids_lengths: { list_all is_nas_text (map string_bytes nas_ids.items) ≡ true },
    ghost operator_name_length: { ForSome operator_name
        (λ s. (2 ≤ length (string_bytes s)) × (length (string_bytes s) ≤ 253)) },
    ghost few_without: { (vec_len request_without ≤ 64) × (vec_len reply_without ≤ 64) },
    ghost request_removals: { list_all is_removal_in_requests request_without.items ≡ true },
    ghost reply_removals: { list_all is_removal_in_replies reply_without.items ≡ true },
    ghost coa_port: { ForSome coa (λ e. 1 ≤ e.port) },
}

impl Peer {
    /// Returns the shared secret, in the form in which Message-Authenticators are made with it: 1 to 64 octets.
    pub fn secret(&self) -> &Secret
        ensures text { result.now ≡ self.now.secret }
        ensures at_least_one { 1 ≤ length result.now }
        ensures at_most_64 { length result.now ≤ 64 }
    {
        self.secret.keyed()
    }
}
