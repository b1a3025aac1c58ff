//! A realm: its sockets, its limits and its home servers.

ghost use Rattle.std.specs.Prelude.{◌≤◌, length, map, string_bytes, vec_len, ◌≡◌, false, true, is_some};
ghost use Rattle.std.specs.List.{list_all, list_any};
ghost use Rattle.std.specs.Option.{ForSome};
ghost use Rattle.roam_wire.specs.RemovedAttributes.{is_removal_in_requests, is_removal_in_replies};
ghost use Rattle.roam_conf.specs.Letters.{is_realm_letter};
ghost use Rattle.roam_conf.specs.declared.accounting.Accounting.TheVariants.{Forwarded};
ghost use Rattle.roam_conf.specs.declared.server.Server.{Server};
ghost use Rattle.roam_conf.specs.Patterns.{is_pattern, shown_pattern};
ghost use Rattle.roam_conf.specs.Ways.{has_port};

use crate::{Accounting, CoaClient, Endpoint, RealmPattern, Server};
use roam_wire::RemovedAttribute;

/// A realm: its home servers, and the sockets that the broker keeps for it.
#[derive(Drop, PartialEq, Eq)]
pub struct Realm {
    /// True where it went from the file while that was served: its index stays empty, it has no sockets, and nothing is
    /// for it. A file's never is.
    pub gone: bool,
    /// 1 to 253 ASCII letters, digits, `.` and `-`.
    pub name: String,
    /// The other names of the realm: at most 256 patterns.
    pub also: Vec<RealmPattern>,
    /// The names of the peers whose requests the realm takes, where it doesn't take all peers': at most 1024.
    pub peers: Option<Vec<String>>,
    /// True where the realm takes no requests of a peer at the address of one of its servers.
    pub loop_prevention: bool,
    /// The fate of the realm's Accounting-Requests.
    pub accounting: Accounting,
    /// The attributes of the realm's requests that aren't forwarded: at most 64.
    pub request_without: Vec<RemovedAttribute>,
    /// The attributes of the realm's replies, and of its CoA-Requests, that aren't returned: at most 64.
    pub reply_without: Vec<RemovedAttribute>,
    /// The number of requests of one code for one name that may wait, where that is limited: 1 to 4096.
    pub share: Option<u16>,
    /// The number of requests of one peer that may wait, where that is limited: 1 to 4096.
    pub peer_share: Option<u16>,
    /// True where an Access-Accept keeps only those User-Names that name the realm part that the request named.
    pub own_names: bool,
    /// True where the rounds of a login go to the server that sent its last Access-Challenge.
    pub conversations: bool,
    /// True where the user of a request decides with which server its targets begin (the key `balance`).
    pub by_user: bool,
    /// True where a Disconnect- or CoA-Request is forwarded only if it names one session of the realm's own.
    pub own_sessions: bool,
    /// From where reverse requests come beside the realm's servers: at most 8.
    pub coa_clients: Vec<CoaClient>,
    /// The broker's sockets from which the realm's packets are forwarded: 1 to 16, of which no port is 0.
    pub out: Vec<Endpoint>,
    /// The broker's sockets that take the realm's reverse requests (RFC 5176): at most 8, of which no port is 0; none
    /// where it takes none.
    pub reverse: Vec<Endpoint>,
    /// The number of times that a packet is sent to one server: 1 to 10.
    pub tries: u8,
    /// The time from one sending to the next, in milliseconds: 1 to 60000.
    pub wait: u32,
    /// The time for which a reply is held for retransmissions, in milliseconds: at most 60000.
    pub hold: u32,
    /// The number of requests that may be pending: 1 to 4096.
    pub max_pending: u16,
    /// The number of sessions that are remembered: at most 65536.
    pub max_sessions: u32,
    /// The time for which a server that did not answer is dead, so that another one is asked if it can be, in
    /// milliseconds: at most 3600000; 0 where no server is ever dead.
    pub rest: u32,
    /// After how many requests in a row that a server left without an answer it rests: 1 to 256.
    pub rest_after: u16,
    /// The home servers in the order of their use: 1 to 8; of one that is gone none.
    pub servers: Vec<Server>,
    ghost name_length: { (1 ≤ length (string_bytes name)) × (length (string_bytes name) ≤ 253) },
    ghost name_letters: { list_all is_realm_letter (string_bytes name) ≡ true },
    ghost also_count: { vec_len also ≤ 256 },
    ghost also_names: { list_all is_pattern (map shown_pattern also.items) ≡ true },
    ghost peer_names: { ForSome peers (λ names. vec_len names ≤ 1024) },
    ghost few_without: { (vec_len request_without ≤ 64) × (vec_len reply_without ≤ 64) },
    ghost request_removals: { list_all is_removal_in_requests request_without.items ≡ true },
    ghost reply_removals: { list_all is_removal_in_replies reply_without.items ≡ true },
    ghost share_range: { ForSome share (λ n. (1 ≤ n) × (n ≤ 4096)) },
    ghost peer_share_range: { ForSome peer_share (λ n. (1 ≤ n) × (n ≤ 4096)) },
    ghost coa_client_count: { vec_len coa_clients ≤ 8 },
    ghost asked: { gone ≡ false → list_any (λ (s : Server). is_some s.auth) servers.items ≡ true },
    ghost accounted: { gone ≡ false → accounting ≡ Forwarded
        → list_any (λ (s : Server). is_some s.acct) servers.items ≡ true },
    ghost out_count: { (1 ≤ vec_len out) × (vec_len out ≤ 16) },
    ghost reverse_count: { vec_len reverse ≤ 8 },
    ghost ports: { (list_all has_port out.items ≡ true) × (list_all has_port reverse.items ≡ true) },
    ghost tries_range: { (1 ≤ tries) × (tries ≤ 10) },
    ghost wait_range: { (1 ≤ wait) × (wait ≤ 60000) },
    ghost hold_range: { hold ≤ 60000 },
    ghost max_pending_range: { (1 ≤ max_pending) × (max_pending ≤ 4096) },
    ghost max_sessions_range: { max_sessions ≤ 65536 },
    ghost rest_range: { rest ≤ 3600000 },
    ghost rest_after_range: { (1 ≤ rest_after) × (rest_after ≤ 256) },
    ghost server_count: { (gone ≡ false → 1 ≤ vec_len servers) × (vec_len servers ≤ 8) },
}
