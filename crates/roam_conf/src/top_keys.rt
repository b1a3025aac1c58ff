//! The keys at the top of a document that are plain values.

ghost use Rattle.std.specs.Prelude.{◌≤◌};
ghost use Rattle.std.specs.Option.{ForSome};

/// The keys at the top of a document that are plain values, each in its range.
#[derive(Clone, Copy, PartialEq, Eq)]
pub struct TopKeys {
    /// The number of shards that the realms are spread over: 1 to 64.
    pub shards: u16,
    /// The key of the random words.
    pub seed: [u8; 32],
    /// The number of steps that a shard's trace holds: 1 to 1000000.
    pub trace_limit: u32,
    /// The number of octets of datagrams and packets that a shard's trace holds: 1 to 1073741824.
    pub trace_octets: u32,
    /// The number of attributes Proxy-State (type 33) that a request may have, where that is limited: 1 to 100.
    pub max_hops: Option<u8>,
    /// The number of attributes that a request may have, where that is limited: 1 to 2000.
    pub max_attributes: Option<u16>,
    /// True where Status-Server (RFC 5997) is answered.
    pub status_server: bool,
    /// True where each worker has an `auth` and an `acct` socket of its own.
    pub spread: bool,
    /// True where a name has to be well formed (RFC 7542, section 2.2) to fit a pattern.
    pub well_formed: bool,
    /// True where an Accounting-Request without a User-Name is answered by the proxy itself.
    pub answer_unnamed: bool,
    /// By how many seconds the Event-Timestamp of a reverse request may differ from the clock, where it is looked
    /// at: 10 to 3600.
    pub fresh: Option<u16>,
    ghost shards_range: { (1 ≤ shards) × (shards ≤ 64) },
    ghost trace_limit_range: { (1 ≤ trace_limit) × (trace_limit ≤ 1000000) },
    ghost trace_octets_range: { (1 ≤ trace_octets) × (trace_octets ≤ 1073741824) },
    ghost max_hops_range: { ForSome max_hops (λ n. (1 ≤ n) × (n ≤ 100)) },
    ghost max_attributes_range: { ForSome max_attributes (λ n. (1 ≤ n) × (n ≤ 2000)) },
    ghost fresh_range: { ForSome fresh (λ n. (10 ≤ n) × (n ≤ 3600)) },
}
