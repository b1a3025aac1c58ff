//! The parts of a configuration. A test puts those in a row that it wants, as
//! `[TOP, PEER, REALM, SERVER].concat(alloc)`, and its own beside them.

/// A seed of zeros, and where access servers ask.
pub const SEED_AND_ENDPOINTS: &str =
    "seed = \"0000000000000000000000000000000000000000000000000000000000000000\"
auth = \"127.0.0.1:1812\"
acct = \"127.0.0.1:1813\"
";

/// The keys of the broker: that seed and those endpoints, one shard, and 1000 steps in its history at most.
pub const TOP: &str = "shards = 1
seed = \"0000000000000000000000000000000000000000000000000000000000000000\"
auth = \"127.0.0.1:1812\"
acct = \"127.0.0.1:1813\"
trace_limit = 1000
";

/// An access server, and where and by which names it takes reverse requests.
pub const PEER: &str = "
[[peer]]
name = \"nas1\"
ip = \"192.0.2.1\"
secret = \"xyzzy5461\"
coa = \"192.0.2.1:3799\"
nas_ip = \"192.0.2.1\"
nas_id = \"nas1\"
";

/// The same access server, which takes no reverse requests.
pub const PLAIN_PEER: &str = "
[[peer]]
name = \"nas1\"
ip = \"192.0.2.1\"
secret = \"xyzzy5461\"
";

/// The realm `a.example`. Its home servers stand behind it, as those of the realms below.
pub const REALM: &str = "
[[realm]]
name = \"a.example\"
out = \"127.0.0.1:2000\"
reverse = \"127.0.0.1:3000\"
tries = 2
wait = 1000
hold = 5000
max_pending = 300
max_sessions = 100
";

/// The realm `b.example`.
pub const SECOND_REALM: &str = "
[[realm]]
name = \"b.example\"
out = \"127.0.0.1:2001\"
reverse = \"127.0.0.1:3001\"
tries = 2
wait = 1000
hold = 5000
max_pending = 300
max_sessions = 100
";

/// A home server of the realm before it.
pub const SERVER: &str = "
[[realm.server]]
auth = \"198.51.100.1:1812\"
acct = \"198.51.100.1:1813\"
secret = \"h1\"
";

/// Another one.
pub const SECOND_SERVER: &str = "
[[realm.server]]
auth = \"198.51.100.2:1812\"
acct = \"198.51.100.2:1813\"
secret = \"h2\"
";
