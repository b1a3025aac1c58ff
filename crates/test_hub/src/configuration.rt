//! The configurations of the tests.

use roam_conf::Config;
use roam_conf_reader::read_config;
use std::alloc::Global;
use std::process::Abort;
use test_support::configuration::{PEER, REALM, SEED_AND_ENDPOINTS, SERVER};

/// One realm of one server, and the parts that are added, in this many shards with this limit of steps each.
pub(crate) fn config_of(
    rt: &impl Abort,
    alloc: Global,
    shards: u16,
    limit: u32,
    added: &[&str],
) -> Config {
    let added = added.concat(alloc).expect(rt, "memory");
    let text = format!(in alloc;
        "shards = {shards}\ntrace_limit = {limit}\n{SEED_AND_ENDPOINTS}{PEER}{REALM}{SERVER}{added}"
    ).expect(rt, "memory");
    read_config(alloc, text.as_str()).expect(rt, "a configuration")
}
