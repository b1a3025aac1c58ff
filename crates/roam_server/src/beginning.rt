//! A server begins: each realm at its first start, with the sessions that a file of ledgers has of it.

ghost use Rattle.std.specs.Prelude.{◌≡◌, ◌<◌, [], IfErr, IfOk, List};
ghost use Rattle.roam_conf.specs.Shown.{shown};
ghost use Rattle.roam_sessions.specs.Ledgers.{SavedItem};
ghost use Rattle.roam_sessions.specs.ShownLedgers.{shown_items};
ghost use Rattle.roam_core.specs.Openings.{fresh_starts};
ghost use Rattle.roam_shard.specs.ShardView.{AreStarts};
ghost use Rattle.roam_server.specs.Begins.{HasBegun, HaveBegun};
ghost use Rattle.roam_system.specs.Faults.{IsAfterBinding};

use crate::again::begin_time;
use crate::taken_up::{count_in, count_sessions};
use log::Log;
use roam_admin_thread::{Configured, Source};
use roam_conf::Config;
use roam_epoch::ServerParts;
use roam_outgoing::{tell_left_out, tell_taken_up, tell_unread};
use roam_realm::Start;
use roam_sessions::{Item, ReadError, read};
use roam_shard::{Paused, Shard, first_starts};
use roam_system::ServeFault;
use std::alloc::Global;
use std::time::Clock;

/// Begins the shard of a number, with no request pending and the sessions that a file of session tables has of its
/// realms. Returns the shard, and how many sessions these are.
fn begin_one(
    alloc: Global,
    config: &Config,
    shard: u16,
    starts: &[Start],
    items: &[Item<'_>],
) -> Result<(Paused<Global>, u64), ServeFault>
    requires number { shard < config.now.top.shards }
    requires good { AreStarts (shown config.now) starts.now }
    requires first { starts.now ≡ fresh_starts (shown config.now) }
    ensures ok { IfOk result (λ begun. HasBegun (shown config.now) (shown_items items.now) shard begun.0) }
    ensures err { IfErr result IsAfterBinding }
{
    let begun = Shard::new(alloc, config, shard, starts)?;
    let mut paused = begun.pause();
    paused.restore(config, items)?;
    let standing = Shard::resume(config, paused);
    let taken = count_in(config, shard, &standing);
    Ok((standing.pause(), taken))
}

/// Begins the shards of a server, with no request pending and the sessions that a file of session tables has. Returns
/// the shards, and how many sessions these are.
fn first_shards(
    alloc: Global,
    config: &Config,
    items: &[Item<'_>],
) -> Result<(Vec<Paused<Global>>, u64), ServeFault>
    ensures ok { IfOk result (λ begun. HaveBegun (shown config.now) (shown_items items.now) begun.0.items) }
    ensures err { IfErr result IsAfterBinding }
{
    let starts = first_starts(alloc, config)?;
    let mut shards = Vec::with_capacity(alloc, usize::from(config.top.shards))?;
    let mut taken = 0u64;
    for shard in 0..config.top.shards {
        let (begun, more) = begin_one(alloc, config, shard, starts.as_slice(), items)?;
        shards.push(begun)?;
        taken = taken.saturating_add(more);
    }
    Ok((shards, taken))
}

/// Begins the shards of a server with no session.
fn empty_shards(alloc: Global, config: &Config) -> Result<Vec<Paused<Global>>, ServeFault>
    ensures ok { IfOk result (λ shards. HaveBegun (shown config.now) [] shards.items) }
    ensures err { IfErr result IsAfterBinding }
{
    let (shards, _none) = first_shards(alloc, config, &[])?;
    Ok(shards)
}

/// Puts the file of a path aside, and tells why nothing is read from it.
fn leave<R: Log, S: Source>(parts: &mut ServerParts<'_, R, S>, path: &str, why: &str) {
    let is_aside = parts.source.put_aside(path);
    tell_unread(parts.rt, path, why, is_aside);
}

/// Reads the octets that the file of a path holds, where there are any. Where they can't be read that is told, and
/// the file is put aside.
fn kept<R: Log, S: Source>(parts: &mut ServerParts<'_, R, S>, path: &str) -> Option<Vec<u8>> {
    match parts.source.kept(path) {
        Ok(octets) => octets,
        Err(why) => {
            leave(parts, path, why);
            None
        }
    }
}

/// Tells how many sessions of how many were taken up from the file of a path. Where some weren't, the file is kept as
/// it is, under another name too.
fn tell_taken<R: Log, S: Source>(
    parts: &mut ServerParts<'_, R, S>,
    path: &str,
    taken: u64,
    sessions: u64,
) {
    tell_taken_up(parts.rt, path, taken, sessions);
    if taken < sessions {
        let has_other_name = parts.source.keep_old(path);
        tell_left_out(parts.rt, path, sessions - taken, has_other_name);
    }
}

/// Begins the shards with what the file of a path holds, where that is session tables. Where it isn't, that is told,
/// and the file is put aside.
fn begin_from<R: Log, S: Source>(
    parts: &mut ServerParts<'_, R, S>,
    config: &Config,
    path: &str,
    octets: &[u8],
) -> Result<Vec<Paused<Global>>, ServeFault>
    ensures ok { IfOk result (λ shards. (items : List SavedItem)
        × HaveBegun (shown config.now) items shards.items) }
    ensures err { IfErr result IsAfterBinding }
{
    match read(parts.alloc, octets) {
        Ok(items) => {
            let (shards, taken) = first_shards(parts.alloc, config, items.as_slice())?;
            tell_taken(parts, path, taken, count_sessions(items.as_slice()));
            Ok(shards)
        }
        Err(ReadError::Memory) => Err(ServeFault::Memory),
        Err(ReadError::Fault(fault)) => {
            leave(parts, path, fault.text());
            empty_shards(parts.alloc, config)
        }
    }
}

/// Begins the shards with what the file of a path has of their realms, where there is one.
fn begin_with<R: Log, S: Source>(
    parts: &mut ServerParts<'_, R, S>,
    config: &Config,
    path: &str,
) -> Result<Vec<Paused<Global>>, ServeFault>
    ensures ok { IfOk result (λ shards. (items : List SavedItem)
        × HaveBegun (shown config.now) items shards.items) }
    ensures err { IfErr result IsAfterBinding }
{
    match kept(parts, path) {
        Some(octets) => begin_from(parts, config, path, octets.as_slice()),
        None => empty_shards(parts.alloc, config),
    }
}

/// Begins the shards of a server, by number: each realm is at its first start, and has the sessions that a file of
/// session tables has of it, where there is one.
fn beginning<R: Log, S: Source>(
    parts: &mut ServerParts<'_, R, S>,
    configured: &Configured,
) -> Result<Vec<Paused<Global>>, ServeFault>
    ensures ok { IfOk result (λ shards. (items : List SavedItem)
        × HaveBegun (shown configured.now.config) items shards.items) }
    ensures err { IfErr result IsAfterBinding }
{
    let config = &configured.config;
    match &configured.manner.state {
        Some(file) => begin_with(parts, config, file.path.as_str()),
        None => empty_shards(parts.alloc, config),
    }
}

/// Has a server begin: returns its shards, by number, and has its time begin when it has them.
pub fn begin<R: Clock + Log, S: Source>(
    parts: &mut ServerParts<'_, R, S>,
    configured: &Configured,
) -> Result<Vec<Paused<Global>>, ServeFault>
    ensures ok { IfOk result (λ shards. (items : List SavedItem)
        × HaveBegun (shown configured.now.config) items shards.items) }
    ensures err { IfErr result IsAfterBinding }
{
    let shards = beginning(parts, configured)?;
    begin_time(parts);
    Ok(shards)
}
