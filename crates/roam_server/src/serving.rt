//! One configuration after the other is served.

ghost use Rattle.std.specs.Prelude.{◌≡◌, IfOk, IfErr};
ghost use Rattle.roam_conf.specs.Config.{ConfigView};
ghost use Rattle.roam_conf.specs.Shown.{shown};
ghost use Rattle.roam_history.specs.Books.{count_of};
ghost use Rattle.roam_hub.specs.Pausing.{ArePaused};
ghost use Rattle.roam_epoch.specs.Closed.{MayGoOn};
ghost use Rattle.roam_server.specs.Served.{HasServedAll, IsServedOn};
ghost use Rattle.roam_system.specs.Faults.{IsAfterBinding};

use crate::again::{is_time_over, take_again, told_or};
use crate::beginning::begin;
use crate::changing::{Changed, Ready, Way, change};
use crate::unserved::is_stopped;
use log::Log;
use roam_admin_thread::{Configured, FreshMeans, Handover, HubEnd, Source};
use roam_epoch::{Means, Served, ServerParts, Unserved, serve_over};
use roam_hub::Blanks;
use roam_outgoing::{Notice, tell_or_drop};
use roam_port::Outbox;
use roam_shard::Paused;
use roam_system::ServeFault;
use roam_workers::Rests;
use std::alloc::Global;
use std::marker::Brand;
use std::net::Net;
use std::random::RandomSource;
use std::sync::Wait;
use std::thread;
use std::thread::Threads;
use std::time::{Clock, Duration};

/// The time, in milliseconds, before the threads and sockets are started again that couldn't be.
const BEFORE_NEXT_TRY: u64 = 100;

/// Makes the result that nothing was served, for this fault: what serves is to be started again.
fn not_started(
    fault: ServeFault,
    shards: Vec<Paused<Global>>,
    outboxes: Vec<Outbox<Global>>,
    rests: Option<Rests>,
    handover: Handover,
) -> Served
    requires { IsAfterBinding fault }
    ensures { (config : ConfigView) → ArePaused config shards.items
        → IsServedOn config shards.items result }
{
    Served {
        end: HubEnd::Failed(fault, handover),
        outboxes,
        rests,
        shards,
        steps: 0,
    }
}

/// Serves a configuration once, over shards that stand under it.
fn serve_once<R: Threads + Wait + Clock + Net + RandomSource + Log + Sync, S: Source>(
    parts: &mut ServerParts<'_, R, S>,
    configured: &Configured,
    shards: Vec<Paused<Global>>,
    blanks: Blanks<Global>,
    means: Means,
) -> Result<Served, ServeFault>
    requires paused { ArePaused (shown configured.now.config) shards.items }
    requires blanks { count_of blanks ≡ configured.now.config.top.shards }
    ensures ok { IfOk result (IsServedOn (shown configured.now.config) shards.items) }
    ensures err { IfErr result IsAfterBinding }
{
    match serve_over::<Brand, R, S>(parts, configured, shards, blanks, means) {
        Ok(served) => Ok(served),
        Err(Unserved::Fault(fault)) => Err(fault),
        Err(Unserved::Closed(shards, means)) => {
            let (_kits, outboxes, rests, handover) = means.into_parts();
            let fault = ServeFault::Memory;
            Ok(not_started(fault, shards, outboxes, Some(rests), handover))
        }
    }
}

/// Serves a configuration once more, where what serves couldn't be started before.
fn serve_again<R: Threads + Wait + Clock + Net + RandomSource + Log + Sync, S: Source>(
    parts: &mut ServerParts<'_, R, S>,
    configured: &Configured,
    shards: Vec<Paused<Global>>,
    mut outboxes: Vec<Outbox<Global>>,
    told: Option<Rests>,
    handover: Handover,
) -> Result<Served, ServeFault>
    requires { ArePaused (shown configured.now.config) shards.items }
    ensures ok { IfOk result (IsServedOn (shown configured.now.config) shards.items) }
    ensures err { IfErr result IsAfterBinding }
{
    match take_again(parts, configured, &mut outboxes) {
        Ok(
            FreshMeans {
                kits,
                rests,
                blanks,
            },
        ) => {
            let means = Means {
                kits,
                outboxes,
                rests: told_or(told, rests),
                handover,
            };
            serve_once(parts, configured, shards, blanks, means)
        }
        Err(fault) => Ok(not_started(fault, shards, outboxes, told, handover)),
    }
}

/// Serves a configuration until what serves could be started: nothing of what stands is lost where it can't be at once.
fn serve_until_started<R: Threads + Wait + Clock + Net + RandomSource + Log + Sync, S: Source>(
    parts: &mut ServerParts<'_, R, S>,
    configured: &Configured,
    first: Served,
) -> Result<Served, ServeFault>
    requires paused { ArePaused (shown configured.now.config) first.shards.items }
    requires may { MayGoOn (shown configured.now.config) first.end }
    ensures ok { IfOk result (IsServedOn (shown configured.now.config) first.shards.items) }
    ensures err { IfErr result IsAfterBinding }
{
    let rt = parts.rt;
    let mut served = first;
    let mut is_told = false;
    for _ in rt.forever() {
        if !served.end.has_failed() || is_time_over(parts) {
            return Ok(served);
        }
        if !is_told {
            is_told = tell_or_drop(rt, &configured.config, Notice::TriesAgain);
        }
        thread::sleep(rt, Duration::from_millis(BEFORE_NEXT_TRY));
        served = serve_on(parts, configured, served)?;
    }
    unreachable!()
}

/// Serves on where what serves couldn't be started before. Who asks is answered first, and it is over where the server
/// is asked to stop.
fn serve_on<R: Threads + Wait + Clock + Net + RandomSource + Log + Sync, S: Source>(
    parts: &mut ServerParts<'_, R, S>,
    configured: &Configured,
    served: Served,
) -> Result<Served, ServeFault>
    requires paused { ArePaused (shown configured.now.config) served.shards.items }
    requires may { MayGoOn (shown configured.now.config) served.end }
    ensures ok { IfOk result (IsServedOn (shown configured.now.config) served.shards.items) }
    ensures err { IfErr result IsAfterBinding }
{
    let Served {
        end,
        outboxes,
        rests,
        shards,
        steps,
    } = served;
    match end {
        HubEnd::Failed(fault, mut handover) => {
            if is_stopped(parts, fault) {
                return Ok(Served {
                    end: HubEnd::Over,
                    outboxes,
                    rests,
                    shards,
                    steps,
                });
            }
            handover.is_awaited = false;
            let again = serve_again(parts, configured, shards, outboxes, rests, handover)?;
            Ok(again.with_more(steps))
        }
        end => Ok(Served {
            end,
            outboxes,
            rests,
            shards,
            steps,
        }),
    }
}

/// Serves for the first time after a change: the configuration that follows; that of before, where the other was
/// declined; where memory is wanting nothing yet.
fn serve_changed<R: Threads + Wait + Clock + Net + RandomSource + Log + Sync, S: Source>(
    parts: &mut ServerParts<'_, R, S>,
    configured: &Configured,
    shards: Vec<Paused<Global>>,
    changed: Changed,
    outboxes: Vec<Outbox<Global>>,
) -> Result<Served, ServeFault>
    requires paused { ArePaused (shown configured.now.config) shards.items }
    requires blanks { count_of changed.blanks ≡ configured.now.config.top.shards }
    ensures ok { IfOk result (IsServedOn (shown configured.now.config) shards.items) }
    ensures err { IfErr result IsAfterBinding }
{
    let Changed {
        way,
        blanks,
        told,
        handover,
    } = changed;
    match way {
        Way::Follows(Ready { kits, rests }) => {
            let means = Means {
                kits,
                outboxes,
                rests,
                handover,
            };
            serve_once(parts, configured, shards, blanks, means)
        }
        Way::Declined => serve_again(parts, configured, shards, outboxes, told, handover),
        Way::NoMemory => {
            let fault = ServeFault::Memory;
            Ok(not_started(fault, shards, outboxes, told, handover))
        }
    }
}

/// Serves a configuration, and each one that follows, until the server ends: how many steps were recorded. Each realm
/// begins with the sessions that a file of ledgers has of it.
///
/// # Errors
///
/// The first configuration's threads that can't be started end it; those of another one are tried again.
pub(crate) fn serve_all<R: Threads + Wait + Clock + Net + RandomSource + Log + Sync, S: Source>(
    parts: &mut ServerParts<'_, R, S>,
    configured: &mut Configured,
    means: Means,
) -> Result<u64, ServeFault>
    ensures ok { IfOk result (λ steps. HasServedAll (shown configured.old.config)) }
    ensures err { IfErr result IsAfterBinding }
{
    let begun = begin(parts, configured)?;
    let Ok(blanks) = Blanks::new(parts.alloc, configured.config.top.shards) else {
        return Err(ServeFault::Memory);
    };
    let mut served = serve_once(parts, configured, begun, blanks, means)?;
    let mut steps = 0u64;
    let rt = parts.rt;
    for _ in rt.forever() {
        let Served {
            end,
            outboxes,
            rests,
            mut shards,
            steps: more,
        } = served;
        steps = steps.saturating_add(more);
        let next = match end {
            HubEnd::Over => return Ok(steps),
            HubEnd::Failed(fault, _) => return Err(fault),
            HubEnd::Follows(next) => next,
        };
        let changed = change(parts, configured, &mut shards, next, rests);
        let first = serve_changed(parts, configured, shards, changed, outboxes)?;
        served = serve_until_started(parts, configured, first)?;
    }
    unreachable!()
}
