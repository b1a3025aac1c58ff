//! Growths of whole runs refused in turn: an event is lost, and the packets are those of the others; or nothing comes of
//! the run.

use roam_conf::Config;
use roam_core::{Event, Outcome};
use roam_sim::simulate;
use roam_wire::NoMemory;
use std::io;
use test_playing::{Kept, Over, Player, Playing, Row, print_outs, print_packets};

/// The event that no run writes.
const NONE: &str = "no such event";

/// The packets of a row's other events, where the one at a place is lost.
fn others_of(losses: &[Vec<u8>], place: usize) -> &[u8] {
    match losses.get(place) {
        Some(packets) => packets.as_slice(),
        None => NONE.as_bytes(),
    }
}

/// Notes whether a growth was refused, and counts it.
fn was_refused(player: &mut Player<'_, '_>) -> bool {
    let was_refused = player.over.was_refused();
    player.over.refuse_nth(0);
    if was_refused {
        player.tally.count_growth();
    }
    was_refused
}

/// Returns whether one of a row's events is a tick.
fn has_tick<'r>(row: &Row<Over<'r>>) -> bool {
    for step in row.steps.iter() {
        if let Event::Tick { .. } = &step.event {
            return true;
        }
    }
    false
}

/// Notes whether a run wanted memory: it does just where a growth was refused; but a tick may do without what it tells
/// of a login that stopped. Whether one was.
fn is_refused<'r>(
    player: &mut Player<'_, 'r>,
    row: &Row<Over<'r>>,
    how: &str,
    is_wanting: bool,
) -> bool {
    let was_refused = was_refused(player);
    let may_do_without = was_refused && has_tick(row);
    if is_wanting != was_refused && !may_do_without {
        let wanted = "want of memory just where a growth is refused";
        player.tell(row.line, how, wanted, "another answer");
    }
    was_refused
}

/// Each growth of a fresh broker.
pub(crate) fn opens_refused<'r>(player: &mut Player<'_, 'r>, row: &Row<Over<'r>>, config: &Config) {
    for n in 1..u64::MAX {
        player.over.refuse_nth(n);
        let is_wanting = Playing::new(player.over, config, player.kept).is_err();
        let was_refused = was_refused(player);
        if is_wanting != was_refused {
            let wanted = "want of memory just where a growth is refused";
            player.tell(row.line, "a fresh broker", wanted, "another answer");
        }
        if !was_refused {
            return;
        }
    }
}

/// Prints the packets that a broker gives for a row's events but for the one at a place.
fn print_without<'r>(
    packets: &mut Vec<u8>,
    row: &Row<Over<'r>>,
    broker: &mut Playing<'_, 'r>,
    place: usize,
) -> io::Result<()> {
    for step in row.steps.iter() {
        if step.place != place {
            if let Ok(answer) = broker.step(&step.event) {
                print_outs(packets, &answer.outs)?;
            }
        }
    }
    Ok(())
}

/// The lines of the packets that a row's events give where the one at a place is lost.
fn packets_without<'r>(
    player: &mut Player<'_, 'r>,
    row: &Row<Over<'r>>,
    config: &Config,
    place: usize,
) -> io::Result<Vec<u8>> {
    let mut packets = Vec::new(player.rt.alloc());
    match player.fresh(config) {
        Some(mut broker) => print_without(&mut packets, row, &mut broker, place)?,
        None => {}
    }
    Ok(packets)
}

/// For each of a row's events the lines of all packets where it is lost.
fn losses<'r>(
    player: &mut Player<'_, 'r>,
    row: &Row<Over<'r>>,
    config: &Config,
) -> io::Result<Vec<Vec<u8>>> {
    let mut losses = Vec::new(player.rt.alloc());
    for step in row.steps.iter() {
        losses.push(packets_without(player, row, config, step.place)?)?;
    }
    Ok(losses)
}

/// Compares what a run gave with the row's packets, without those of the event that it lost. Whether it met want
/// of memory.
fn is_wanting<'r>(
    player: &mut Player<'_, 'r>,
    row: &Row<Over<'r>>,
    losses: &[Vec<u8>],
    outcome: Result<Outcome<Over<'r>>, NoMemory>,
) -> bool {
    let Ok(outcome) = outcome else {
        return true;
    };
    player.got.clear();
    let printed = print_packets(&mut player.got, &outcome.outs);
    player.needs(printed);
    let wanted = match outcome.lost.as_slice() {
        [] => row.packets.as_bytes(),
        [place] => others_of(losses, *place),
        _ => NONE.as_bytes(),
    };
    player.is_answer(row.line, "run", wanted);
    !outcome.lost.is_empty()
}

/// The `n`-th growth of a run. Whether there is such a growth.
fn is_run_refused<'r>(
    player: &mut Player<'_, 'r>,
    row: &Row<Over<'r>>,
    broker: &mut Playing<'_, 'r>,
    events: &[Event<Over<'r>>],
    losses: &[Vec<u8>],
    n: u64,
) -> bool {
    player.over.refuse_nth(n);
    let outcome = broker.run(player.over, events);
    let is_wanting = is_wanting(player, row, losses, outcome);
    is_refused(player, row, "run", is_wanting)
}

/// Each growth of a run.
fn runs_refused<'r>(
    player: &mut Player<'_, 'r>,
    row: &Row<Over<'r>>,
    config: &Config,
    events: &[Event<Over<'r>>],
    losses: &[Vec<u8>],
) {
    for n in 1..u64::MAX {
        let is_refused = match player.fresh(config) {
            Some(mut broker) => is_run_refused(player, row, &mut broker, events, losses, n),
            None => false,
        };
        if !is_refused {
            return;
        }
    }
}

/// Looks at what a simulation wrote that met want of memory: nothing, or the packets without those of one event.
fn is_cut_short<'r>(player: &mut Player<'_, 'r>, row: &Row<Over<'r>>, losses: &[Vec<u8>]) {
    let is_loss = losses.iter().any(|packets| packets == &player.got);
    if !is_loss && !player.got.is_empty() {
        let wanted = "the packets without those of one event";
        player.tell(row.line, "simulate", wanted, "others");
    }
}

/// Each growth of a simulation.
fn simulates_refused<'r>(
    player: &mut Player<'_, 'r>,
    row: &Row<Over<'r>>,
    config: &Config,
    script: &str,
    losses: &[Vec<u8>],
) {
    for n in 1..u64::MAX {
        player.got.clear();
        player.over.refuse_nth(n);
        let is_wanting = simulate(player.over, config, script, &mut player.got).is_err();
        if !is_refused(player, row, "simulate", is_wanting) {
            return;
        }
        if is_wanting {
            is_cut_short(player, row, losses);
        } else {
            player.is_answer(row.line, "simulate", row.packets.as_bytes());
        }
    }
}

/// Each growth of a row's run, and of its simulation, which is over tables alone.
pub(crate) fn plays_runs_refused<'r>(
    player: &mut Player<'_, 'r>,
    row: &Row<Over<'r>>,
    config: &Config,
    events: &[Event<Over<'r>>],
    script: &str,
) {
    match losses(player, row, config) {
        Ok(losses) => {
            runs_refused(player, row, config, events, losses.as_slice());
            if player.kept == Kept::InTables {
                simulates_refused(player, row, config, script, losses.as_slice());
            }
        }
        Err(error) => player.needs(Err(error)),
    }
}
