//! A program that plays the rows of a folder over the broker, and says which differ. It is a test alone.
//!
//! It reads three folders where it runs: `rows/` has worked rows and some random ones, `random/` the other random
//! ones, and `configurations/` those that the rows name; `faulty-lines` has lines that are none of a script. What a
//! row is, and how it is played with memory, has `test_playing`; it is played with growths refused in `growths` and
//! `losses`, and through a hub in `hubs`.
#![tactic(auto)]

mod faulty;
mod files;
mod growths;
mod hubs;
mod losses;

use crate::faulty::finds_faults;
use crate::files::{plays_text, plays_text_through_hubs};
use std::process::ExitCode;
use std::sync::Wait;
use std::{fs, io};
use test_playing::{Kept, Player};
use test_support::Refusing;

/// The names of the files in a folder, in order.
fn names(rt: &HostRuntime, folder: &str) -> io::Result<Vec<String>> {
    let mut names = Vec::new(rt.alloc());
    for entry in fs::read_dir(rt, folder)? {
        names.push(String::from_str(rt.alloc(), entry?.file_name())?)?;
    }
    names.sort()?;
    Ok(names)
}

/// The text of the next file whose rows are played.
fn read_file(player: &mut Player<'_, '_>, folder: &str, name: &str) -> io::Result<String> {
    player.file = format!(in player.rt.alloc(); "{folder}/{name}")?;
    fs::read_to_string(player.rt, player.file.as_str())
}

/// Plays the rows of all files of a folder over a broker, with growths refused too or with memory alone.
fn plays_folder(player: &mut Player<'_, '_>, folder: &str, meets_refusals: bool) -> io::Result<()> {
    for name in names(player.rt, folder)?.iter() {
        let text = read_file(player, folder, name.as_str())?;
        plays_text(player, text.as_str(), meets_refusals)?;
    }
    Ok(())
}

/// Plays the rows of all files of a folder through hubs.
fn plays_through_hubs<R: Wait>(
    rt: &R,
    player: &mut Player<'_, '_>,
    folder: &str,
) -> io::Result<()> {
    for name in names(player.rt, folder)?.iter() {
        let text = read_file(player, folder, name.as_str())?;
        plays_text_through_hubs(player, rt, text.as_str())?;
    }
    Ok(())
}

/// Plays the rows of both folders over each broker, and those of `rows/` with growths refused and through hubs too.
fn plays_folders<R: Wait>(waiting: &R, player: &mut Player<'_, '_>) -> io::Result<()> {
    for kept in [Kept::InLists, Kept::InTables, Kept::InTraces] {
        player.kept = kept;
        plays_folder(player, "rows", true)?;
        plays_folder(player, "random", false)?;
    }
    plays_through_hubs(waiting, player, "rows")
}

/// Looks whether the faulty lines are found, and prints how many rows were played.
fn plays_faulty(player: &mut Player<'_, '_>) -> io::Result<()> {
    player.file = String::from_str(player.rt.alloc(), "faulty-lines")?;
    let faulty = fs::read_to_string(player.rt, "faulty-lines")?;
    finds_faults(player, faulty.as_str())?;
    player.tally.print(player.rt)
}

/// Plays all rows, and says how many. Whether all is as they say. (What can fail owns nothing of the player's.)
fn plays_all<R: Wait>(rt: &HostRuntime, waiting: &R) -> io::Result<bool> {
    let refusing = Refusing::new(rt.alloc());
    let mut player = Player::new(rt, &refusing);
    let played = match plays_folders(waiting, &mut player) {
        Ok(()) => plays_faulty(&mut player),
        Err(error) => Err(error),
    };
    let is_clean = player.tally.is_clean();
    match played {
        Ok(()) => Ok(is_clean),
        Err(error) => Err(error),
    }
}

fn main(rt: HostRuntime) -> ExitCode {
    match plays_all(&rt, &rt) {
        Ok(is_clean) => ExitCode::from(u8::from(!is_clean)),
        Err(_) => ExitCode::from(2),
    }
}
