//! Lines that are none of a script.

use roam_sim::{ScriptFault, read_script};
use std::alloc::Global;
use std::io;
use test_playing::Player;

/// Returns whether the line of this number is the first faulty one of a script.
fn is_faulty_at(alloc: Global, script: &str, number: u64) -> bool {
    match read_script(alloc, script) {
        Err(ScriptFault::Line(line)) => line == number,
        _ => false,
    }
}

/// Returns whether a line is found to be faulty, alone and among others.
fn is_found(alloc: Global, line: &str) -> io::Result<bool> {
    let text = format!(in alloc; "\n# a comment\nT 0 0\n{line}\nT 0 0\n{line}\n")?;
    Ok(is_faulty_at(alloc, line, 1) && is_faulty_at(alloc, text.as_str(), 4))
}

/// Looks for the fault of a line. A comment has none: it says in words what is wrong with the next line.
fn finds_fault(player: &mut Player<'_, '_>, number: usize, line: &str) -> io::Result<()> {
    if line.is_empty() || line.starts_with("#") {
        return Ok(());
    }
    player.tally.count_faulty_line();
    if !is_found(player.rt.alloc(), line)? {
        player.tell(number, "a faulty line", "its fault", "another answer");
    }
    Ok(())
}

/// Looks for the fault of each line of a file.
pub(crate) fn finds_faults(player: &mut Player<'_, '_>, text: &str) -> io::Result<()> {
    let mut number = 0usize;
    for line in text.split('\n') {
        number = number.saturating_add(1);
        finds_fault(player, number, line)?;
    }
    Ok(())
}
