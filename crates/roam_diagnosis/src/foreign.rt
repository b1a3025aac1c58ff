//! The sign that a text that is no TOML document is the configuration of another program.

/// A program whose configurations can be converted.
#[derive(Clone, Copy, PartialEq, Eq)]
enum Program {
    Radsecproxy,
    FreeRadius,
}

/// Returns what a line says without what stands round it, or nothing of a comment.
fn statement(line: &str) -> &str {
    let line = line.trim();
    if line.starts_with('#') { "" } else { line }
}

/// Returns whether the line opens a block, as `client NAME {` does: only words stand before the brace.
fn opens_block(line: &str) -> bool {
    match line.strip_suffix('{') {
        Some(front) => {
            front.starts_with(|c: char| c.is_ascii_alphabetic()) && !front.contains('=')
        }
        None => false,
    }
}

/// Returns whose the first statement of a block is: `ipaddr = ..` is FreeRADIUS', `host ..` radsecproxy's.
fn program_of_statement(line: &str) -> Program {
    if line.contains('=') || opens_block(line) {
        Program::FreeRadius
    } else {
        Program::Radsecproxy
    }
}

/// Returns the program whose configuration the text may be: that of the first statement in a block.
fn program_of(text: &str) -> Option<Program> {
    let mut is_in_block = false;
    for line in text.lines() {
        let line = statement(line);
        if is_in_block && !line.is_empty() {
            return Some(program_of_statement(line));
        }
        is_in_block |= opens_block(line);
    }
    None
}

/// Returns what is said of a text that looks like another program's configuration, and nothing of another one.
pub(crate) fn remedy_of_foreign(text: &str) -> &'static str {
    match program_of(text) {
        Some(Program::Radsecproxy) => {
            ": this looks like a file of radsecproxy, which from-radsecproxy.py converts (see MIGRATING)"
        }
        Some(Program::FreeRadius) => {
            ": this looks like a file of FreeRADIUS, which from-freeradius.py converts (see MIGRATING)"
        }
        None => "",
    }
}
