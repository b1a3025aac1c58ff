//! The rows of a server's tables that are asked for: those of some realms, or those in which something is wrong.
//!
//! A table begins with the heads of its columns, by which cells are found. At least two blanks stand between cells, and
//! an empty line between tables.

use crate::{ControlOrder, shown};
use roam_conf::decimal;
use std::alloc::{AllocError, Global};
use std::str;

/// The text where nothing is wrong.
const NO_PROBLEMS: &[u8] = b"\nno problems\n";

/// The number of ranks of problems.
const RANKS: u8 = 6;

/// Returns the cell of a row in a column, counted from 0.
fn cell(row: &str, column: usize) -> Option<&str> {
    let mut before = 0usize;
    for part in row.split("  ") {
        let part = part.trim();
        if !part.is_empty() {
            if before == column {
                return Some(part);
            }
            before = before.saturating_add(1);
        }
    }
    None
}

/// Returns the column with this head, counted from 0.
fn column_of(heads: &str, head: &str) -> Option<usize> {
    let mut before = 0usize;
    for part in heads.split("  ") {
        let part = part.trim();
        if part == head {
            return Some(before);
        }
        if !part.is_empty() {
            before = before.saturating_add(1);
        }
    }
    None
}

/// Returns what a row has under a head.
fn under<'a>(heads: &str, head: &str, row: &'a str) -> Option<&'a str> {
    cell(row, column_of(heads, head)?)
}

/// Returns whether the row is of one of the realms, between whose names stand commas.
fn is_of(realms: &str, heads: &str, row: &str) -> bool {
    let Some(realm) = under(heads, "REALM", row) else {
        return false;
    };
    for name in realms.split(',') {
        if name.eq_ignore_ascii_case(realm) {
            return true;
        }
    }
    false
}

/// Returns whether as many are in use as there are.
fn is_full(cell: &str) -> bool {
    match cell.split_once(" of ") {
        Some((part, whole)) => part == whole && whole != "0",
        None => false,
    }
}

/// Returns the rank of a server that stands so, where something is wrong with it.
fn rank_of_server(stands: &str) -> Option<u8> {
    if stands.starts_with("never answered ") || stands.starts_with("dead for ") {
        Some(0)
    } else if stands == "replies dropped" {
        Some(1)
    } else if stands.ends_with(" unanswered") {
        Some(2)
    } else {
        None
    }
}

/// Returns whether what a row has under a head is full.
fn is_full_under(heads: &str, head: &str, row: &str) -> bool {
    match under(heads, head, row) {
        Some(cell) => is_full(cell),
        None => false,
    }
}

/// Returns whether requests, sessions or Identifiers of the row are as many as there may be.
fn has_full(heads: &str, row: &str) -> bool {
    is_full_under(heads, "WAITING", row)
        || is_full_under(heads, "SESSIONS", row)
        || is_full_under(heads, "IN USE", row)
}

/// Returns whether the row is of a peer of which all is refused.
fn is_refused_peer(heads: &str, row: &str) -> bool {
    under(heads, "PEER", row).is_some()
        && under(heads, "REQUESTS", row) == Some("0")
        && under(heads, "DROPPED", row) != Some("0")
}

/// Returns the count that a row has under a head, 0 where it has none.
fn count_under(heads: &str, head: &str, row: &str) -> u64 {
    match under(heads, head, row) {
        Some(count) => decimal(count, 0, u64::MAX).unwrap_or(0),
        None => 0,
    }
}

/// Returns whether the row is of a realm where logins stopped midway behind more than one reply of a hundred.
fn has_abandoned(heads: &str, row: &str) -> bool {
    count_under(heads, "ABANDONED", row) > count_under(heads, "RETURNED", row) / 100
}

/// Returns the rank of a row in which something is wrong, from 0 for the worst.
fn rank_of_problem(heads: &str, row: &str) -> Option<u8> {
    let rank = match under(heads, "STATE", row) {
        Some(stands) => rank_of_server(stands),
        None => None,
    };
    if rank.is_some() {
        rank
    } else if has_full(heads, row) {
        Some(3)
    } else if is_refused_peer(heads, row) {
        Some(4)
    } else if has_abandoned(heads, row) {
        Some(5)
    } else {
        None
    }
}

/// Returns the rank of a row that is asked for.
fn rank_of(order: ControlOrder<'_>, heads: &str, row: &str) -> Option<u8> {
    match order {
        ControlOrder::StatusOf(realms) if is_of(realms, heads, row) => Some(0),
        ControlOrder::StatusOf(_) => None,
        _ => rank_of_problem(heads, row),
    }
}

/// Returns whether some row of a table is asked for.
fn has_row(order: ControlOrder<'_>, heads: &str, table: &str) -> bool {
    for row in table.lines() {
        if row != heads && rank_of(order, heads, row).is_some() {
            return true;
        }
    }
    false
}

/// Adds a line.
fn push_line(out: &mut Vec<u8>, line: &str) -> Result<(), AllocError> {
    out.extend_from_slice(line.as_bytes())?;
    out.extend_from_slice(b"\n")
}

/// Adds the rows of a table that have this rank.
fn push_rows(
    out: &mut Vec<u8>,
    order: ControlOrder<'_>,
    heads: &str,
    table: &str,
    rank: u8,
) -> Result<(), AllocError> {
    for row in table.lines() {
        if row != heads && rank_of(order, heads, row) == Some(rank) {
            push_line(out, row)?;
        }
    }
    Ok(())
}

/// Adds a table with the rows that are asked for, the worst ones first, where it has any.
fn push_table(out: &mut Vec<u8>, order: ControlOrder<'_>, table: &str) -> Result<(), AllocError> {
    let heads = table.lines().next().unwrap_or("");
    if !has_row(order, heads, table) {
        return Ok(());
    }
    push_line(out, "")?;
    push_line(out, heads)?;
    for rank in 0..RANKS {
        push_rows(out, order, heads, table, rank)?;
    }
    Ok(())
}

/// Adds the tables of a text with the rows that are asked for.
fn push_tables(out: &mut Vec<u8>, order: ControlOrder<'_>, tables: &str) -> Result<(), AllocError> {
    for table in tables.split("\n\n") {
        push_table(out, order, table)?;
    }
    Ok(())
}

/// Returns what is shown of an answer to a question for some rows; none where no realm has one of the names.
fn narrowed(
    alloc: Global,
    order: ControlOrder<'_>,
    text: &str,
) -> Result<Option<Vec<u8>>, AllocError> {
    let (head, tables) = text.split_once("\n\n").unwrap_or((text, ""));
    let mut out = Vec::new(alloc);
    push_line(&mut out, head)?;
    let before = out.len();
    push_tables(&mut out, order, tables)?;
    if out.len() == before {
        if let ControlOrder::StatusOf(_) = order {
            return Ok(None);
        }
        out.extend_from_slice(NO_PROBLEMS)?;
    }
    Ok(Some(out))
}

/// Returns what is shown of octets, of which nothing steers a terminal.
fn all_shown(alloc: Global, octets: &[u8]) -> Result<Option<Vec<u8>>, AllocError> {
    match shown(alloc, octets) {
        Ok(text) => Ok(Some(text)),
        Err(error) => Err(error),
    }
}

/// Returns what is shown of an answer; none where it is asked for realms, and there is none of them.
pub fn shown_for(
    alloc: Global,
    order: ControlOrder<'_>,
    octets: &[u8],
) -> Result<Option<Vec<u8>>, AllocError> {
    match (order, str::from_utf8(octets)) {
        (ControlOrder::StatusOf(_) | ControlOrder::Problems, Ok(text)) => {
            match narrowed(alloc, order, text)? {
                Some(rows) => all_shown(alloc, rows.as_slice()),
                None => Ok(None),
            }
        }
        _ => all_shown(alloc, octets),
    }
}
