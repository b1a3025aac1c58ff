//! The question as one row of octets, by which sessions are found.

ghost use Rattle.std.specs.Prelude.{◌≡◌, ◌<◌, ◌≤◌, ◌+◌, ◌++◌, IfOk, OnOk, length, option_map, take};
ghost use Rattle.roam_sessions.specs.Private.Row.{part_text, row_text};
ghost use Rattle.roam_sessions.specs.Short.{shown_short};
ghost use Rattle.roam_sessions.specs.Kept.{shown_asked};

use crate::asked::AskedRef;
use crate::short::Short;
use roam_wire::NoMemory;
use std::alloc::Allocator;
use std::marker::Model;

/// A row: it has room for the octets of any names and any id that a packet holds. Contracts see those octets.
#[derive(Drop)]
pub(crate) struct Row {
    octets: [u8; 1024],
    len: usize,
}

impl Model for Row {
    ghost use Rattle.std.specs.Prelude.{◌≤◌, ℕ, List, take};

    ghost Value = { List ℕ };

    ghost view = { λ r. take r.len r.octets };

    ghost invariant = { λ r. r.len ≤ 1024 };
}

/// Writes a part behind others: an octet 0 where it isn't there, else its size and 1, and the part. Gives where
/// it ends.
fn put_part(buffer: &mut [u8; 1024], at: usize, part: Option<Short<'_>>) -> usize
    requires { at ≤ 770 }
    ensures text { take result buffer.new
        ≡ take at buffer.old ++ part_text (option_map shown_short part.entry) }
    ensures end { result ≡ at + length (part_text (option_map shown_short part.entry)) }
    ensures bound { result ≤ at + 254 }
{
    let Some(part) = part else {
        buffer[at] = 0;
        return at + 1;
    };
    let size = part.octets.len();
    buffer[at] = 1 + size as u8;
    buffer[at + 1..at + 1 + size].copy_from_slice(part.octets);
    at + 1 + size
}

/// Returns how many octets a part takes.
fn part_len(part: Option<Short<'_>>) -> usize
    ensures value { result ≡ length (part_text (option_map shown_short part.entry)) }
    ensures bound { result ≤ 254 }
{
    match part {
        None => 1,
        Some(part) => 1 + part.octets.len(),
    }
}

/// Puts a part behind others.
fn push_part<A: Allocator>(row: &mut Vec<u8, A>, part: Option<Short<'_>>) -> Result<(), NoMemory>
    ensures { OnOk result (row.new.items ≡ row.old.items ++ part_text (option_map shown_short part.entry)) }
{
    let Some(part) = part else {
        row.push(0)?;
        return Ok(());
    };
    row.push(1 + part.octets.len() as u8)?;
    row.extend_from_slice(part.octets)?;
    Ok(())
}

/// Makes the row of what is asked, in memory of its own: as much as it takes.
pub(crate) fn row_of<A: Allocator>(alloc: A, asked: AskedRef<'_>) -> Result<Vec<u8, A>, NoMemory>
    ensures { IfOk result (λ row. row.items ≡ row_text (shown_asked asked.entry)) }
{
    let nas = asked.nas;
    let names = part_len(nas.address) + part_len(nas.identifier) + part_len(nas.ipv6);
    let mut row = Vec::with_capacity(alloc, 2 + names + part_len(asked.id))?;
    row.extend_from_slice(&[(asked.peer / 256) as u8, (asked.peer % 256) as u8])?;
    push_part(&mut row, nas.address)?;
    push_part(&mut row, nas.identifier)?;
    push_part(&mut row, nas.ipv6)?;
    push_part(&mut row, asked.id)?;
    Ok(row)
}

impl Row {
    /// Makes the row of what is asked. Takes no memory.
    pub(crate) fn of(asked: AskedRef<'_>) -> Row
        ensures { result ≡ row_text (shown_asked asked.entry) }
    {
        let mut octets = [0; 1024];
        octets[0] = (asked.peer / 256) as u8;
        octets[1] = (asked.peer % 256) as u8;
        let addressed = put_part(&mut octets, 2, asked.nas.address);
        let identified = put_part(&mut octets, addressed, asked.nas.identifier);
        let addressed_by_ipv6 = put_part(&mut octets, identified, asked.nas.ipv6);
        let len = put_part(&mut octets, addressed_by_ipv6, asked.id);
        Row { octets, len }
    }

    /// Returns the row's octets.
    pub(crate) fn as_slice(&self) -> &[u8]
        ensures { result.now ≡ self.now }
    {
        &self.octets[..self.len]
    }
}
