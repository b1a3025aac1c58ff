//! Stored steps as a script, which `roam sim` plays over the file of the configuration: realms and shards have the
//! numbers that they have there.

use crate::file_order::FileOrder;
use roam_conf::{Endpoint, NthText, Place};
use roam_shard::{EventRef, Step};
use std::alloc::{AllocError, Global};
use std::fmt::Write;

/// The hexadecimal digits.
const DIGITS: [u8; 16] = *b"0123456789abcdef";

/// Adds octets in hexadecimal digits; a hyphen where there are none.
fn push_hex(script: &mut Vec<u8>, octets: &[u8]) -> Result<(), AllocError> {
    if octets.is_empty() {
        return script.extend_from_slice(b"-");
    }
    for octet in octets {
        let high = DIGITS[usize::from(*octet / 16)];
        let low = DIGITS[usize::from(*octet % 16)];
        script.extend_from_slice(&[high, low])?;
    }
    Ok(())
}

/// Makes the words of an arrival's line before its octets: when, at which place, and from where.
fn words_of(alloc: Global, now: u64, at: Place, from: Endpoint) -> Result<String, AllocError> {
    match at {
        Place::Auth(nth) => format!(in alloc; " {now} auth{} {from} ", NthText(nth)),
        Place::Acct(nth) => format!(in alloc; " {now} acct{} {from} ", NthText(nth)),
        Place::Out(realm, nth) => {
            format!(in alloc; " {now} out:{realm}{} {from} ", NthText(nth))
        }
        Place::Reverse(realm, nth) => {
            format!(in alloc; " {now} reverse:{realm}{} {from} ", NthText(nth))
        }
    }
}

/// Returns the letter of an arrival, whose session is kept or not.
fn letter_of(keeps_session: bool) -> u8 {
    if keeps_session { b'A' } else { b'L' }
}

/// Adds the line of an arrival.
fn push_arrival(
    script: &mut Vec<u8>,
    letter: u8,
    words: String,
    octets: &[u8],
) -> Result<(), AllocError> {
    script.push(letter)?;
    script.extend_from_slice(words.as_str().as_bytes())?;
    push_hex(script, octets)?;
    script.extend_from_slice(b"\n")
}

/// Says how many steps are missing before others, in a line that isn't played.
fn push_missing(alloc: Global, script: &mut Vec<u8>, missing: u64) -> Result<(), AllocError> {
    let line = format!(in alloc;
        "# {missing} steps before these are missing: their answer was cut\n"
    )?;
    script.extend_from_slice(line.as_str().as_bytes())
}

/// The numbers of realms and shards in a script.
#[derive(Drop)]
pub struct Numbering<'o> {
    /// The place that each realm has in the file; none where that is by the server's own numbers.
    order: Option<&'o FileOrder>,
    /// The shards in which the file has the realms of the one that is traced.
    shards: Vec<u16>,
}

impl<'o> Numbering<'o> {
    /// Returns the numbers of the file in this order for a trace of a shard, of so many.
    pub fn new(
        alloc: Global,
        order: Option<&'o FileOrder>,
        shard: u16,
        shards: u16,
    ) -> Result<Numbering<'o>, AllocError> {
        let shards = match order {
            Some(order) => order.shards_of(alloc, shard, shards)?,
            None => {
                let mut own = Vec::new(alloc);
                own.push(shard)?;
                own
            }
        };
        Ok(Numbering { order, shards })
    }

    /// Returns the number that the file has for a realm, where it has it.
    fn realm(&self, realm: u16) -> Option<u16> {
        match self.order {
            Some(order) => order.place_of(realm),
            None => Some(realm),
        }
    }

    /// Returns a place by the numbers of the file, where it has its realm.
    fn place(&self, at: Place) -> Option<Place> {
        match at {
            Place::Auth(_) | Place::Acct(_) => Some(at),
            Place::Out(realm, nth) => match self.realm(realm) {
                Some(realm) => Some(Place::Out(realm, nth)),
                None => None,
            },
            Place::Reverse(realm, nth) => match self.realm(realm) {
                Some(realm) => Some(Place::Reverse(realm, nth)),
                None => None,
            },
        }
    }
}

/// Adds the line of an arrival, or where its realm isn't in the file a line that says so and isn't played.
fn push_arrived(
    alloc: Global,
    script: &mut Vec<u8>,
    numbering: &Numbering<'_>,
    arrived: (u64, Place, Endpoint, bool),
    octets: &[u8],
) -> Result<(), AllocError> {
    let (now, at, from, keeps_session) = arrived;
    match numbering.place(at) {
        Some(at) => {
            let words = words_of(alloc, now, at, from)?;
            push_arrival(script, letter_of(keeps_session), words, octets)
        }
        None => {
            let line = format!(in alloc;
                "# 1 step is missing here, at {now}: its realm isn't in the file\n"
            )?;
            script.extend_from_slice(line.as_str().as_bytes())
        }
    }
}

/// Adds the lines of a tick: one for each shard in which the file has realms of the one that ticked.
fn push_ticks(
    alloc: Global,
    script: &mut Vec<u8>,
    numbering: &Numbering<'_>,
    now: u64,
) -> Result<(), AllocError> {
    for shard in numbering.shards.as_slice() {
        let line = format!(in alloc; "T {now} {shard}\n")?;
        script.extend_from_slice(line.as_str().as_bytes())?;
    }
    Ok(())
}

/// Adds the lines of a step.
fn push_step(
    alloc: Global,
    script: &mut Vec<u8>,
    numbering: &Numbering<'_>,
    step: &Step<Global>,
) -> Result<(), AllocError> {
    match step.event() {
        EventRef::Arrived {
            now,
            at,
            from,
            octets,
            keeps_session,
        } => {
            let arrived = (now, at, from, keeps_session);
            push_arrived(alloc, script, numbering, arrived, octets)
        }
        EventRef::Ticked { now, .. } => push_ticks(alloc, script, numbering, now),
    }
}

/// Returns the events of steps of one shard, a line each, in their order, by the numbers of the file, behind how many
/// are missing before them, where some are.
pub fn script_of(
    alloc: Global,
    missing: u64,
    numbering: &Numbering<'_>,
    steps: &[Step<Global>],
) -> Result<Vec<u8>, AllocError> {
    let mut script = Vec::new(alloc);
    if missing > 0 {
        push_missing(alloc, &mut script, missing)?;
    }
    for step in steps {
        push_step(alloc, &mut script, numbering, step)?;
    }
    Ok(script)
}
