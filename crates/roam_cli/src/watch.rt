//! Asking a server something, and how it stands again and again.

ghost use Rattle.std.specs.Prelude.{◌≡◌, OnOk, IfErr};
ghost use Rattle.roam_cli.specs.CommandFaults.{AskFails};
ghost use Rattle.roam_cli.specs.Printed.{IsPrinted};

use crate::control::{answer, ask_once, body_of, is_done, print};
use crate::unit_copy::{NOT_READ, would_read_old_copy};
use crate::{ControlOrder, Fault, shown};
use std::alloc::{AllocError, Global};
use std::io::Write;
use std::net::Net;
use std::rt::Files;
use std::thread;
use std::time::{Clock, Duration};

/// The octets by which a terminal begins again at its top (ECMA-48: CUP and ED).
const FROM_THE_TOP: &[u8] = b"\x1b[H\x1b[2J";

/// The text where a server that is watched answers no more.
const NO_MORE: &[u8] = b"no more answers\n";

/// Returns what has a terminal show octets from its top on.
fn from_the_top(alloc: Global, octets: &[u8]) -> Result<Vec<u8>, AllocError> {
    let mut text = Vec::new(alloc);
    text.extend_from_slice(FROM_THE_TOP)?;
    let shown = shown(alloc, octets)?;
    text.extend_from_slice(shown.as_slice())?;
    Ok(text)
}

/// Returns what has a terminal show how a server stands, in place of what it shows; none where the server doesn't say.
fn standing<R: AllocGlobal + Net>(rt: &R, path: &str) -> Option<Vec<u8>> {
    let (stream, answer) = answer(rt, path, ControlOrder::Watch).ok()?;
    let text = match body_of(answer.as_slice()) {
        Some(body) if body.is_whole && is_done(answer.as_slice()) => {
            from_the_top(rt.alloc(), body.octets).ok()
        }
        _ => None,
    };
    drop(stream);
    text
}

/// Prints how a server stands in place of what was printed, or that it doesn't say so any more. Answers whether it did.
fn print_anew<'a, R: AllocGlobal + Net, W: Write>(
    rt: &R,
    path: &str,
    out: &mut W,
) -> Result<bool, Fault<'a>>
    ensures ok { OnOk result (IsPrinted (W.contents out.old) (W.contents out.new)) }
    ensures err { IfErr result (λ fault. fault ≡ Fault.Write) }
{
    match standing(rt, path) {
        Some(text) => {
            print(text.as_slice(), out)?;
            Ok(true)
        }
        None => {
            print(NO_MORE, out)?;
            Ok(false)
        }
    }
}

/// Prints how a server stands, and does so anew each second until it doesn't say so any more.
fn watch<'a, R: AllocGlobal + Net + Clock, W: Write>(
    rt: &R,
    path: &'a str,
    out: &mut W,
) -> Result<(), Fault<'a>>
    ensures ok { OnOk result (IsPrinted (W.contents out.old) (W.contents out.new)) }
    ensures err { IfErr result (AskFails path.now (W.contents out.old) (W.contents out.new)) }
{
    ask_once(rt, path, ControlOrder::Watch, out)?;
    for _ in 0..u64::MAX {
        thread::sleep(rt, Duration::from_secs(1));
        match print_anew(rt, path, out) {
            Ok(true) => {}
            Ok(false) => return Ok(()),
            Err(_) => return Err(Fault::Write),
        }
    }
    Ok(())
}

/// Asks a server something through the control socket of this path, and prints what it answers; one that is asked to
/// stop, when it has ended; how it stands, where that is to be watched, anew each second.
///
/// # Errors
///
/// Those of `ask_once`; of a server that is watched those of the first answer, and `Write`; `Unanswered`, where the
/// server would read an old copy of the file that an operator has changed.
pub fn ask<'a, R: Files + AllocGlobal + Net + Clock, W: Write>(
    rt: &R,
    path: &'a str,
    order: ControlOrder<'_>,
    out: &mut W,
) -> Result<(), Fault<'a>>
    ensures ok { OnOk result (IsPrinted (W.contents out.old) (W.contents out.new)) }
    ensures err { IfErr result (AskFails path.now (W.contents out.old) (W.contents out.new)) }
{
    if would_read_old_copy(rt, path, order) {
        let why = NOT_READ;
        Err(Fault::Unanswered { path, why })
    } else if matches!(order, ControlOrder::Watch) {
        watch(rt, path, out)
    } else {
        ask_once(rt, path, order, out)
    }
}
