//! Asking a server something through its control socket.

ghost use Rattle.std.specs.Prelude.{◌≡◌, OnOk, IfErr};
ghost use Rattle.roam_cli.specs.CommandFaults.{AskFails};
ghost use Rattle.roam_cli.specs.Printed.{IsPrinted};

use crate::looking::next_octet;
use crate::narrowing::shown_for;
use crate::questions::{ask_for_trace, changes, question, seconds_of};
use crate::reaching::why_unreached;
use crate::{ControlOrder, Fault, finish};
use roam_conf::decimal;
use std::io::{ErrorKind, Read, Write};
use std::net::Net;
use std::os::unix::net::UnixStream;
use std::time::{Clock, Duration};
use std::{io, str, thread};

/// The time for the end of a server that is asked to stop, in seconds: longer than a server may take to end.
const UNTIL_END: u64 = 45;

/// The number of looks in that time whether it has ended, and the time before each look, in milliseconds.
const LOOKS: u32 = 450;

const BETWEEN_LOOKS: u64 = 100;

/// The number of octets that the head of an answer may have.
const HEAD: u32 = 16_384;

/// Reads the head of an answer, an octet at a time: nothing behind it is taken.
fn read_head(stream: &mut UnixStream, answer: &mut Vec<u8>) -> io::Result<()> {
    for _ in 0..HEAD {
        let count = Read::by_ref(stream).take(1).read_to_end(answer)?;
        if count == 0 || answer.as_slice().ends_with(b"\r\n\r\n") {
            break;
        }
    }
    Ok(())
}

/// Reads the body of an answer whose head was read. Its last octet is looked at, and not taken, where its length is
/// stated.
fn read_body(stream: &mut UnixStream, answer: &mut Vec<u8>) -> io::Result<()> {
    let length = stated_length(answer.as_slice()).unwrap_or(u64::MAX);
    if length > 0 {
        Read::by_ref(stream).take(length - 1).read_to_end(answer)?;
        if let Some(last) = next_octet(stream) {
            answer.extend_from_slice(&[last])?;
        }
    }
    Ok(())
}

/// Takes the last octet of an answer, and closes the connection. The server knows by that that all of it was taken: a
/// connection that is closed where something lies there is one that was cut (unix(7), `ECONNRESET`).
fn take_last(mut stream: UnixStream) {
    let mut last = [0u8];
    let _is_taken = stream.read_exact(&mut last).is_ok();
}

/// Reads all that is answered, and returns the connection, from which the last octet isn't taken: until it is, the
/// server takes the answer for one that isn't taken whole.
pub fn answer<R: AllocGlobal + Net>(
    rt: &R,
    path: &str,
    order: ControlOrder<'_>,
) -> io::Result<(UnixStream, Vec<u8>)> {
    let mut stream = UnixStream::connect(rt, path)?;
    let patience = Duration::from_secs(seconds_of(order));
    stream.set_read_timeout(Some(patience))?;
    stream.set_write_timeout(Some(patience))?;
    match order {
        ControlOrder::Trace(shard) => ask_for_trace(&mut stream, shard)?,
        _ => stream.write_all(question(order))?,
    }
    let mut answer = Vec::new(rt.alloc());
    let read = read_head(&mut stream, &mut answer);
    if answer.is_empty() {
        read?;
    }
    let _is_read = read_body(&mut stream, &mut answer).is_ok();
    Ok((stream, answer))
}

/// Returns whether an answer tells success (RFC 9110, section 15.3).
pub fn is_done(answer: &[u8]) -> bool {
    answer.starts_with(b"HTTP/1.1 2")
}

/// Returns why what was asked for was not done, where an answer doesn't tell success: perhaps there is no such shard
/// (RFC 9110, section 15.5.5).
fn why_not_done(order: ControlOrder<'_>, answer: &[u8]) -> &'static str {
    if matches!(order, ControlOrder::Trace(_)) && answer.starts_with(b"HTTP/1.1 404") {
        "no such shard: they are numbered from 0"
    } else {
        "no answer"
    }
}

/// Returns whether an answer says why what was asked for was not done (RFC 9110, section 15.5.10).
fn is_declined(answer: &[u8]) -> bool {
    answer.starts_with(b"HTTP/1.1 409")
}

/// Reads the length of the body that a line of an answer's head states (RFC 9110, section 8.6).
fn length_in(line: &str) -> Option<u64> {
    let (name, value) = line.split_once(':')?;
    if name.eq_ignore_ascii_case("content-length") {
        decimal(value.trim(), 0, u64::MAX)
    } else {
        None
    }
}

/// Reads the length of the body that an answer's head states, where it does.
fn stated_length(head: &[u8]) -> Option<u64> {
    for line in str::from_utf8(head).ok()?.split("\r\n") {
        let length = length_in(line);
        if length.is_some() {
            return length;
        }
    }
    None
}

/// The body of an answer, as far as it came.
#[derive(Clone, Copy)]
pub struct Body<'a> {
    pub octets: &'a [u8],
    /// True where all of it came.
    pub is_whole: bool,
}

/// Returns the body of an answer (RFC 9112, sections 4 and 6). Where the head doesn't state its length, it may be
/// cut.
pub fn body_of(answer: &[u8]) -> Option<Body<'_>> {
    let end = answer
        .windows(4)
        .position(|four| four == b"\r\n\r\n".as_slice())?;
    let octets = answer.get(end + 4..)?;
    Some(Body {
        octets,
        is_whole: stated_length(answer.get(..end)?) == Some(octets.len() as u64),
    })
}

/// Prints what a server answers.
pub fn print<'a, W: Write>(body: &[u8], out: &mut W) -> Result<(), Fault<'a>>
    ensures ok { OnOk result (IsPrinted (W.contents out.old) (W.contents out.new)) }
    ensures err { IfErr result (λ fault. fault ≡ Fault.Write) }
{
    out.write_all(body).map_err(|_| Fault::Write)?;
    finish(out)
}

/// Returns what can be done where a server did not do what it was asked for: that it would lose something its answer
/// says.
fn what_to_do(body: &[u8]) -> &'static str {
    match str::from_utf8(body) {
        Ok(text) if text.contains(" would lose ") => {
            "roam check OLD NEW says which change; to do it anyway: reload --lose"
        }
        _ => "roam check CONF says more about a file",
    }
}

/// Prints why a server did not do what it was asked for.
fn print_declined<'a, W: Write>(path: &'a str, body: &[u8], out: &mut W) -> Fault<'a>
    ensures { AskFails path.now (W.contents out.old) (W.contents out.new) result }
{
    let what = what_to_do(body);
    match print(body, out) {
        Ok(()) => Fault::Declined { path, what },
        Err(_) => Fault::Write,
    }
}

/// Prints what came of an answer that was cut.
fn print_cut<'a, W: Write>(path: &'a str, body: &[u8], out: &mut W) -> Fault<'a>
    ensures { AskFails path.now (W.contents out.old) (W.contents out.new) result }
{
    match print(body, out) {
        Ok(()) => Fault::Cut { path },
        Err(_) => Fault::Write,
    }
}

/// Waits until nobody listens at the path any more, but not for ever. Answers whether that is so.
fn has_ended<R: Net + Clock>(rt: &R, path: &str) -> bool {
    for _ in 0..LOOKS {
        if UnixStream::connect(rt, path).is_err() {
            return true;
        }
        thread::sleep(rt, Duration::from_millis(BETWEEN_LOOKS));
    }
    false
}

/// Returns the order by which rows of an answer are chosen: of one that is cut, or doesn't tell success, all are shown.
fn narrowed_by<'a>(order: ControlOrder<'a>, body: &Body<'_>, answer: &[u8]) -> ControlOrder<'a> {
    if body.is_whole && is_done(answer) {
        order
    } else {
        ControlOrder::Status
    }
}

/// Prints an answer of the server of this path, of which nothing steers a terminal. Where one is asked to stop, when it
/// has ended.
fn print_answer<'a, R: AllocGlobal + Net + Clock, W: Write>(
    rt: &R,
    path: &'a str,
    order: ControlOrder<'_>,
    answer: &[u8],
    out: &mut W,
) -> Result<(), Fault<'a>>
    ensures ok { OnOk result (IsPrinted (W.contents out.old) (W.contents out.new)) }
    ensures err { IfErr result (AskFails path.now (W.contents out.old) (W.contents out.new)) }
{
    let Some(body) = body_of(answer) else {
        let why = "no answer";
        return Err(Fault::Unanswered { path, why });
    };
    let shown = match shown_for(rt.alloc(), narrowed_by(order, &body, answer), body.octets) {
        Ok(Some(shown)) => shown,
        Ok(None) => {
            let why = "no such realm is served";
            return Err(Fault::Unanswered { path, why });
        }
        Err(_) => return Err(Fault::Memory),
    };
    let shown = shown.as_slice();
    if !body.is_whole {
        Err(print_cut(path, shown, out))
    } else if is_declined(answer) {
        Err(print_declined(path, shown, out))
    } else if !is_done(answer) {
        let why = why_not_done(order, answer);
        Err(Fault::Unanswered { path, why })
    } else if matches!(order, ControlOrder::Stop) && !has_ended(rt, path) {
        let seconds = UNTIL_END;
        Err(Fault::StillServes { path, seconds })
    } else {
        print(shown, out)
    }
}

/// Returns whether an order may still be carried out to which no answer came for this error: it changes something, and
/// time ran out. Where nobody takes a connection it isn't.
fn may_be_done(order: ControlOrder<'_>, error: &io::Error) -> bool {
    changes(order) && error.kind() == ErrorKind::WouldBlock
}

/// Asks a server something through the control socket of this path, and prints what it answers; one that is asked to
/// stop, when it has ended.
///
/// # Errors
///
/// `Unanswered`, where nobody is reached, or no answer tells success, or no realm has the name; `Late`, where time ran
/// out and the order may still be carried out; `StillServes`, where a server that is asked to stop doesn't end; `Cut`,
/// where not all of it comes, and what came is printed; `Declined`, where the answer says why it was not done, and is
/// printed; `Memory`; `Write`.
pub fn ask_once<'a, R: AllocGlobal + Net + Clock, W: Write>(
    rt: &R,
    path: &'a str,
    order: ControlOrder<'_>,
    out: &mut W,
) -> Result<(), Fault<'a>>
    ensures ok { OnOk result (IsPrinted (W.contents out.old) (W.contents out.new)) }
    ensures err { IfErr result (AskFails path.now (W.contents out.old) (W.contents out.new)) }
{
    match answer(rt, path, order) {
        Ok((stream, answer)) => {
            print_answer(rt, path, order, answer.as_slice(), out)?;
            take_last(stream);
            Ok(())
        }
        Err(error) if may_be_done(order, &error) => {
            let seconds = seconds_of(order);
            Err(Fault::Late { path, seconds })
        }
        Err(error) => {
            let why = why_unreached(&error);
            Err(Fault::Unanswered { path, why }.unless_memory(&error))
        }
    }
}
