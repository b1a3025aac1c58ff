//! The questions to a server, and for how long the answer is waited for.

ghost use Rattle.std.specs.Prelude.{◌≡◌};
ghost use Rattle.roam_cli.specs.Waits.{changes, seconds_of};

use crate::ControlOrder;
use std::io;
use std::io::Write;

/// The time for an answer to a question that only looks, in seconds.
const PATIENCE: u64 = 10;

/// The time for an answer to an order that changes something, in seconds: as long as a server may take to end. A server
/// that is asked to stop answers at once.
const LONG_PATIENCE: u64 = 30;

/// Returns whether what is asked for changes the server, or lets go of what it stores.
pub fn changes(order: ControlOrder<'_>) -> bool
    ensures { result ≡ changes order.entry }
{
    match order {
        ControlOrder::Status
        | ControlOrder::StatusOf(_)
        | ControlOrder::Problems
        | ControlOrder::StatusAsJson
        | ControlOrder::Watch
        | ControlOrder::Metrics => false,
        ControlOrder::Stop
        | ControlOrder::Reload
        | ControlOrder::ReloadAndLose
        | ControlOrder::Trace(_) => true,
    }
}

/// Returns for how many seconds an answer is waited for.
pub fn seconds_of(order: ControlOrder<'_>) -> u64
    ensures { result ≡ seconds_of order.entry }
{
    if changes(order) {
        LONG_PATIENCE
    } else {
        PATIENCE
    }
}

/// Asks for the stored steps of a shard.
pub fn ask_for_trace<W: Write>(stream: &mut W, shard: u16) -> io::Result<()> {
    write!(
        stream,
        "GET /trace?shard={shard} HTTP/1.1\r\nHost: roam\r\nConnection: close\r\n\r\n"
    )
}

/// Returns what is sent, where it is always the same.
pub fn question(order: ControlOrder<'_>) -> &'static [u8] {
    match order {
        ControlOrder::Trace(_) => b"",
        ControlOrder::Status
        | ControlOrder::StatusOf(_)
        | ControlOrder::Problems
        | ControlOrder::Watch => {
            b"GET /status HTTP/1.1\r\nHost: roam\r\nConnection: close\r\n\r\n"
        }
        ControlOrder::StatusAsJson => {
            b"GET /status.json HTTP/1.1\r\nHost: roam\r\nConnection: close\r\n\r\n"
        }
        ControlOrder::Metrics =>
            b"GET /metrics HTTP/1.1\r\nHost: roam\r\nConnection: close\r\n\r\n",
        ControlOrder::Stop => {
            b"POST /stop HTTP/1.1\r\nHost: roam\r\nContent-Length: 0\r\nConnection: close\r\n\r\n"
        }
        ControlOrder::Reload => {
            b"POST /reload HTTP/1.1\r\nHost: roam\r\nContent-Length: 0\r\nConnection: close\r\n\r\n"
        }
        ControlOrder::ReloadAndLose => {
            b"POST /reload?lose HTTP/1.1\r\nHost: roam\r\nContent-Length: 0\r\nConnection: close\r\n\r\n"
        }
    }
}
