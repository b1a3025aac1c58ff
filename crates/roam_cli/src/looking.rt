//! An octet of a socket that is looked at, and not taken.

use libc::net::{MSG_PEEK, recv};
use std::io;
use std::io::ErrorKind;
use std::os::fd::AsRawFd;

/// The number of times that a look is made again which a signal interrupts.
const TRIES: u32 = 16;

/// Returns the octet that a read of a socket gives next, and which stays there for it. Returns `None` at its end, or
/// where no octet comes within the time that its reads have.
pub fn next_octet<S: AsRawFd>(socket: &S) -> Option<u8> {
    for _ in 0..TRIES {
        let mut one = [0u8];
        let count = unsafe { recv(socket.as_raw_fd(), &mut one, MSG_PEEK) };
        if count == 1 {
            return Some(one[0]);
        }
        let error = io::Error::from_raw_os_error(os::errno());
        if count == 0 || error.kind() != ErrorKind::Interrupted {
            return None;
        }
    }
    None
}
