//! The copy of a configuration that a server under the unit reads.

use crate::ControlOrder;
use std::fs;
use std::rt::Files;

/// The control socket of a server under the unit.
const SOCKET: &str = "/run/roam/control";

/// The file that an operator edits, and its copy, which root makes and the server reads.
const EDITED: &str = "/etc/roam/roam.conf";

const COPY: &str = "/run/roam-conf/roam.conf";

/// The text where the file has changed since.
pub const NOT_READ: &str =
    "nothing was asked: /etc/roam/roam.conf has changed, and a copy of it is read: type systemctl reload roam";

/// Returns whether both files can be read, and differ.
fn differ<R: Files + AllocGlobal>(rt: &R, one: &str, other: &str) -> bool {
    match (fs::read(rt, one), fs::read(rt, other)) {
        (Ok(one), Ok(other)) => one.as_slice() != other.as_slice(),
        _ => false,
    }
}

/// Returns whether the order asks for a reload, and the server of the unit would read a copy that is older than the
/// file. `systemctl reload` makes the copy anew before it asks.
pub fn would_read_old_copy<R: Files + AllocGlobal>(
    rt: &R,
    path: &str,
    order: ControlOrder<'_>,
) -> bool {
    matches!(order, ControlOrder::Reload | ControlOrder::ReloadAndLose)
        && path == SOCKET
        && differ(rt, EDITED, COPY)
}
