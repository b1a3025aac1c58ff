//! The packets that wait where a thread goes on in place of another one.

ghost use Rattle.std.specs.Prelude.{◌≤◌, [], IfOk};
ghost use Rattle.roam_outgoing.specs.Sending.{PutsEach};
ghost use Rattle.roam_port.specs.Outbox.{port_count};

use roam_port::Outbox;
use roam_wire::NoMemory;
use std::alloc::Global;

/// Makes an outbox for so many ports, in which the packets wait that waited in another one: each port is tried again.
pub(crate) fn outbox_for(
    alloc: Global,
    before: Outbox<Global>,
    ports: usize,
) -> Result<Outbox<Global>, NoMemory>
    ensures ports { IfOk result (λ o. port_count o ≤ ports) }
    ensures waits { IfOk result (λ o. port_count before ≤ ports → PutsEach [] before o) }
{
    // No configuration that may follow has fewer sockets.
    if before.port_count() > ports {
        return Outbox::new(alloc, ports);
    }
    let mut outbox = before;
    outbox.add_ports(alloc, ports)?;
    for socket in 0..ports {
        outbox.try_again(socket);
    }
    Ok(outbox)
}
