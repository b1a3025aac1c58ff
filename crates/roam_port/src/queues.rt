//! The packets that wait for each port, and what is sent of them.

ghost use Rattle.std.specs.Prelude.{◌≤◌, max, length, OnOk};
ghost use Rattle.roam_port.specs.Queues.{AreMore, SendsAt};
ghost use Rattle.roam_port.specs.Sharing.{share_of};

use crate::port_queue::PortQueue;
use crate::{Account, Port, Sent, share_of};
use roam_wire::NoMemory;
use std::alloc::Allocator;

/// Hands the packets that wait for a port to it, where they are listed.
pub(crate) fn send_at<P: Port, A: Allocator>(
    queues: &mut Vec<PortQueue<A>, A>,
    ports: &mut [P],
    account: &mut Account,
    socket: usize,
) -> Sent
    requires { length queues.old.items ≤ length ports.old }
    ensures { SendsAt P.hands socket ports.old ports.new queues.old.items queues.new.items
        account.old account.new result }
{
    if socket >= queues.len() || !queues[socket].is_listed() {
        return Sent::none();
    }
    let queue = &mut queues[socket];
    let gone = queue.send(&mut ports[socket], account) as u64;
    let is_blocked = queue.is_aside();
    Sent { gone, is_blocked }
}

/// Adds queues in which nothing waits, until there are those of so many ports. Where a growth is refused, some may have
/// been added.
pub(crate) fn add_queues<A: Allocator + Copy>(
    alloc: A,
    queues: &mut Vec<PortQueue<A>, A>,
    ports: usize,
) -> Result<(), NoMemory>
    ensures ok { OnOk result (ports ≤ length queues.new.items) }
    ensures bound { length queues.new.items ≤ max ports (length queues.old.items) }
    ensures more { AreMore (share_of ports) queues.old.items queues.new.items }
{
    let count = queues.len();
    if ports <= count {
        return Ok(());
    }
    for _ in count..ports {
        queues.push(PortQueue::new(alloc, share_of(ports))?)?;
    }
    Ok(())
}
