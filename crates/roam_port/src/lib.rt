//! Sockets as the server sees them: what is asked of one, what is heard at it, which socket is
//! which place's and which worker's, and the packets that are to leave, for each socket a queue of its own.
//!
//! Nothing here opens a socket, waits or starts a thread: the calls are generic over a [`Port`]. Who puts a packet
//! into an outbox never waits: one that finds its socket's share full is lost, and counted. Memory is taken when an
//! outbox is made, and at no other time.
//!
//! # Proved
//!
//! - a packet is put behind those of its port, and no other port's change; one is lost only where that very
//!   port's share is full, or where its port fails, and is counted by that cause | `Outbox::put`: `puts`;
//!   `share_of`
//! - what was put is what is sent, what is lost by a full share or by a port, and what waits; what the metrics are
//!   told is what was counted of it since they were told last | `Outbox`: `balanced`; `take_account`;
//!   `Outgoing::settle`
//! - a port's packets are handed to it in order, each once, until it has no room: what waits for it then stands
//!   aside, and no other port's packet meets it; no port for which packets wait is forgotten |
//!   `Outbox::send_all`, `put_sending`, `try_again`
//! - to listen is one receive, and gives the datagram that came, at its place, from its source; none is lost for want
//!   of memory | `listen`
//! - a receive that doesn't fail sets the count of faults to 0; at 100 in a row the answer is that the socket
//!   is to be given up | `listen`
//! - of each port, what waited and what was put is what was handed to it and is gone, and behind it what waits, each
//!   packet once and in order; and just these sends were made at it, whatever a port does with one |
//!   `Outbox::send_all`, `put_sending`: `becomes`
//! - which place has which socket, where that is to be bound, and which worker is to serve it, with `spread`
//!   and without | `socket_of`, `place_of`, `endpoint_of`, `socket_numbers`, `socket_count`,
//!   `worker_of`
#![tactic(auto)]

mod account;
mod heard;
mod listening;
mod losses;
mod outbox;
mod port;
mod port_queue;
mod queues;
mod sent;
mod sharing;
mod sockets;

pub use account::Account;
pub use heard::{FAULTS_TO_GIVE_UP, Heard};
pub use listening::listen;
pub use losses::{LossCause, Losses};
pub use outbox::Outbox;
pub use port::{Port, PortFault, SendFault};
pub use port_queue::Standing;
pub use sent::Sent;
pub use sharing::{GREATEST_SHARE, LEAST_SHARE, share_of};
pub use sockets::{
    MOST_OF_A_NUMBER, endpoint_of, nth_of, place_of, socket_count, socket_numbers, socket_of,
    worker_of,
};
