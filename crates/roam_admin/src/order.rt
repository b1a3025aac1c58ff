//! The orders to the server's own thread, and who gives them.

ghost use Rattle.std.specs.Prelude.{◌≡◌};
ghost use Rattle.roam_admin.specs.Orders.{changes};

use crate::caller::Caller;
use roam_metrics::StatusForm;

/// An order to the server's own thread.
#[derive(Clone, Copy)]
pub enum Order {
    /// The counts, as the page of metrics.
    Metrics,
    /// The state of the server.
    Status(StatusForm),
    /// To stop.
    Stop,
    /// The stored steps of a shard, as a script.
    Trace(u16),
    /// To read its configuration again, and to serve that one: also where something is lost by that, if that is
    /// agreed to.
    Reload(bool),
}

impl Order {
    /// Returns whether it changes the server, or lets go of what it stores.
    pub fn changes(self) -> bool
        ensures { result ≡ changes self }
    {
        match self {
            Order::Metrics | Order::Status(_) => false,
            Order::Stop | Order::Trace(_) | Order::Reload(_) => true,
        }
    }
}

/// An order, and who asks for it.
#[derive(Clone, Copy)]
pub struct Asked {
    pub order: Order,
    pub caller: Caller,
}

impl Asked {
    /// Returns whether it isn't to be carried out any more: it changes something, and whoever asked has closed the
    /// connection.
    pub(crate) fn is_withdrawn(self) -> bool {
        self.order.changes() && self.caller.has_gone()
    }

    /// Returns the same order, of a caller that never goes away.
    pub(crate) fn taken(self) -> Asked
        ensures { result.order ≡ self.order }
    {
        Asked {
            order: self.order,
            caller: Caller::none(),
        }
    }
}
