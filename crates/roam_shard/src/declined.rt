//! The causes why no shard follows another configuration.

use roam_migrate::Loss;
use roam_wire::NoMemory;
use std::alloc::Allocator;

/// The cause why no shard of a paused hub follows another configuration.
#[derive(Drop)]
pub enum Declined<A: Allocator> {
    /// A growth was refused.
    Memory,
    /// Nobody agreed to lose this of each realm, by its index: of one at least more than held replies.
    Losses(Vec<Loss, A>),
}

impl<A: Allocator> From<NoMemory> for Declined<A> {
    ghost use Rattle.std.specs.Prelude.{◌≡◌};
    ghost use Rattle.roam_shard.specs.declared.declined.Declined.TheVariants.{Memory};

    ghost from_gives = { λ _ given. given ≡ Memory };

    fn from(_error: NoMemory) -> Declined<A> {
        Declined::Memory
    }
}
