//! The opening of a hub.

use std::marker::Brand;

/// The opening of a hub: its configuration, the states in which each shard's history begins, and which histories its
/// shards have. It exists in proofs alone, and so costs nothing: each call of a program that opens a hub picks it, by
/// passing [`Brand`].
pub trait Opened {
    ghost use Rattle.std.specs.Prelude.{ℕ};
    ghost use Rattle.logbook.specs.Pages.{Book};
    ghost use Rattle.roam_history.specs.HubOpening.{HubOpening};

    ghost opening: { HubOpening };

    ghost books: { ℕ → Book };
}

impl Opened for Brand {
    ghost use Rattle.roam_history.specs.HubOpening.{no_opening};

    ghost opening = { no_opening };

    ghost books = { λ _. record { number = 0; log_name = 0; cells_name = 0 } };
}
