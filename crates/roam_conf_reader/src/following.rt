//! A configuration that is to follow the one which is served.

ghost use Rattle.std.specs.Prelude.{◌≡◌, Err, IfOk, IsTrue};
ghost use Rattle.roam_conf.specs.Consistent.{IsConsistent};
ghost use Rattle.roam_conf.specs.Shown.{shown, shown_parts};
ghost use Rattle.roam_reload.specs.Numbers.{TooMany, laid_out};

use crate::duplicates::first_duplicate;
use roam_conf::{Config, ConfigParts};
use roam_reload::{LayFault, lay_out};
use std::alloc::Global;

/// Returns whether nothing stands twice, as far as memory was there to tell.
fn is_consistent(alloc: Global, parts: &ConfigParts) -> bool
    ensures { IsTrue result → IsConsistent (shown_parts parts.now) }
{
    match first_duplicate(alloc, parts) {
        Ok(None) => true,
        _ => false,
    }
}

/// Lays a configuration out by the one which it is to follow, and gives it that one's seed: each realm and each peer
/// of both has the index that it had.
///
/// # Errors
///
/// `Memory`; `Numbers` where realms or peers are more than have an index.
pub fn following_config(alloc: Global, old: &Config, new: Config) -> Result<Config, LayFault>
    ensures ok { IfOk result (λ config. shown config ≡ laid_out (shown old.now) (shown new)) }
    ensures err { result ≡ Err LayFault.Numbers → TooMany (laid_out (shown old.now) (shown new)) }
{
    let parts = lay_out(alloc, old, new)?;
    if !is_consistent(alloc, &parts) {
        // Nothing stands twice in what is laid out that doesn't in the file: memory was refused.
        return Err(LayFault::Memory);
    }
    Ok(Config::new(alloc, parts)?)
}
