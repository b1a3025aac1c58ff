//! The prefixes of two tables of a peer, whatever their order.

ghost use Rattle.std.specs.Prelude.{◌≡◌, map};
ghost use Rattle.std.specs.List.{list_any};
ghost use Rattle.roam_address.specs.Prefixes.{shown_prefix};
ghost use Rattle.roam_address.specs.Same.{same_prefix};
ghost use Rattle.roam_conf.specs.Parts.{shown_peer};
ghost use Rattle.roam_reload.specs.Kept.{are_among, same_prefixes};

use roam_conf::{Peer, Prefix};

/// Returns whether a prefix is one of these.
fn is_among(prefix: Prefix, others: &[Prefix]) -> bool
    ensures { result ≡ list_any (same_prefix (shown_prefix prefix)) (map shown_prefix others.now) }
{
    for other in others {
        if prefix.leading() == other.leading() {
            return true;
        }
    }
    false
}

/// Returns whether each of the prefixes is one of the others.
fn are_among(prefixes: &[Prefix], others: &[Prefix]) -> bool
    ensures { result ≡ are_among (map shown_prefix others.now) (map shown_prefix prefixes.now) }
{
    for prefix in prefixes {
        if !is_among(*prefix, others) {
            return false;
        }
    }
    true
}

/// Returns whether two tables of a peer have the same prefixes.
pub(crate) fn has_same_prefixes(old: &Peer, new: &Peer) -> bool
    ensures { result ≡ same_prefixes (shown_peer old.now).ips (shown_peer new.now).ips }
{
    are_among(old.ips.as_slice(), new.ips.as_slice())
        && are_among(new.ips.as_slice(), old.ips.as_slice())
}
