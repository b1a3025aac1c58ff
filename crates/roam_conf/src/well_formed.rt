//! Names that are well formed: realms of network access identifiers (RFC 7542, section 2.2).

ghost use Rattle.std.specs.Prelude.{◌≡◌, ◌==◌};
ghost use Rattle.std.specs.List.{list_all, list_any};
ghost use Rattle.roam_conf.specs.Texts.{parts};
ghost use Rattle.roam_conf.specs.WellFormed.{is_label_octet, is_label, is_well_formed};

/// Returns whether each octet may stand in a label: a letter, a digit, `-`, or an octet of a letter beyond ASCII.
fn are_of_label(octets: &[u8]) -> bool
    ensures { result ≡ list_all is_label_octet octets.now }
{
    octets.iter().all(|octet| octet.is_ascii_alphanumeric() || *octet == b'-' || *octet > 127)
}

/// Returns whether the octets are a label: at least one, and no `-` at either end.
fn is_label(octets: &[u8]) -> bool
    ensures { result ≡ is_label octets.now }
{
    if octets.is_empty() {
        return false;
    }
    are_of_label(octets) && octets[0] != b'-' && octets[octets.len() - 1] != b'-'
}

/// Returns whether all that stands between the dots are labels.
fn are_labels(name: &[u8]) -> bool
    ensures { result ≡ list_all is_label (parts 46 name.now) }
{
    name.split(|octet| *octet == b'.')
        .all(|label| is_label(label))
}

/// Returns whether there is a dot.
fn has_dot(name: &[u8]) -> bool
    ensures { result ≡ list_any (λ octet. octet == 46) name.now }
{
    name.iter().any(|octet| *octet == b'.')
}

/// Returns whether the name is well formed: at least two labels, joined by dots.
#[tactic(auto, unfolding(crate::specs::WellFormed::is_well_formed))]
pub(crate) fn is_well_formed(name: &[u8]) -> bool
    ensures { result ≡ is_well_formed name.now }
{
    has_dot(name) && are_labels(name)
}
