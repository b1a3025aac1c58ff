//! The meaning of the texts of a list of attributes to remove.

ghost use Rattle.std.specs.Prelude.{◌≡◌};
ghost use Rattle.roam_address.specs.Decimals.{decimal_in};
ghost use Rattle.roam_conf.specs.Texts.{parts, vendor_kind, vendor_from, removed_in};

use crate::cuts::cut_at_dot;
use crate::decimal;
use roam_wire::RemovedAttribute;

/// Reads a vendor's number.
fn vendor_of(text: &str) -> Option<u32>
    ensures { result ≡ decimal_in 0 16777215 text.now }
{
    match decimal(text, 0, 16777215) {
        Some(vendor) => Some(vendor as u32),
        None => None,
    }
}

/// Reads the number of a Type, or of a vendor's type.
fn kind_of(text: &str) -> Option<u8>
    ensures { result ≡ decimal_in 1 255 text.now }
{
    match decimal(text, 1, 255) {
        Some(kind) => Some(kind as u8),
        None => None,
    }
}

/// Reads a type of a vendor.
fn vendor_kind(vendor: &str, kind: &str) -> Option<RemovedAttribute>
    ensures { result ≡ vendor_kind (decimal_in 0 16777215 vendor.now) (decimal_in 1 255 kind.now) }
{
    match (vendor_of(vendor), kind_of(kind)) {
        (Some(vendor), Some(kind)) => Some(RemovedAttribute::VendorKind(vendor, kind)),
        _ => None,
    }
}

/// Reads a vendor, or a type of a vendor behind a dot.
#[tactic(auto, using(crate::proofs::TextLemmas::vendor_from_parts))]
fn vendor_from(text: &str) -> Option<RemovedAttribute>
    ensures { result ≡ vendor_from (parts 46 text.now) }
{
    match cut_at_dot(text) {
        Some((vendor, kind)) => vendor_kind(vendor, kind),
        None => match vendor_of(text) {
            Some(vendor) => Some(RemovedAttribute::Vendor(vendor)),
            None => None,
        },
    }
}

/// Reads the attribute that a text of a list names: a Type, `26.` and a vendor, or these with a dot and a type of the
/// vendor. Numbers are decimal, without leading zeros.
#[tactic(auto, unfolding(crate::specs::Texts::removed_in))]
pub fn removed_attribute(text: &str) -> Option<RemovedAttribute>
    ensures { result ≡ removed_in text.now }
{
    if let Some(rest) = text.strip_prefix("26.") {
        return vendor_from(rest);
    }
    match kind_of(text) {
        Some(kind) => Some(RemovedAttribute::Kind(kind)),
        None => None,
    }
}
