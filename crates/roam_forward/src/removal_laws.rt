//! Laws of what passes. This function does nothing: its contract holds of all lists.

ghost use Rattle.roam_forward.specs.WithoutLaws.{MalformedGo, NamedGo, OthersStay, PartsPass, PassesInOrder};
ghost use Rattle.roam_forward.specs.WithoutLaws.{ShortStay, VendorsGo, VendorsStay};

/// States what passes of a list of attributes: in its order just what isn't named, and of a vendor's attribute just the
/// sub-attributes that aren't.
pub fn what_passes()
    ensures order { PassesInOrder }
    ensures named { NamedGo }
    ensures others { OthersStay }
    ensures vendors { VendorsGo }
    ensures parts { PartsPass }
    ensures malformed { MalformedGo }
    ensures stay { VendorsStay }
    ensures short { ShortStay }
{}
