//! The attributes that have a salted string: the one list of them.

ghost use Rattle.std.specs.Prelude.{◌≡◌};
ghost use Rattle.roam_crypto.specs.SaltedKinds.{salting_in, salting_of};

use roam_wire::attribute_type::TUNNEL_PASSWORD;

/// The beginning of an attribute with a salted string.
#[derive(Clone, Copy)]
pub enum Salting {
    /// With the salt (RFC 2548, section 2.4.2).
    Salt,
    /// With a tag of one octet, then the salt (RFC 2868, section 3.5).
    TagAndSalt,
}

/// A kind of attribute with a salted string: the vendor whose sub-attribute it is (RFC 2865, section 5.26; none for an
/// attribute of the packet), its Type, and how its value begins.
pub type SaltedKind = (Option<u32>, u8, Salting);

/// The one list. Of vendors but Microsoft it has what FreeRADIUS' dictionaries mark with `encrypt=2`, where
/// sub-attributes are a type, a length and a value.
pub const SALTED_KINDS: [SaltedKind; 24] = [
    // Tunnel-Password (RFC 2868, section 3.5).
    (None, TUNNEL_PASSWORD, Salting::TagAndSalt),
    // Motorola-WiMAX-MIP-KEY.
    (Some(161), 11, Salting::Salt),
    // MS-MPPE-Send-Key (RFC 2548, section 2.4.2).
    (Some(311), 16, Salting::Salt),
    // MS-MPPE-Recv-Key (RFC 2548, section 2.4.3).
    (Some(311), 17, Salting::Salt),
    // ALU-AAA-Key-0.
    (Some(831), 116, Salting::Salt),
    // ALU-AAA-Key-1.
    (Some(831), 117, Salting::Salt),
    // ALU-AAA-Key-2.
    (Some(831), 118, Salting::Salt),
    // ALU-AAA-Key-3.
    (Some(831), 119, Salting::Salt),
    // LCS-IKEv2-Local-Password.
    (Some(2356), 19, Salting::TagAndSalt),
    // LCS-IKEv2-Remote-Password.
    (Some(2356), 20, Salting::TagAndSalt),
    // ERX-LI-Action.
    (Some(4874), 58, Salting::Salt),
    // ERX-Med-Dev-Handle.
    (Some(4874), 59, Salting::Salt),
    // ERX-Med-Ip-Address.
    (Some(4874), 60, Salting::Salt),
    // ERX-Med-Port-Number.
    (Some(4874), 61, Salting::Salt),
    // 3GPP2-MN-HA-Shared-Key.
    (Some(5535), 58, Salting::Salt),
    // Alc-LI-Action.
    (Some(6527), 122, Salting::Salt),
    // Alc-LI-Destination.
    (Some(6527), 123, Salting::Salt),
    // Alc-LI-FC.
    (Some(6527), 124, Salting::Salt),
    // Alc-LI-Direction.
    (Some(6527), 125, Salting::Salt),
    // Alc-LI-Intercept-Id.
    (Some(6527), 138, Salting::Salt),
    // Alc-LI-Session-Id.
    (Some(6527), 139, Salting::Salt),
    // Alc-APN-Password.
    (Some(6527), 142, Salting::Salt),
    // Aruba-MPSK-Passphrase.
    (Some(14823), 44, Salting::Salt),
    // Extreme-Libsip-Patron-Info.
    (Some(26928), 3, Salting::Salt),
];

/// Returns how a value of this kind begins, by a list.
fn salting_in(list: &[SaltedKind], vendor: Option<u32>, kind: u8) -> Option<Salting>
    ensures { result ≡ salting_in list.now vendor kind }
{
    for &(owner, named, salting) in list {
        if owner == vendor && named == kind {
            return Some(salting);
        }
    }
    None
}

/// Returns how a value of this kind begins, where it has a salted string. One pass over the list.
#[tactic(auto, unfolding(crate::specs::SaltedKinds::salting_of))]
pub(crate) fn salting_of(vendor: Option<u32>, kind: u8) -> Option<Salting>
    ensures { result ≡ salting_of vendor kind }
{
    salting_in(&SALTED_KINDS, vendor, kind)
}
