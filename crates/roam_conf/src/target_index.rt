//! The index of what reverse requests name a peer by, which is made once.

ghost use Rattle.roam_conf.specs.Index.{owners, AreLengths};

use crate::index::Index;
use crate::nas_index::NasIndex;

/// The peers by what reverse requests name them by.
#[derive(Drop)]
pub(crate) struct TargetIndex {
    /// By NAS-Identifier.
    pub(crate) nas: NasIndex,
    /// The lengths of the fronts among them, in octets: one of another length isn't looked for.
    pub(crate) front_lengths: [bool; 254],
    /// By NAS-IP-Address.
    pub(crate) nas_ips: Index,
    /// By NAS-IPv6-Address.
    pub(crate) nas_ipv6s: Index,
    /// True where some peer has a `nas_ipv6`.
    pub(crate) some_nas_ipv6: bool,
    /// By Operator-Name: of the namespace REALM in lower case, else as it stands.
    pub(crate) operators: Index,
    /// True where some peer has an `operator_name`.
    pub(crate) some_operator: bool,
    ghost marked: { AreLengths front_lengths (owners nas.fronts) },
}
