//! The causes why a configuration is refused.

ghost use Rattle.std.specs.Prelude.{◌≡◌, Some};
ghost use Rattle.roam_conf_reader.specs.FaultNames as names;
ghost use Rattle.roam_conf_reader.specs.declared.fault.ConfFault.TheVariants.{Memory};

use std::alloc::{AllocError, AllocFailed};
use std::error::Error;
use std::fmt;

/// The first fault of a configuration, in the order of this list; `Memory` may come at any point.
///
/// Its text is its name.
#[derive(Clone, Copy, Debug, PartialEq, Eq)]
pub enum ConfFault {
    /// The text is no TOML document.
    Syntax,
    /// A required key is absent from a table.
    Missing,
    /// A value has the wrong type or is out of its range, or a key is unknown.
    BadValue,
    /// Two names, two suffixes `*.` and a name, or two `*` of realms and of `reject` are equal without ASCII case.
    DuplicateRealm,
    /// Two peers have equal names, prefixes, NAS-IP-Addresses or NAS-IPv6-Addresses, or Operator-Names that mean the
    /// same, or two texts of `nas_id` and `nas_ids` of all peers are equal.
    DuplicatePeer,
    /// Two of the broker's own sockets are at one endpoint.
    DuplicateEndpoint,
    /// Two endpoints of one realm's servers are equal, or two addresses of its `coa_client`s.
    DuplicateServer,
    /// A peer's `coa` endpoint is another peer's or a server's.
    DuplicateLink,
    /// A server's endpoint is of a kind, IPv4 or IPv6, that none of its realm's `out` has.
    NoWayOut,
    /// A realm names a peer that isn't there.
    UnknownPeer,
    /// A growth of memory was refused, which says nothing of the text.
    Memory,
}

/// Returns the name of a fault.
fn name_of(fault: ConfFault) -> &'static str
    ensures { result.now ≡ names.name_of fault }
{
    match fault {
        ConfFault::Syntax => "Syntax",
        ConfFault::Missing => "Missing",
        ConfFault::BadValue => "BadValue",
        ConfFault::DuplicateRealm => "DuplicateRealm",
        ConfFault::DuplicatePeer => "DuplicatePeer",
        ConfFault::DuplicateEndpoint => "DuplicateEndpoint",
        ConfFault::DuplicateServer => "DuplicateServer",
        ConfFault::DuplicateLink => "DuplicateLink",
        ConfFault::NoWayOut => "NoWayOut",
        ConfFault::UnknownPeer => "UnknownPeer",
        ConfFault::Memory => "Memory",
    }
}

impl fmt::Display for ConfFault {
    ghost output = { λ fault. Some (names.name_of fault) };

    fn fmt<W: fmt::Write>(&self, f: &mut fmt::Formatter<W>) -> fmt::Result {
        f.write_str(name_of(*self))
    }
}

impl Error for ConfFault {}

impl From<AllocError> for ConfFault {
    ghost from_gives = { λ _ fault. fault ≡ Memory };

    fn from(_: AllocError) -> ConfFault {
        ConfFault::Memory
    }
}

impl<T: Drop> From<AllocFailed<T>> for ConfFault {
    ghost from_gives = { λ _ fault. fault ≡ Memory };

    fn from(_: AllocFailed<T>) -> ConfFault {
        ConfFault::Memory
    }
}
