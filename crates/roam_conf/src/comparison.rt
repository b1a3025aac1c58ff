//! The comparison of two endpoints, and of the names of two realms.

ghost use Rattle.std.specs.Prelude.{◌≡◌};
ghost use Rattle.std.specs.Str.{str_eq_ignore_ascii_case};
ghost use Rattle.roam_conf.specs.Duplicates.{same_endpoint};

use crate::Endpoint;

/// Returns whether the addresses and the ports of two endpoints are equal.
pub fn is_same_endpoint(a: Endpoint, b: Endpoint) -> bool
    ensures { result ≡ same_endpoint a b }
{
    a.ip == b.ip && a.port == b.port
}

/// Returns whether two names of realms are equal without ASCII case.
pub fn is_same_name(a: &[u8], b: &[u8]) -> bool
    ensures { result ≡ str_eq_ignore_ascii_case a.now b.now }
{
    a.eq_ignore_ascii_case(b)
}
