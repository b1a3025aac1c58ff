//! Endpoints that are looked for among many, at a cost that doesn't grow with their number.

ghost use Rattle.std.specs.Prelude.{◌≡◌, IfOk, IfSome, is_none, not};
ghost use Rattle.indexmap.specs.IndexSet.{insert_key};
ghost use Rattle.roam_conf.specs.Duplicates.{has_pair, is_among, same_endpoint};
ghost use Rattle.roam_conf_reader.specs.Reading.{IsMemoryFault};

use crate::ConfFault;
use indexmap::IndexSet;
use roam_conf::Endpoint;
use std::alloc::Global;
use std::hash::{BuildHasherDefault, FoldHasher};

/// Endpoints, no two of them equal.
pub(crate) type EndpointSet = IndexSet<Endpoint, BuildHasherDefault<FoldHasher>, Global>;

/// Adds the endpoint. Returns whether it is new.
fn add(set: &mut EndpointSet, endpoint: &Endpoint) -> Result<bool, ConfFault>
    ensures new { IfOk result (λ new. new ≡ not (is_among set.old.keys endpoint.now)) }
    ensures keys { IfOk result (λ new. set.new.keys ≡ insert_key same_endpoint set.old.keys endpoint.now) }
    ensures causes { IsMemoryFault result }
{
    Ok(set.insert(*endpoint)?)
}

/// Returns the endpoints as a set; none where two of them are equal.
pub(crate) fn set_of(
    alloc: Global,
    endpoints: &[Endpoint],
) -> Result<Option<EndpointSet>, ConfFault>
    ensures twice { IfOk result (λ made. is_none made ≡ has_pair same_endpoint endpoints.now) }
    ensures keys { IfOk result (λ made. IfSome made (λ set. set.keys ≡ endpoints.now)) }
    ensures causes { IsMemoryFault result }
{
    let mut set = IndexSet::new(alloc);
    for endpoint in endpoints {
        if !add(&mut set, endpoint)? {
            return Ok(None);
        }
    }
    Ok(Some(set))
}

/// Returns whether the endpoint is one of the set's.
pub(crate) fn is_in(set: &EndpointSet, endpoint: Endpoint) -> bool
    ensures { result ≡ is_among set.now.keys endpoint }
{
    set.contains(&endpoint)
}
