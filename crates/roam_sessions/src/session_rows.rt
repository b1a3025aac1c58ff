//! The rows of a session's peer and names, by which it is found.

ghost use Rattle.std.specs.Prelude.{◌≡◌, IfOk};
ghost use Rattle.roam_sessions.specs.Facets.{HasFacetRows, HasRow};
ghost use Rattle.roam_sessions.specs.Kept.{shown_session};

use crate::asked::{Mask, SessionRef};
use crate::row::row_of;
use roam_wire::NoMemory;
use std::alloc::Allocator;

/// The rows of a session: by the peer, and by the names of its access server.
#[derive(Drop)]
pub(crate) struct FacetRows<A: Allocator> {
    pub(crate) by_peer: Option<Vec<u8, A>>,
    pub(crate) by_address: Option<Vec<u8, A>>,
    pub(crate) by_identifier: Option<Vec<u8, A>>,
    pub(crate) by_both: Option<Vec<u8, A>>,
    pub(crate) by_ipv6: Option<Vec<u8, A>>,
    pub(crate) by_address_ipv6: Option<Vec<u8, A>>,
    pub(crate) by_identifier_ipv6: Option<Vec<u8, A>>,
    pub(crate) by_all: Option<Vec<u8, A>>,
}

/// Returns what is asked for by these names of the access server, and by the id or not.
pub(crate) fn mask(address: bool, identifier: bool, ipv6: bool, id: bool) -> Mask
    ensures { result ≡ record { address = address; identifier = identifier; ipv6 = ipv6; id = id } }
{
    Mask {
        address,
        identifier,
        ipv6,
        id,
    }
}

/// Makes the row of some of a session's parts, where it has them.
fn row_under<A: Allocator>(
    alloc: A,
    session: SessionRef<'_>,
    mask: Mask,
) -> Result<Option<Vec<u8, A>>, NoMemory>
    ensures { IfOk result (λ row. HasRow mask (shown_session session.entry) row) }
{
    match session.narrowed(mask) {
        None => Ok(None),
        Some(asked) => Ok(Some(row_of(alloc, asked)?)),
    }
}

/// Makes the rows of a session.
pub(crate) fn facet_rows<A: Allocator + Copy>(
    alloc: A,
    session: SessionRef<'_>,
) -> Result<FacetRows<A>, NoMemory>
    ensures { IfOk result (HasFacetRows (shown_session session.entry)) }
{
    let by_peer = row_under(alloc, session, mask(false, false, false, false))?;
    let by_address = row_under(alloc, session, mask(true, false, false, false))?;
    let by_identifier = row_under(alloc, session, mask(false, true, false, false))?;
    let by_both = row_under(alloc, session, mask(true, true, false, false))?;
    let by_ipv6 = row_under(alloc, session, mask(false, false, true, false))?;
    let by_address_ipv6 = row_under(alloc, session, mask(true, false, true, false))?;
    let by_identifier_ipv6 = row_under(alloc, session, mask(false, true, true, false))?;
    let by_all = row_under(alloc, session, mask(true, true, true, false))?;
    Ok(FacetRows {
        by_peer,
        by_address,
        by_identifier,
        by_both,
        by_ipv6,
        by_address_ipv6,
        by_identifier_ipv6,
        by_all,
    })
}
