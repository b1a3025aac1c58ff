//! A session that is open, and one that is to be opened, with all memory that it wants.

ghost use Rattle.std.specs.Prelude.{◌≡◌, ◌≤◌, ◌+◌, ◌++◌, IfOk, OnOk, length, option_map};
ghost use Rattle.roam_sessions.specs.Facets.{HasFacetRows};
ghost use Rattle.roam_sessions.specs.Private.Packed.{behind, count_of, front_of, octets_of, size_of};
ghost use Rattle.roam_sessions.specs.Kept.{kept_session, shown_session};
ghost use Rattle.roam_sessions.specs.Short.{shown_short};

use crate::asked::{NasRef, SessionRef};
use crate::packed_session::OpenSession;
use crate::session_rows::{FacetRows, facet_rows};
use crate::short::Short;
use roam_wire::{NoMemory, Octets};
use std::alloc::Allocator;

/// Returns how many octets a part has, where it is there.
fn size_of(part: Option<Short<'_>>) -> Option<u8>
    ensures value { result ≡ size_of (option_map shown_short part.entry) }
    ensures short { count_of result ≤ 253 }
{
    match part {
        None => None,
        Some(part) => Some(part.octets.len() as u8),
    }
}

/// Returns how many octets that is.
fn count_of(size: Option<u8>) -> usize
    ensures value { result ≡ count_of size }
    ensures short { result ≤ 255 }
{
    match size {
        None => 0,
        Some(size) => usize::from(size),
    }
}

/// Puts the octets of a part behind others.
fn push<A: Allocator>(octets: &mut Vec<u8, A>, part: Option<Short<'_>>) -> Result<(), NoMemory>
    ensures { OnOk result (octets.new.items ≡ octets.old.items ++ octets_of (option_map shown_short part.entry)) }
{
    match part {
        None => {}
        Some(part) => octets.extend_from_slice(part.octets)?,
    }
    Ok(())
}

/// Returns the part of so many octets in front of others, where it is there.
fn front(octets: &[u8], size: Option<u8>) -> Option<Short<'_>>
    requires there { count_of size ≤ length octets.now }
    requires short { count_of size ≤ 253 }
    ensures { option_map shown_short result ≡ front_of size octets.entry.now }
{
    match size {
        None => None,
        Some(size) => Some(Short {
            octets: octets.split_at(usize::from(size)).0,
        }),
    }
}

/// Returns the octets behind it.
fn behind(octets: &[u8], size: Option<u8>) -> &[u8]
    requires { count_of size ≤ length octets.now }
    ensures value { result.now ≡ behind size octets.entry.now }
    ensures len { length result.now + count_of size ≡ length octets.entry.now }
{
    octets.split_at(count_of(size)).1
}

impl<A: Allocator + Copy> OpenSession<A> {
    /// Makes a copy of a session.
    pub(crate) fn copy_of(alloc: A, session: SessionRef<'_>) -> Result<OpenSession<A>, NoMemory>
        ensures { IfOk result (λ kept. kept_session kept ≡ shown_session session.entry) }
    {
        let nas = session.nas;
        let address = size_of(nas.address);
        let identifier = size_of(nas.identifier);
        let ipv6 = size_of(nas.ipv6);
        let names = count_of(address) + count_of(identifier) + count_of(ipv6);
        let mut octets = Vec::with_capacity(alloc, names + session.id.octets.len())?;
        push(&mut octets, nas.address)?;
        push(&mut octets, nas.identifier)?;
        push(&mut octets, nas.ipv6)?;
        octets.extend_from_slice(session.id.octets)?;
        Ok(OpenSession {
            octets: Octets::from_vec(octets),
            peer: session.peer,
            address,
            identifier,
            ipv6,
        })
    }
}

impl<A: Allocator> OpenSession<A> {
    /// Returns the session where it lies.
    pub(crate) fn lend(&self) -> SessionRef<'_>
        ensures { shown_session result ≡ kept_session self.now }
    {
        let octets = self.octets.as_slice();
        let named = behind(octets, self.address);
        let numbered = behind(named, self.identifier);
        SessionRef {
            peer: self.peer,
            nas: NasRef {
                address: front(octets, self.address),
                identifier: front(named, self.identifier),
                ipv6: front(numbered, self.ipv6),
            },
            id: Short {
                octets: behind(numbered, self.ipv6),
            },
        }
    }
}

/// A session that is to be opened, with the rows of its peer and names.
#[derive(Drop)]
pub(crate) struct NewSession<A: Allocator> {
    pub(crate) session: OpenSession<A>,
    pub(crate) of_peer: FacetRows<A>,
    ghost of_peer_are: { HasFacetRows (kept_session session) of_peer },
}

impl<A: Allocator + Copy> NewSession<A> {
    /// Makes a copy of a session, with its rows.
    pub(crate) fn copy_of(alloc: A, session: SessionRef<'_>) -> Result<NewSession<A>, NoMemory>
        ensures { IfOk result (λ new. kept_session new.session ≡ shown_session session.entry) }
    {
        let kept = OpenSession::copy_of(alloc, session)?;
        let of_peer = facet_rows(alloc, session)?;
        Ok(NewSession {
            session: kept,
            of_peer,
        })
    }
}
