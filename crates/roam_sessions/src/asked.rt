//! The question to a session table, and the sessions that are there, by the octets where they lie.

ghost use Rattle.std.specs.Prelude.{◌≡◌, option_map};
ghost use Rattle.roam_sessions.specs.Sessions.{counted_nas, nas_in, no_nas};
ghost use Rattle.roam_sessions.specs.Private.Masks.{asked_for, narrow, without_names};
ghost use Rattle.roam_sessions.specs.Kept.{shown_asked, shown_nas, shown_session};

use crate::nas_target::NAS_IPV6_ADDRESS;
use crate::short::Short;
use crate::short_copies::first_short;
use roam_wire::View;
use roam_wire::attribute_type::{NAS_IDENTIFIER, NAS_IP_ADDRESS};

/// The names of an access server (RFC 2865, sections 5.4 and 5.32; RFC 3162, section 2.1).
#[derive(Clone, Copy)]
pub(crate) struct NasRef<'a> {
    pub(crate) address: Option<Short<'a>>,
    pub(crate) identifier: Option<Short<'a>>,
    pub(crate) ipv6: Option<Short<'a>>,
}

/// A session of a peer: the names of its access server, where they count, and its Acct-Session-Id (RFC 2866, section
/// 5.5).
#[derive(Clone, Copy)]
pub(crate) struct SessionRef<'a> {
    pub(crate) peer: u16,
    pub(crate) nas: NasRef<'a>,
    pub(crate) id: Short<'a>,
}

/// The sessions that are asked for: those of a peer, of the access servers that agree with these names, and with this
/// id, if there is one.
#[derive(Clone, Copy)]
pub(crate) struct AskedRef<'a> {
    pub(crate) peer: u16,
    pub(crate) nas: NasRef<'a>,
    pub(crate) id: Option<Short<'a>>,
}

/// The parts of a session that are asked for, beside its peer.
#[derive(Clone, Copy)]
pub(crate) struct Mask {
    pub(crate) address: bool,
    pub(crate) identifier: bool,
    pub(crate) ipv6: bool,
    pub(crate) id: bool,
}

/// Returns no names.
pub(crate) fn no_nas<'a>() -> NasRef<'a>
    ensures { shown_nas result ≡ no_nas }
{
    NasRef {
        address: None,
        identifier: None,
        ipv6: None,
    }
}

/// Returns the names of the access server that a request has: the first of each.
pub(crate) fn nas_in<'a>(request: &View<'a>) -> NasRef<'a>
    ensures { shown_nas result ≡ nas_in request.now.attributes }
{
    NasRef {
        address: first_short(request, NAS_IP_ADDRESS),
        identifier: first_short(request, NAS_IDENTIFIER),
        ipv6: first_short(request, NAS_IPV6_ADDRESS),
    }
}

/// Returns the names of the access server that count: those that a request has, and none where a realm doesn't look
/// at them.
pub(crate) fn counted_nas<'a>(own: bool, request: &View<'a>) -> NasRef<'a>
    ensures { shown_nas result ≡ counted_nas own request.now.attributes }
{
    if own { nas_in(request) } else { no_nas() }
}

impl<'a> SessionRef<'a> {
    /// Returns what is asked for this session alone, but for sessions that have further names.
    pub(crate) fn asked(self) -> AskedRef<'a>
        ensures { shown_asked result ≡ asked_for (shown_session self.entry) }
    {
        AskedRef {
            peer: self.peer,
            nas: self.nas,
            id: Some(self.id),
        }
    }

    /// Returns what is asked for this session by some of its parts; nothing where it hasn't one of them.
    pub(crate) fn narrowed(self, mask: Mask) -> Option<AskedRef<'a>>
        ensures { option_map shown_asked result ≡ narrow mask (shown_session self.entry) }
    {
        if mask.address && self.nas.address.is_none() {
            return None;
        }
        if mask.identifier && self.nas.identifier.is_none() {
            return None;
        }
        if mask.ipv6 && self.nas.ipv6.is_none() {
            return None;
        }
        Some(AskedRef {
            peer: self.peer,
            nas: NasRef {
                address: if mask.address { self.nas.address } else { None },
                identifier: if mask.identifier {
                    self.nas.identifier
                } else {
                    None
                },
                ipv6: if mask.ipv6 { self.nas.ipv6 } else { None },
            },
            id: if mask.id { Some(self.id) } else { None },
        })
    }
}

impl<'a> AskedRef<'a> {
    /// Returns what is asked, but for the names of the access server.
    pub(crate) fn without_names(self) -> AskedRef<'a>
        ensures { shown_asked result ≡ without_names (shown_asked self.entry) }
    {
        AskedRef {
            peer: self.peer,
            nas: no_nas(),
            id: self.id,
        }
    }
}
