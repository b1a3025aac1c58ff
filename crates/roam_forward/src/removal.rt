//! The lists of attributes that don't pass, and what they name.

ghost use Rattle.std.specs.Prelude.{◌≡◌, ◌&&◌, [], IsTrue};
ghost use Rattle.std.specs.List.{list_any};
ghost use Rattle.roam_forward.specs.Removal.{is_kind, is_vendor, is_kind_of, is_some_of, removed_by, session_kinds};
ghost use Rattle.roam_wire.specs.RemovedAttributes.{is_one_of};

use roam_wire::RemovedAttribute;

/// The attributes that don't pass between a peer and a realm: those that the peer's list names, and those that the
/// realm's does.
#[derive(Clone, Copy)]
pub struct Removal<'a> {
    pub peer: &'a [RemovedAttribute],
    pub realm: &'a [RemovedAttribute],
    /// True where an attribute that names a session passes all the same (RFC 5176, section 3).
    pub keeps_session: bool,
}

/// Makes the removal whose lists name no attribute.
#[tactic(auto, unfolding(crate::specs::Removal::removed_by))]
pub fn nothing_removed() -> Removal<'static>
    ensures { removed_by result ≡ [] }
{
    Removal {
        peer: &[],
        realm: &[],
        keeps_session: false,
    }
}

/// Returns whether no list names an attribute.
#[tactic(auto, unfolding(crate::specs::Removal::removed_by))]
pub(crate) fn removes_nothing(removal: &Removal<'_>) -> bool
    ensures { IsTrue result → removed_by removal.now ≡ [] }
{
    removal.peer.is_empty() && removal.realm.is_empty()
}

/// Returns whether a session is named by attributes of this Type.
fn names_session(kind: u8) -> bool
    ensures { result ≡ is_one_of session_kinds kind }
{
    match kind {
        1 | 4 | 32 | 44 | 95 | 126 => true,
        _ => false,
    }
}

fn is_kind(removed: RemovedAttribute, kind: u8) -> bool
    ensures { result ≡ is_kind kind removed }
{
    match removed {
        RemovedAttribute::Kind(named) => named == kind,
        RemovedAttribute::Vendor(_) | RemovedAttribute::VendorKind(_, _) => false,
    }
}

fn is_vendor(removed: RemovedAttribute, vendor: u32) -> bool
    ensures { result ≡ is_vendor vendor removed }
{
    match removed {
        RemovedAttribute::Vendor(named) => named == vendor,
        RemovedAttribute::Kind(_) | RemovedAttribute::VendorKind(_, _) => false,
    }
}

fn is_kind_of(removed: RemovedAttribute, vendor: u32, kind: u8) -> bool
    ensures { result ≡ is_kind_of vendor kind removed }
{
    match removed {
        RemovedAttribute::VendorKind(named_vendor, named) => named_vendor == vendor
            && named == kind,
        RemovedAttribute::Kind(_) | RemovedAttribute::Vendor(_) => false,
    }
}

fn is_some_of(removed: RemovedAttribute, vendor: u32) -> bool
    ensures { result ≡ is_some_of vendor removed }
{
    match removed {
        RemovedAttribute::VendorKind(named, _) => named == vendor,
        RemovedAttribute::Kind(_) | RemovedAttribute::Vendor(_) => false,
    }
}

fn any_kind(list: &[RemovedAttribute], kind: u8) -> bool
    ensures { result ≡ list_any (is_kind kind) list.now }
{
    for removed in list {
        if is_kind(*removed, kind) {
            return true;
        }
    }
    false
}

fn any_vendor(list: &[RemovedAttribute], vendor: u32) -> bool
    ensures { result ≡ list_any (is_vendor vendor) list.now }
{
    for removed in list {
        if is_vendor(*removed, vendor) {
            return true;
        }
    }
    false
}

fn any_kind_of(list: &[RemovedAttribute], vendor: u32, kind: u8) -> bool
    ensures { result ≡ list_any (is_kind_of vendor kind) list.now }
{
    for removed in list {
        if is_kind_of(*removed, vendor, kind) {
            return true;
        }
    }
    false
}

fn any_of(list: &[RemovedAttribute], vendor: u32) -> bool
    ensures { result ≡ list_any (is_some_of vendor) list.now }
{
    for removed in list {
        if is_some_of(*removed, vendor) {
            return true;
        }
    }
    false
}

/// Returns whether attributes of this Type pass since they name a session.
fn is_kept(removal: &Removal<'_>, kind: u8) -> bool
    ensures { result ≡ (removal.now.keeps_session && is_one_of session_kinds kind) }
{
    removal.keeps_session && names_session(kind)
}

/// Returns whether attributes of this Type don't pass.
pub(crate) fn removes_kind(removal: &Removal<'_>, kind: u8) -> bool
    ensures { result ≡ list_any (is_kind kind) (removed_by removal.now) }
{
    if is_kept(removal, kind) {
        return false;
    }
    any_kind(removal.peer, kind) || any_kind(removal.realm, kind)
}

/// Returns whether attributes of this vendor don't pass.
pub(crate) fn removes_vendor(removal: &Removal<'_>, vendor: u32) -> bool
    ensures { result ≡ list_any (is_vendor vendor) (removed_by removal.now) }
{
    any_vendor(removal.peer, vendor) || any_vendor(removal.realm, vendor)
}

/// Returns whether sub-attributes of this type of this vendor don't pass.
pub(crate) fn removes_kind_of(removal: &Removal<'_>, vendor: u32, kind: u8) -> bool
    ensures { result ≡ list_any (is_kind_of vendor kind) (removed_by removal.now) }
{
    any_kind_of(removal.peer, vendor, kind) || any_kind_of(removal.realm, vendor, kind)
}

/// Returns whether some sub-attributes of this vendor don't pass.
pub(crate) fn removes_some_of(removal: &Removal<'_>, vendor: u32) -> bool
    ensures { result ≡ list_any (is_some_of vendor) (removed_by removal.now) }
{
    any_of(removal.peer, vendor) || any_of(removal.realm, vendor)
}
