//! Reading which place a script names: one of the broker's sockets.

ghost use Rattle.std.specs.Prelude.{◌≡◌, [], ◌∷◌, MatchOption};
ghost use Rattle.roam_conf.specs.Texts.{parts};
ghost use Rattle.roam_sim.specs.Script as spec;

use roam_conf::{Place, decimal};

/// Returns what stands before the first colon, and after it.
fn cut_at_colon(text: &str) -> Option<(&str, &str)>
    ensures { MatchOption result (parts 58 text.now ≡ text.now ∷ [])
        (λ cut. parts 58 text.now ≡ cut.0.now ∷ parts 58 cut.1.now) }
{
    text.split_once(':')
}

/// Reads the index of a shard or of a realm.
pub(crate) fn index(text: &str) -> Option<u16>
    ensures { result ≡ spec.index_in text.now }
{
    match decimal(text, 0, 65535) {
        Some(number) => Some(number as u16),
        None => None,
    }
}

/// Returns which of several sockets of a kind it is, where it isn't the first.
fn nth(text: &str) -> Option<u16>
    ensures { result ≡ spec.nth_in text.now }
{
    match decimal(text, 1, 65535) {
        Some(number) => Some(number as u16),
        None => None,
    }
}

/// Makes the place of a socket for requests of peers, by its kind and which of these it is.
fn peer_place(socket: &str, nth: Option<u16>) -> Option<Place>
    ensures { result ≡ spec.peer_place socket.now nth }
{
    let nth = nth?;
    if socket == "auth" {
        Some(Place::Auth(nth))
    } else if socket == "acct" {
        Some(Place::Acct(nth))
    } else {
        None
    }
}

/// Makes the place of a socket of a realm, by its kind, the realm's index and which of these it is.
fn realm_place(socket: &str, realm: Option<u16>, nth: Option<u16>) -> Option<Place>
    ensures { result ≡ spec.realm_place socket.now realm nth }
{
    let (Some(realm), Some(nth)) = (realm, nth) else {
        return None;
    };
    if socket == "out" {
        Some(Place::Out(realm, nth))
    } else if socket == "reverse" {
        Some(Place::Reverse(realm, nth))
    } else {
        None
    }
}

/// Reads a socket by its kind and one number behind it: which of these it is, or the realm's index.
fn numbered_place(socket: &str, number: &str) -> Option<Place>
    ensures { result ≡ spec.place_of (socket.now ∷ number.now ∷ []) }
{
    match peer_place(socket, nth(number)) {
        Some(place) => Some(place),
        None => realm_place(socket, index(number), Some(0)),
    }
}

/// Reads a socket by its kind and what stands behind its colon.
#[tactic(auto, using(crate::proofs::FieldLemmas::last_fields))]
fn place_behind(socket: &str, behind: &str) -> Option<Place>
    ensures { result ≡ spec.place_of (socket.now ∷ parts 58 behind.now) }
{
    match cut_at_colon(behind) {
        None => numbered_place(socket, behind),
        Some((realm, number)) => realm_place(socket, index(realm), nth(number)),
    }
}

/// Reads one of the broker's sockets.
#[tactic(auto, using(crate::proofs::FieldLemmas::last_fields), unfolding(crate::specs::Script::place_in))]
pub(crate) fn place(text: &str) -> Option<Place>
    ensures { result ≡ spec.place_in text.now }
{
    match cut_at_colon(text) {
        None => peer_place(text, Some(0)),
        Some((socket, behind)) => place_behind(socket, behind),
    }
}
