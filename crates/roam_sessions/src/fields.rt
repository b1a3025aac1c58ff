//! The fields of an item, each read at the front of octets.

ghost use Rattle.std.specs.Prelude.{option_map};
ghost use Rattle.roam_sessions.specs.Reading.{Gives, flag_at, head_at, item_at, optional_at, realm_at, session_at};
ghost use Rattle.roam_sessions.specs.Reading.{text_at};
ghost use Rattle.roam_sessions.specs.ShownLedgers.{shown_item, shown_session, shown_text};

use crate::fault::{LedgerFault, ReadError};
use crate::item::{Item, SessionItem, Text};

/// Returns what stands behind the head.
#[tactic(auto, unfolding(crate::specs::Reading::head_at))]
pub(crate) fn behind_head(octets: &[u8]) -> Result<&[u8], ReadError>
    ensures { Gives (λ rest. rest.now) result (head_at octets.now) }
{
    if octets.len() < 15 {
        return Err(ReadError::Fault(LedgerFault::Foreign));
    }
    let (family, rest) = octets.split_at(13);
    if family != b"roam ledgers ".as_slice() {
        return Err(ReadError::Fault(LedgerFault::Foreign));
    }
    let (version, rest) = rest.split_at(2);
    if version != b"2\n".as_slice() {
        return Err(ReadError::Fault(LedgerFault::Version));
    }
    Ok(rest)
}

#[tactic(auto, unfolding(crate::specs::Reading::text_at))]
fn text_of(octets: &[u8]) -> Result<(Text<'_>, &[u8]), ReadError>
    ensures { Gives (λ x. (shown_text x.0, x.1.now)) result (text_at octets.now) }
{
    let [size, rest @ ..] = octets else {
        return Err(ReadError::Fault(LedgerFault::Cut));
    };
    let size = usize::from(*size);
    if rest.len() < size {
        return Err(ReadError::Fault(LedgerFault::Cut));
    }
    let (octets, rest) = rest.split_at(size);
    Ok((Text { octets }, rest))
}

#[tactic(auto, unfolding(crate::specs::Reading::optional_at))]
fn optional_of(octets: &[u8]) -> Result<(Option<Text<'_>>, &[u8]), ReadError>
    ensures { Gives (λ x. (option_map shown_text x.0, x.1.now)) result (optional_at octets.now) }
{
    match octets {
        [] => Err(ReadError::Fault(LedgerFault::Cut)),
        [0, rest @ ..] => Ok((None, rest)),
        [1, rest @ ..] => {
            let (text, rest) = text_of(rest)?;
            Ok((Some(text), rest))
        }
        [_, ..] => Err(ReadError::Fault(LedgerFault::Malformed)),
    }
}

#[tactic(auto, unfolding(crate::specs::Reading::flag_at))]
fn flag_of(octets: &[u8]) -> Result<(bool, &[u8]), ReadError>
    ensures { Gives (λ x. (x.0, x.1.now)) result (flag_at octets.now) }
{
    match octets {
        [] => Err(ReadError::Fault(LedgerFault::Cut)),
        [0, rest @ ..] => Ok((false, rest)),
        [1, rest @ ..] => Ok((true, rest)),
        [_, ..] => Err(ReadError::Fault(LedgerFault::Malformed)),
    }
}

#[tactic(auto, unfolding(crate::specs::Reading::realm_at))]
fn realm_of(octets: &[u8]) -> Result<(Item<'_>, &[u8]), ReadError>
    ensures { Gives (λ x. (shown_item x.0, x.1.now)) result (realm_at octets.now) }
{
    let (own_sessions, rest) = flag_of(octets)?;
    let (name, rest) = text_of(rest)?;
    Ok((Item::Realm(name, own_sessions), rest))
}

#[tactic(auto, unfolding(crate::specs::Reading::session_at))]
fn session_of(octets: &[u8]) -> Result<(SessionItem<'_>, &[u8]), ReadError>
    ensures { Gives (λ x. (shown_session x.0, x.1.now)) result (session_at octets.now) }
{
    let (peer, rest) = text_of(octets)?;
    let (address, rest) = optional_of(rest)?;
    let (identifier, rest) = optional_of(rest)?;
    let (ipv6, rest) = optional_of(rest)?;
    let (id, rest) = text_of(rest)?;
    let session = SessionItem {
        peer,
        address,
        identifier,
        ipv6,
        id,
    };
    Ok((session, rest))
}

/// Reads the item at the front, or the end there, and returns what stands behind it too.
#[tactic(auto, unfolding(crate::specs::Reading::item_at))]
pub(crate) fn item_of(octets: &[u8]) -> Result<(Option<Item<'_>>, &[u8]), ReadError>
    ensures { Gives (λ x. (option_map shown_item x.0, x.1.now)) result (item_at octets.now) }
{
    match octets {
        [] => Err(ReadError::Fault(LedgerFault::Cut)),
        [0, rest @ ..] => Ok((None, rest)),
        [1, rest @ ..] => {
            let (realm, rest) = realm_of(rest)?;
            Ok((Some(realm), rest))
        }
        [2, rest @ ..] => {
            let (session, rest) = session_of(rest)?;
            Ok((Some(Item::Session(session)), rest))
        }
        [_, ..] => Err(ReadError::Fault(LedgerFault::Malformed)),
    }
}
