//! The check that a Disconnect- or CoA-Request is fresh (RFC 5176, section 6.3).

ghost use Rattle.std.specs.Prelude.{◌≡◌};
ghost use Rattle.roam_admission.specs.Freshness.{are_near, is_fresh, seconds_in, sent_at};

use roam_wire::View;
use roam_wire::attribute_type::EVENT_TIMESTAMP;

/// Reads the seconds that four octets say, the high one first. Returns `None` for fewer or more octets.
fn seconds_in(value: &[u8]) -> Option<u32>
    ensures { result ≡ seconds_in value.now }
{
    let [a, b, c, d] = value else {
        return None;
    };
    Some(u32::from_be_bytes([*a, *b, *c, *d]))
}

/// Returns when a request was sent first, by its first Event-Timestamp.
fn sent_at(request: &View<'_>) -> Option<u32>
    ensures { result ≡ sent_at request.now.attributes }
{
    seconds_in(request.first(EVENT_TIMESTAMP)?)
}

/// Returns whether two times are at most so many seconds apart.
fn are_near(most: u16, seconds: u64, sent: u32) -> bool
    ensures { result ≡ are_near most seconds sent }
{
    let most = u64::from(most);
    let sent = u64::from(sent);
    seconds <= sent + most && sent <= seconds.saturating_add(most)
}

/// Returns whether a reverse request isn't stale: where there is a limit, and the wall clock's seconds came with the
/// request, its first Event-Timestamp is at most so far from them.
pub(crate) fn is_fresh(most: Option<u16>, seconds: Option<u64>, request: &View<'_>) -> bool
    ensures { result ≡ is_fresh most seconds request.now.attributes }
{
    match (most, seconds, sent_at(request)) {
        (Some(most), Some(seconds), Some(sent)) => are_near(most, seconds, sent),
        _ => true,
    }
}
