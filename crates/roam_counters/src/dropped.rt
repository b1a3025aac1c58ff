//! The counts that rise by what a change of the configuration drops.

ghost use Rattle.std.specs.Prelude.{◌≡◌};
ghost use Rattle.roam_counters.specs.Increments as spec;

use crate::cell::Subject;
use crate::event::CountedEvent;
use crate::increments::Increment;

/// Returns so many more of an event of a realm.
fn more_of_realm(realm: u16, event: CountedEvent, count: u64) -> Option<Increment>
    ensures { result ≡ spec.more_of_realm realm event count }
{
    Some(Increment {
        subject: Subject::Realm(realm),
        event,
        count,
    })
}

/// Returns the counts that rise where a change of the configuration drops so many waiting requests, held replies and
/// sessions of a realm.
pub fn dropped_increments(
    realm: u16,
    waiting: u64,
    held: u64,
    sessions: u64,
) -> [Option<Increment>; 3]
    ensures { result ≡ spec.dropped_increments realm waiting held sessions }
{
    [
        more_of_realm(realm, CountedEvent::DroppedRequest, waiting),
        more_of_realm(realm, CountedEvent::DroppedReply, held),
        more_of_realm(realm, CountedEvent::DroppedSession, sessions),
    ]
}
