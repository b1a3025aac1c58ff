//! The counts that rise where something comes, and where it is dropped.

ghost use Rattle.std.specs.Prelude.{◌≡◌};
ghost use Rattle.roam_counters.specs.Arrivals as spec;

use crate::cell::Subject;
use crate::event::CountedEvent;
use crate::increments::{Increment, one};
use crate::turn::CountedTurn;
use roam_conf::Place;
use roam_wire::Refusal;

/// Returns one more of an event, where there is a subject of which it is.
fn one_of(subject: Option<Subject>, event: CountedEvent) -> Option<Increment>
    ensures { result ≡ spec.one_of subject event }
{
    match subject {
        Some(subject) => one(subject, Some(event)),
        None => None,
    }
}

/// Returns the realm to which a place belongs.
fn realm_at(place: Place) -> Option<Subject>
    ensures { result ≡ spec.realm_at place }
{
    match place {
        Place::Out(realm, _) | Place::Reverse(realm, _) => Some(Subject::Realm(realm)),
        Place::Auth(_) | Place::Acct(_) => None,
    }
}

/// Returns the counts that rise where a packet comes that is for a realm.
pub fn arrival_increments(turn: CountedTurn) -> [Option<Increment>; 2]
    ensures { result ≡ spec.arrival_increments turn }
{
    let event = turn.arrival();
    [
        one(Subject::Realm(turn.realm), event),
        one(turn.sender(), event),
    ]
}

/// Returns the counts that rise where the call for a packet isn't recorded, since it is refused so.
pub fn failed_increments(turn: CountedTurn, why: Refusal) -> [Option<Increment>; 3]
    ensures { result ≡ spec.failed_increments turn why }
{
    let event = CountedEvent::Refused(why);
    [
        one_of(Some(Subject::All), event),
        one_of(Some(Subject::Realm(turn.realm)), event),
        one_of(Some(turn.sender()), event),
    ]
}

/// Returns the counts that rise where a datagram is refused before it came to a realm: also those of the realm to
/// which its place belongs, and of its sender.
pub fn refused_increments(
    place: Place,
    sender: Option<Subject>,
    why: Refusal,
) -> [Option<Increment>; 3]
    ensures { result ≡ spec.refused_increments place sender why }
{
    let event = CountedEvent::Refused(why);
    [
        one_of(Some(Subject::All), event),
        one_of(realm_at(place), event),
        one_of(sender, event),
    ]
}

/// Returns the counts that rise where something is refused of which no more is known.
pub fn refused_here_increments(why: Refusal) -> [Option<Increment>; 1]
    ensures { result ≡ spec.refused_here_increments why }
{
    [one_of(Some(Subject::All), CountedEvent::Refused(why))]
}
