//! Laws of histories: what they say of each realm.

ghost use Rattle.roam_hub.specs.Changes.{CarriedOverChanges, EachGoesAlone, OthersBeginAnew, UntouchedOverChanges};
ghost use Rattle.roam_hub.specs.InHistories.{ProvenanceInHistories, RealmsInHistories};
ghost use Rattle.roam_hub.specs.LivesOver.{DrawsApartOverChanges, LivesGoAlong, ProvenanceOverChanges};
ghost use Rattle.roam_hub.specs.LivesOver.{TicketGivenOnceOverChanges};

/// States that in the history of its shard each realm is isolated: the packets that were sent for it there are, in
/// order and octet for octet, those that the written broker of that one realm sends for its own events.
pub fn realms_in_histories()
    ensures { RealmsInHistories }
{}

/// States that in the history of its shard each packet of a realm has its origin: it is the forwarded one of a
/// request of the realm's own events there, the returned one of a reply that was taken for such a packet, or the NAK
/// of a Disconnect- or CoA-Request.
pub fn provenance_in_histories()
    ensures { ProvenanceInHistories }
{}

/// States that in a history that begins in any states each realm is isolated too: the packets that were sent for it
/// are those that its written broker sends from the state in which it begins, and where the history ends it stands as
/// that one does.
pub fn realms_from_any_states()
    ensures { EachGoesAlone }
{}

/// States that, while the configuration changes any number of times, the packets that were sent for a realm which
/// goes on at each change are those of its own written broker over all its events, before and after: in what is
/// carried over of its state. Where no change touches the realm, they are what it would have sent had nothing
/// changed. A realm that is new, or went, has nothing.
pub fn realms_over_changes()
    ensures carried { CarriedOverChanges }
    ensures untouched { UntouchedOverChanges }
    ensures others { OthersBeginAnew }
{}

/// States that, while the configuration changes any number of times, what was sent for a realm is what its life
/// sends: its own events and the changes, one after the other, each of which carries it over or has it begin anew.
/// The draws are those of its life too, and where the last history ends it stands where its life ends.
pub fn lives_over_changes()
    ensures { LivesGoAlong }
{}

/// States that each packet that was sent for a realm over all changes has its origin in the realm's own events: it is
/// the forwarded one of a request of them, before or after a change, the returned one of a reply that was taken for
/// such a packet, or the NAK of a Disconnect- or CoA-Request.
pub fn provenance_over_changes()
    ensures { ProvenanceOverChanges }
{}

/// States that no two draws of a realm's random words over all changes begin at one position, below 2^66 draws: also
/// where it begins anew.
pub fn draws_apart_over_changes()
    ensures { DrawsApartOverChanges }
{}

/// States that a ticket of a realm is given to one event over all changes: also where it begins anew.
pub fn tickets_over_changes()
    ensures { TicketGivenOnceOverChanges }
{}
