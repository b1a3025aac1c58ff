//! Laws of histories: how much a realm sends, and until when its requests are answered.

ghost use Rattle.roam_hub.specs.Bounds.{NoAmplificationFromOpening, NoAmplificationInHistories};
ghost use Rattle.roam_hub.specs.Bounds.{NoneWaitsLongerInHistories};
ghost use Rattle.roam_hub.specs.Waits.{NoRequestWaitsLongerFromStates, NoneWaitsLongerFromStates};
ghost use Rattle.roam_hub.specs.Waits.{RoundsAreOnTimeInHistories};

/// States that in the history of its shard a realm sends at most `tries` packets to each server among the targets of
/// a request of its own events there, and one packet back for each: no other realm's events add any.
pub fn bounded_in_histories()
    ensures from_opening { NoAmplificationFromOpening }
    ensures from_states { NoAmplificationInHistories }
{}

/// States that, while the shard's ticks come in time, no request of the realm waits longer than its sends and their
/// waits take.
pub fn bounded_waits_in_histories()
    ensures { NoneWaitsLongerInHistories }
{}

/// States that no request of the realm waits longer than its sends and their waits take also in a history that begins
/// in any states, as after a change of the configuration or over sessions of a file, and where moments go back: while
/// no event finds an entry overdue by more than a gap. Where nothing was due at the moment of a round of ticks, the
/// events up to that gap after it find none so.
pub fn waits_in_histories()
    ensures entries { NoneWaitsLongerFromStates }
    ensures requests { NoRequestWaitsLongerFromStates }
    ensures rounds { RoundsAreOnTimeInHistories }
{}
