//! Laws of how much a realm sends. These functions do nothing: their contracts hold of all
//! configurations, states and events.

ghost use Rattle.roam_core.specs.Amplification.{NoAmplification, NoAmplificationFromStart};
ghost use Rattle.roam_core.specs.Amplification.{NoMoreAnswersThanRequests, OnePacketEach};
ghost use Rattle.roam_core.specs.Amplification.{TargetsAreFew};
ghost use Rattle.roam_core.specs.InTime.{NoneWaitsLonger};
ghost use Rattle.roam_core.specs.OnTime.{NoRequestWaitsLonger, NoneWaitsLongerFrom, RoundsAreOnTime};
ghost use Rattle.roam_core.specs.Rounds.{SentOnceInARound};
ghost use Rattle.roam_core.specs.SentFor.{AtMostTriesToEach};

/// States that for each request that comes a realm sends at most `tries` packets to each server among its targets, by
/// however many `out`, and one back to its sender. A request or a reply sends at most one packet, a tick one for each
/// due entry.
pub fn no_amplification()
    ensures from_start { NoAmplificationFromStart }
    ensures from_states { NoAmplification }
    ensures back { NoMoreAnswersThanRequests }
    ensures each { OnePacketEach }
    ensures targets { TargetsAreFew }
{}

/// States that for one request at most `tries` packets leave for each server among its targets, and one goes back.
pub fn sent_for_one_request()
    ensures { AtMostTriesToEach }
{}

/// States that while ticks come in time, no request waits longer than its sends and their waits take: it is answered
/// or given up, whichever server keeps silent.
pub fn bounded_waits()
    ensures { NoneWaitsLonger }
{}

/// States that, from any state on, and also where moments go back, no request waits longer than its sends and their
/// waits take, while no event finds an entry overdue by more than a gap. Rounds of ticks meet that premise.
pub fn waits_on_time()
    ensures entries { NoneWaitsLongerFrom }
    ensures requests { NoRequestWaitsLonger }
    ensures rounds { RoundsAreOnTime }
{}

/// States that in one round of ticks a request is sent once, however long the server stood still before: no tick of
/// the round sends it again, fails it over or gives it up.
pub fn sent_once_in_a_round()
    ensures { SentOnceInARound }
{}
