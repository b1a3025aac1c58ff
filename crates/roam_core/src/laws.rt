//! Laws of the written broker. These functions do nothing: their contracts hold of all
//! configurations, states and events.

ghost use Rattle.roam_core.specs.Agreement.{AllEventsAgree, EachRealmEventAgrees};
ghost use Rattle.roam_core.specs.Alone.{OneRealmIsAlone};
ghost use Rattle.roam_core.specs.Isolation.{EachIsIsolatedFromStart, EachLedgerIsIsolated, EachRealmIsIsolated};
ghost use Rattle.roam_core.specs.Isolation.{EachRealmOpens, EachRealmStandsAlone, SameInTwoWorlds};
ghost use Rattle.roam_core.specs.Isolation.{SameInTwoWorldsFromStart};
ghost use Rattle.roam_core.specs.LifeLaws.{AdmittedIsOfOwnSessionIn, DrawsAreApartIn, EachPacketHasOriginFrom};
ghost use Rattle.roam_core.specs.LifeLaws.{EntriesKeepOrigin};
ghost use Rattle.roam_core.specs.LifeLaws.{OneDrawOneForwarding, OneRequestHasTicketIn, TicketIsGivenOnceIn};
ghost use Rattle.roam_core.specs.LifeLaws.{WordsAreDrawnInOrderIn};
ghost use Rattle.roam_core.specs.OwnLosses.{EachMissesItsOwn, NextTickMakesGood};
ghost use Rattle.roam_core.specs.OwnPart.{SameOwnEvents, SamePacketsOfOwnPart};
ghost use Rattle.roam_core.specs.OwnSessions.{AdmittedIsOfOwnSession, EachSentIsOfOwnSession, SentIsOfOwnSession};
ghost use Rattle.roam_core.specs.ProvenanceLaws.{DrawsAreApart, EachEntryHasOrigin, EachPacketHasOrigin};
ghost use Rattle.roam_core.specs.ProvenanceLaws.{OneRequestHasTicket, TicketIsGivenOnce, WordsAreDrawnInOrder};
ghost use Rattle.roam_core.specs.ProvenanceLaws.{WordsAreDrawnOnce};

/// States that, whatever the events, what the broker sends for a realm, and how the realm then stands, is what the
/// written broker of that one realm does with the realm's own events.
pub fn isolated_realms()
    ensures from_start { EachIsIsolatedFromStart }
    ensures packets { EachRealmIsIsolated }
    ensures states { EachRealmStandsAlone }
{}

/// States that the realm's own events alone decide which sessions its table holds: no other realm's accounting lets one
/// of its Disconnect- or CoA-Requests pass, however sessions are named.
pub fn isolated_ledgers()
    ensures { EachLedgerIsIsolated }
{}

/// States that each realm begins at its own start.
pub fn realms_open()
    ensures { EachRealmOpens }
{}

/// States that, of the events that were lost for want of memory, a realm misses only its own: an arrival that was
/// given to it, and a tick at which an entry of its own was due. In packets and state it is as if nothing else was
/// lost. And where each such entry was answered its next tick makes that good.
pub fn own_losses()
    ensures own { EachMissesItsOwn }
    ensures made_good { NextTickMakesGood }
{}

/// States that a realm's packets depend only on its own part of the configuration, on where it begins and on its
/// events.
pub fn two_worlds()
    ensures from_start { SameInTwoWorldsFromStart }
    ensures from_states { SameInTwoWorlds }
{}

/// States that a realm's packets are decided by its own part of the configuration: its own entry, the peers, at how
/// many `auth` and `acct` these ask, which names mean it, the limits of attributes, hops and the age of a Disconnect-
/// or CoA-Request, the seed and the number of shards. Given the same events, it sends the same packets whatever else
/// the configuration says of other realms, and whichever there are: they may be added, removed and renamed. So one
/// proxy of some realms is, realm by realm, as many proxies of one.
pub fn own_part()
    ensures packets { SamePacketsOfOwnPart }
    ensures events { SameOwnEvents }
{}

/// States that where one realm is configured the proxy sends just what the written proxy of that realm sends, and the
/// local rejects, in the order of their events.
pub fn one_realm()
    ensures { OneRealmIsAlone }
{}

/// States that each packet of a realm is the forwarded one of a request of the realm's events, the returned one of a
/// reply that was taken for such a packet, or the NAK of a Disconnect- or CoA-Request; and that each entry is of such
/// a request. The ticket says of which: it is given to one event. And no two draws of words for a forwarded
/// Access-Request's Authenticator begin at one position, below 2^66 draws (RFC 2865, section 3).
pub fn provenance()
    ensures packets { EachPacketHasOrigin }
    ensures entries { EachEntryHasOrigin }
    ensures tickets { TicketIsGivenOnce }
    ensures requests { OneRequestHasTicket }
    ensures words { WordsAreDrawnInOrder }
    ensures apart { DrawsAreApart }
    ensures once { WordsAreDrawnOnce }
{}

/// States that in a realm with `own_sessions` each Disconnect- or CoA-Request that is sent was of one session of that
/// realm's session table when it came: of its target, with its one Acct-Session-Id, and at the access server that it
/// names. No other realm's event changes which (RFC 5176, section 3.5). That a request which is forwarded was so
/// holds over all changes of the configuration, under that of the time when it came.
pub fn own_sessions()
    ensures admitted { AdmittedIsOfOwnSession }
    ensures life { AdmittedIsOfOwnSessionIn }
    ensures sent { SentIsOfOwnSession }
    ensures each { EachSentIsOfOwnSession }
{}

/// States that this holds over a realm's life, while its configuration changes any number of times, and whether it
/// goes on in its state or begins anew: where each entry comes from what happened, so do those that are held later,
/// and each packet that is sent then has its origin in what happened, under the configuration of its time.
pub fn life_provenance()
    ensures entries { EntriesKeepOrigin }
    ensures packets { EachPacketHasOriginFrom }
{}

/// States that over a realm's life a ticket is given to one event, and so to one request: no change takes it back.
pub fn life_tickets()
    ensures tickets { TicketIsGivenOnceIn }
    ensures requests { OneRequestHasTicketIn }
{}

/// States that over a realm's life its words are drawn in order, and no two draws begin at one position, below 2^66
/// draws. So the words of a forwarded Access-Request's Authenticator are drawn only for it: two that were forwarded
/// with the words of one position are the same packet for the same request (RFC 2865, section 3).
pub fn life_draws()
    ensures words { WordsAreDrawnInOrderIn }
    ensures apart { DrawsAreApartIn }
    ensures once { OneDrawOneForwarding }
{}

/// States that the happening of an event, for the counts and the log, and the packets that are sent for it agree: of
/// each event of a realm, and of each of a list of events of the proxy, in order.
pub fn happenings()
    ensures realm { EachRealmEventAgrees }
    ensures all { AllEventsAgree }
{}
