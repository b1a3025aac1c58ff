//! Laws of names, events and local answers. These functions do nothing: their contracts hold of all
//! names, configurations, jobs and requests.

ghost use Rattle.roam_admission.specs.AccountingLaws.{AccountingAnswerCarriesProxyStates, AccountingAnswerHasCode};
ghost use Rattle.roam_admission.specs.AccountingLaws.{AccountingAnswerHasIdentifier, AccountingAnswerIsNoLonger};
ghost use Rattle.roam_admission.specs.AccountingLaws.{AccountingAnswerIsSigned, AccountingAnswerIsWellSealed};
ghost use Rattle.roam_admission.specs.AccountingLaws.{AccountingAnswerReads};
ghost use Rattle.roam_admission.specs.AdmittedRequests.{AdmittedIsRight, ForwardedHasFewHops, OtherCodeIsRefused};
ghost use Rattle.roam_admission.specs.AdmittedRequests.{RefusedFailsFirst, UnknownIsRefused, UnreadIsRefused};
ghost use Rattle.roam_admission.specs.Events.{EventHasRealm, EventIsSound, EventWithoutSession};
ghost use Rattle.roam_admission.specs.NameLaws.{LastAtSignDecides, NameWithoutAtSign};
ghost use Rattle.roam_admission.specs.OwnPart.{OwnAnswersDecided, OwnPartDecides};
ghost use Rattle.roam_admission.specs.RejectLaws.{RejectCarriesProxyStates, RejectHasLength, RejectHasSealFirst};
ghost use Rattle.roam_admission.specs.RejectLaws.{RejectIsSigned, RejectIsWellSealed, RejectReads};
ghost use Rattle.roam_admission.specs.StatusLaws.{StatusAnswerAtAcct, StatusAnswerAtAuth, StatusAnswerCarriesProxyStates};
ghost use Rattle.roam_admission.specs.StatusLaws.{StatusAnswerHasIdentifier, StatusAnswerHasSealFirst};
ghost use Rattle.roam_admission.specs.StatusLaws.{StatusAnswerIsNoLonger, StatusAnswerIsSigned, StatusAnswerIsWellSealed};
ghost use Rattle.roam_admission.specs.StatusLaws.{StatusAnswerReads};

/// States what the realm part of a name is.
pub fn names()
    ensures without { NameWithoutAtSign }
    ensures last { LastAtSignDecides }
{}

/// States what the event of a realm is: its realm and its sender are configured, its octets are a packet's of a code
/// that is taken, and what is a request can be forwarded. What came from a link is an event without its session too.
pub fn events()
    ensures realm { EventHasRealm }
    ensures sound { EventIsSound }
    ensures without_session { EventWithoutSession }
{}

/// States which requests a realm is given: just those whose code belongs to their place and sender, that are signed and
/// have a right Message-Authenticator where they must, with few enough hops, passwords that can be carried, a realm,
/// and a size that fits once forwarded. A request that isn't right is dropped for the first part that fails. What is
/// forwarded of one that is has at most one Proxy-State more than the limit of hops.
pub fn admitted_requests()
    ensures admitted { AdmittedIsRight }
    ensures refused { RefusedFailsFirst }
    ensures hops { ForwardedHasFewHops }
{}

/// States what is dropped before a request is looked at: what reads as no packet, a packet of an unknown source, and
/// one whose code is of no request there.
pub fn refused_arrivals()
    ensures unread { UnreadIsRefused }
    ensures unknown { UnknownIsRefused }
    ensures code { OtherCodeIsRefused }
{}

/// States what the local reject of a request is: a packet that reads, signed for the access server, with its
/// Message-Authenticator first and the request's Proxy-States.
pub fn rejects()
    ensures reads { RejectReads }
    ensures length { RejectHasLength }
    ensures signed { RejectIsSigned }
    ensures well_sealed { RejectIsWellSealed }
    ensures seal_first { RejectHasSealFirst }
    ensures proxy_states { RejectCarriesProxyStates }
{}

/// States what answers a Status-Server: an Access-Accept or an Accounting-Response with its Identifier that reads, no
/// longer than the request, signed for the peer, with its Message-Authenticator first and the request's Proxy-States.
pub fn status_answers()
    ensures at_auth { StatusAnswerAtAuth }
    ensures at_acct { StatusAnswerAtAcct }
    ensures id { StatusAnswerHasIdentifier }
    ensures no_longer { StatusAnswerIsNoLonger }
    ensures reads { StatusAnswerReads }
    ensures signed { StatusAnswerIsSigned }
    ensures well_sealed { StatusAnswerIsWellSealed }
    ensures seal_first { StatusAnswerHasSealFirst }
    ensures proxy_states { StatusAnswerCarriesProxyStates }
{}

/// States what the proxy's own answer to an Accounting-Request is: an Accounting-Response with its Identifier that
/// reads, no longer than the request, signed for the peer, with a right Message-Authenticator where the request has
/// one, and with the request's Proxy-States.
pub fn accounting_answers()
    ensures code { AccountingAnswerHasCode }
    ensures id { AccountingAnswerHasIdentifier }
    ensures no_longer { AccountingAnswerIsNoLonger }
    ensures reads { AccountingAnswerReads }
    ensures signed { AccountingAnswerIsSigned }
    ensures well_sealed { AccountingAnswerIsWellSealed }
    ensures proxy_states { AccountingAnswerCarriesProxyStates }
{}

/// States that what an arrival gives to a realm is decided by the peers, by what each name means, by the limit of hops,
/// and by that realm's own entry of the configuration.
pub fn own_part()
    ensures { OwnPartDecides }
{}

/// States that what the proxy answers itself is decided by the peers, by what each name means, by the limit of hops, by
/// whether Status-Servers and unnamed Accounting-Requests are answered, and by which peers a realm takes requests of
/// and what becomes of its accounting.
pub fn own_answers()
    ensures { OwnAnswersDecided }
{}
