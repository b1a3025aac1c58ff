//! Laws of taken replies, of the returned packet, whatever the reply's code, and of the NAK. These
//! functions do nothing: their contracts hold of all replies and requests.

ghost use Rattle.roam_reply.specs.ReplyCheck.{TakenHasNoFault};
ghost use Rattle.roam_reply.specs.CarriedLaws.{AcceptCarriesAll, RejectCarriesAll, OthersAreCarriedBack};
ghost use Rattle.roam_reply.specs.NakLaws.{NakIsPacket, NakReads, NakHasLength, NakIsShort, NakAnswers};
ghost use Rattle.roam_reply.specs.NakLaws.{NakHasIdentifier, NakIsSigned, NakHasNoSeal, NakHasOneCause, NakTellsCause};
ghost use Rattle.roam_reply.specs.NakLaws.{NakHasProxyStates, NakHasNothingElse, NothingElseCounts};
ghost use Rattle.roam_reply.specs.PassingLaws.{AcceptCarriesWhatPasses, AccessPasses, NothingNamed};
ghost use Rattle.roam_reply.specs.PassingLaws.{OtherAttributesPass, OthersPassWhole, OwnNamesPass};
ghost use Rattle.roam_reply.specs.ReturnedLaws.{ReturnedIsPacket, ReturnedReads, ReturnedHasLength, ReturnedIsSigned};
ghost use Rattle.roam_reply.specs.ReturnedLaws.{ReturnedIsWellSealed, AccessIsSealed, AccessReplyHasSealFirst};
ghost use Rattle.roam_reply.specs.ReturnedLaws.{CodeIsTheReplys, IdentifierIsTheRequests, ProxyStatesAreTheRequests};

/// States that the tests of a reply find no fault just where it is taken (RFC 2865, section 2.3).
pub fn taken_replies()
    ensures { TakenHasNoFault }
{}

/// States that a returned packet has the stated size, and reads (RFC 2865, section 3).
pub fn returned_reads()
    ensures packet { ReturnedIsPacket }
    ensures reads { ReturnedReads }
    ensures length { ReturnedHasLength }
{}

/// States that a returned packet is signed for the requester, and has the right Message-Authenticator (RFC 2865
/// section 3, RFC 3579 section 3.2).
pub fn returned_authenticators()
    ensures signed { ReturnedIsSigned }
    ensures well_sealed { ReturnedIsWellSealed }
    ensures access { AccessIsSealed }
    ensures access_first { AccessReplyHasSealFirst }
{}

/// States that a returned packet has the reply's code, the request's Identifier, and the request's Proxy-States (RFC
/// 2865, section 2.3).
pub fn returned_to_the_requester()
    ensures code { CodeIsTheReplys }
    ensures id { IdentifierIsTheRequests }
    ensures proxy_states { ProxyStatesAreTheRequests }
{}

/// States what a returned packet carries of the reply: each attribute stands in its order octet for octet, and the
/// salted strings of an Access-Accept open to the same plain text (RFC 2865, section 2.3).
pub fn returned_carries()
    ensures accept { AcceptCarriesAll }
    ensures access { RejectCarriesAll }
    ensures others { OthersAreCarriedBack }
{}

/// States which of a reply's attributes are returned: of an Access reply just those that no list names, in their order,
/// and of any other all. Where own names alone pass, an Access-Accept has just the User-Names of the request's name
/// part.
pub fn passing_replies()
    ensures access { AccessPasses }
    ensures accept { AcceptCarriesWhatPasses }
    ensures others { OthersPassWhole }
    ensures nothing { NothingNamed }
    ensures own_names { OwnNamesPass }
    ensures other_attributes { OtherAttributesPass }
{}

/// States that a NAK is a packet of the stated size, which reads (RFC 2865, section 3).
pub fn nak_reads()
    ensures packet { NakIsPacket }
    ensures reads { NakReads }
    ensures length { NakHasLength }
    ensures short { NakIsShort }
{}

/// States that a NAK answers its request, and is signed for the home server (RFC 5176, section 2.3).
pub fn nak_answers()
    ensures code { NakAnswers }
    ensures id { NakHasIdentifier }
    ensures signed { NakIsSigned }
{}

/// States that a NAK carries one Error-Cause and the request's Proxy-States, and nothing else (RFC 5176, sections 2.3
/// and 3.5).
pub fn nak_carries()
    ensures one_cause { NakHasOneCause }
    ensures cause { NakTellsCause }
    ensures proxy_states { NakHasProxyStates }
    ensures no_seal { NakHasNoSeal }
    ensures nothing_else { NakHasNothingElse }
    ensures alike { NothingElseCounts }
{}
