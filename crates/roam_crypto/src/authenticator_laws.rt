//! Laws of sealing and signing. These functions do nothing: their contracts hold of all packets.

ghost use Rattle.roam_crypto.specs.DecidingLaws.{SignedReplyIsDecided, SignedRequestIsDecided, WellSealedIsDecided};
ghost use Rattle.roam_crypto.specs.Laws.{SealedIsWellSealed, SealingKeepsLength, SealingKeepsPacket, UnsealedStays};
ghost use Rattle.roam_crypto.specs.Laws.{WellSealedForEither, ZeroedAgain, ValueDoesNotCount, FieldDoesNotCount};
ghost use Rattle.roam_crypto.specs.Laws.{CountsStay, OthersStay, ValueStandsInPlace, SignedReplyIsSigned};
ghost use Rattle.roam_crypto.specs.Laws.{SignedRequestIsSigned, SigningKeepsSeal, OtherFieldKeepsPacket};
ghost use Rattle.roam_crypto.specs.Laws.{ResponseAuthenticatorIsSixteen, RequestAuthenticatorIsSixteen};
ghost use Rattle.roam_crypto.specs.Laws.{MessageAuthenticatorIsSixteen, SignedReplyIsPacket, SignedRequestIsPacket};

/// States what a packet with its Message-Authenticator in its place is.
pub fn sealing()
    ensures well_sealed { SealedIsWellSealed }
    ensures length { SealingKeepsLength }
    ensures packet { SealingKeepsPacket }
    ensures unsealed { UnsealedStays }
    ensures either { WellSealedForEither }
{}

/// States what another Value in the place of a Message-Authenticator changes, and what it doesn't.
pub fn zeroing()
    ensures again { ZeroedAgain }
    ensures value { ValueDoesNotCount }
    ensures field { FieldDoesNotCount }
    ensures counts { CountsStay }
    ensures others { OthersStay }
    ensures place { ValueStandsInPlace }
{}

/// States that the tests by which definitions choose are true just where their facts hold.
pub fn deciding()
    ensures signed_reply { SignedReplyIsDecided }
    ensures signed_request { SignedRequestIsDecided }
    ensures well_sealed { WellSealedIsDecided }
{}

/// States what a packet with its Response or Request Authenticator in its field is.
pub fn signing()
    ensures reply { SignedReplyIsSigned }
    ensures request { SignedRequestIsSigned }
    ensures seal { SigningKeepsSeal }
    ensures reply_packet { SignedReplyIsPacket }
    ensures request_packet { SignedRequestIsPacket }
{}

/// States that each digest has sixteen octets, and that a packet with other sixteen octets for its Authenticator is a
/// packet.
pub fn digests()
    ensures response { ResponseAuthenticatorIsSixteen }
    ensures request { RequestAuthenticatorIsSixteen }
    ensures message { MessageAuthenticatorIsSixteen }
    ensures field { OtherFieldKeepsPacket }
{}
