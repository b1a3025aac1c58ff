//! Laws of the forwarded packet. These functions do nothing: their contracts hold of all packets.

ghost use Rattle.roam_forward.specs.CarriedLaws.{ForwardedReads, AccessCarriesAll, OthersAreCarried};
ghost use Rattle.roam_forward.specs.ForwardedLaws.{ForwardedIsPacket, ForwardedHasLength, ForwardedIsWellSealed};
ghost use Rattle.roam_forward.specs.ForwardedLaws.{ForwardedIsSigned, AccessHasSeal, AccessHasSealFirst};
ghost use Rattle.roam_forward.specs.ForwardedLaws.{AccessHasAuthenticator, ForwardedKeepsCode, ForwardedHasIdentifier};
ghost use Rattle.roam_forward.specs.ForwardedLaws.{TicketIsLast};
ghost use Rattle.roam_forward.specs.ShapedLaws.{NothingShaped, ShapedAccessCarries};

/// States what a forwarded packet is, for every code.
pub fn forwarded_packet()
    ensures packet { ForwardedIsPacket }
    ensures length { ForwardedHasLength }
    ensures well_sealed { ForwardedIsWellSealed }
{}

/// States what holds of a request that is signed, and of an Access-Request, which isn't.
pub fn forwarded_authenticator()
    ensures signed { ForwardedIsSigned }
    ensures access_seal { AccessHasSeal }
    ensures access_seal_first { AccessHasSealFirst }
    ensures access_authenticator { AccessHasAuthenticator }
{}

/// States what a reply is known by, for every code.
pub fn forwarded_marks()
    ensures code { ForwardedKeepsCode }
    ensures identifier { ForwardedHasIdentifier }
    ensures ticket { TicketIsLast }
{}

/// States what a forwarded packet carries of the request: it reads, each attribute stands in its order octet for octet,
/// and a User-Password opens to the same plain text.
pub fn forwarded_carries()
    ensures reads { ForwardedReads }
    ensures access { AccessCarriesAll }
    ensures others { OthersAreCarried }
{}

/// States what the packet carries that is forwarded for a shaped request: of an Access-Request what passes, in its
/// order, then what is added; and where nothing is taken out and nothing added, it is the packet that is forwarded for
/// the request.
pub fn shaped_carries()
    ensures access { ShapedAccessCarries }
    ensures nothing { NothingShaped }
{}
