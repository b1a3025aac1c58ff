//! Laws of reading, of packets' octets, and of the numbers that RFCs give to codes and attribute types.
//! These functions do nothing: their contracts hold of all packets and datagrams.

ghost use Rattle.roam_wire.specs.Constants.{AccessCodes, AccountingCodes, ReverseCodes};
ghost use Rattle.roam_wire.specs.Constants.{AccessTypes, AccountingTypes, OtherTypes, LargestPacket};
ghost use Rattle.roam_wire.specs.Laws.{ReadingIsRight, PacketTextReads, PacketTextIsReadAgain};
ghost use Rattle.roam_wire.specs.Laws.{PacketTextIsOfPacket, PacketTextHasLength, PacketTextIsOctets};

/// States what a datagram reads as.
pub fn readings()
    ensures right { ReadingIsRight }
    ensures own { PacketTextReads }
{}

/// States what a packet's octets are.
pub fn packet_octets()
    ensures again { PacketTextIsReadAgain }
    ensures packet { PacketTextIsOfPacket }
    ensures length { PacketTextHasLength }
    ensures octets { PacketTextIsOctets }
{}

/// States the numbers of the codes.
pub fn numbers_of_codes()
    ensures access { AccessCodes }
    ensures accounting { AccountingCodes }
    ensures reverse { ReverseCodes }
{}

/// States the numbers of the attribute types.
pub fn numbers_of_attribute_types()
    ensures access { AccessTypes }
    ensures accounting { AccountingTypes }
    ensures others { OtherTypes }
{}

/// States the size of the largest packet.
pub fn largest_packet()
    ensures { LargestPacket }
{}
