//! A packet in a datagram, looked at where it lies (RFC 2865, section 3).

ghost use Rattle.std.specs.Prelude.{◌≡◌, ◌⊎◌, ◌↔◌, ◌<◌, ◌≤◌, length, take, drop};
ghost use Rattle.std.specs.Prelude.{option_map};
ghost use Rattle.std.specs.Prelude.{IfOk, IfErr, IsOkAnd, IsErrOf};
ghost use Rattle.roam_wire.specs.Packet.{Packet, IsPacket, packet_text};
ghost use Rattle.roam_wire.specs.Reading.{length_field, HasLength, IsPacketText, ReadsAs, Reads, packet_of, reading};
ghost use Rattle.roam_wire.specs.Attributes.{first_value, count_of};

use crate::attribute_grammar::are_attributes;
use crate::attributes::Attrs;
use crate::packet_size::MAX_PACKET_LENGTH;
use crate::refusal::Refusal;
use std::marker::Model;

/// A packet that was read, looked at where it lies in the datagram (RFC 2865, section 3). Holding one
/// proves that its octets are a packet's. Contracts see it as that packet.
#[derive(Drop)]
pub struct View<'a> {
    octets: &'a [u8],
}

impl<'a> Model for View<'a> {
    ghost use Rattle.roam_wire.specs.Packet.{Packet};
    ghost use Rattle.roam_wire.specs.Reading.{IsPacketText, packet_of};

    ghost Value = { Packet };

    ghost view = { λ v. packet_of v.octets.now };

    ghost invariant = { λ v. IsPacketText v.octets.now };
}

/// Returns the Length field of a datagram.
fn length_at(datagram: &[u8]) -> usize
    requires { 20 ≤ length datagram.now }
    ensures { result ≡ length_field datagram.now }
{
    256 * usize::from(datagram[2]) + usize::from(datagram[3])
}

/// Returns the first `size` octets of a datagram.
fn front_of(datagram: &[u8], size: usize) -> &[u8]
    requires { size ≤ length datagram.now }
    ensures { result.now ≡ take size datagram.now }
{
    datagram.split_at(size).0
}

/// Returns the octets behind a header.
fn behind_header(octets: &[u8]) -> &[u8]
    requires { 20 ≤ length octets.now }
    ensures { result.now ≡ drop 20 octets.now }
{
    octets.split_at(20).1
}

/// Returns the octets of an Authenticator field.
fn authenticator_of(octets: &[u8]) -> [u8; 16]
    requires { 20 ≤ length octets.now }
    ensures { result ≡ take 16 (drop 4 octets.now) }
{
    let mut authenticator = [0; 16];
    authenticator.copy_from_slice(octets.split_at(4).1.split_at(16).0);
    authenticator
}

impl<'a> View<'a> {
    /// Reads the packet at the front of a datagram (RFC 2865, section 3). Octets behind Length are
    /// padding, and aren't looked at. One pass over the attributes; nothing is copied.
    ///
    /// Refused in this order: `Short`, `BadLength`, `BadAttribute`.
    pub fn read(datagram: &'a [u8]) -> Result<View<'a>, Refusal>
        // What is read is the packet that the datagram reads as, and there is no other.
        ensures packet { IfOk result (λ v. ReadsAs datagram.now v) }
        ensures only { (p : Packet) → ReadsAs datagram.now p → IsOkAnd result (λ v. v ≡ p) }
        ensures answer { result ≡ reading datagram.now }

        ensures short { IsErrOf result Refusal.Short ↔ (length datagram.now < 20) }
        ensures bad_length { IsErrOf result Refusal.BadLength
            ↔ ((20 ≤ length datagram.now) × ¬ HasLength datagram.now) }
        ensures bad_attribute { IsErrOf result Refusal.BadAttribute
            ↔ ((20 ≤ length datagram.now) × HasLength datagram.now × ¬ Reads datagram.now) }
        ensures causes { IfErr result (λ e. (e ≡ Refusal.Short) ⊎ (e ≡ Refusal.BadLength)
            ⊎ (e ≡ Refusal.BadAttribute)) }
    {
        if datagram.len() < 20 {
            return Err(Refusal::Short);
        }
        let length = length_at(datagram);
        if length < 20 || length > MAX_PACKET_LENGTH || length > datagram.len() {
            return Err(Refusal::BadLength);
        }
        let octets = front_of(datagram, length);
        if !are_attributes(behind_header(octets)) {
            return Err(Refusal::BadAttribute);
        }
        Ok(View { octets })
    }

    /// Makes the packet of octets that are known to be a packet's, such as those that were built or kept. Reads
    /// nothing.
    pub fn of_packet(octets: &'a [u8]) -> View<'a>
        requires { IsPacketText octets.now }
        ensures { result ≡ packet_of octets.entry.now }
    {
        View { octets }
    }

    /// Returns the packet's Code.
    pub fn code(&self) -> u8
        ensures { result ≡ self.now.code }
    {
        self.octets[0]
    }

    /// Returns the packet's Identifier.
    pub fn id(&self) -> u8
        ensures { result ≡ self.now.id }
    {
        self.octets[1]
    }

    /// Returns the packet's Authenticator field.
    pub fn authenticator(&self) -> [u8; 16]
        ensures { result ≡ self.now.authenticator }
    {
        authenticator_of(self.octets)
    }

    /// Returns the packet's attributes, in their order. They are few, since each takes at least two octets.
    pub fn attributes(&self) -> Attrs<'a>
        ensures all { result ≡ self.now.attributes }
        ensures few { length result ≤ 2038 }
        ensures packet { IsPacket self.now }
    {
        Attrs::over(behind_header(self.octets))
    }

    /// Returns the packet's octets: those of the datagram up to Length, 20 to 4096 in number.
    pub fn octets(&self) -> &'a [u8]
        ensures text { result.now ≡ packet_text self.now }
        ensures packet { IsPacket self.now }
    {
        self.octets
    }

    /// Returns the Value of the packet's first attribute of a Type, if there is one. Takes one pass.
    pub fn first(&self, kind: u8) -> Option<&'a [u8]>
        ensures { option_map (λ value. value.now) result ≡ first_value kind self.now.attributes }
    {
        for attribute in self.attributes() {
            if attribute.kind == kind {
                return Some(attribute.value);
            }
        }
        None
    }

    /// Returns how many attributes of a Type the packet has. One pass.
    pub fn count(&self, kind: u8) -> usize
        ensures { result ≡ count_of kind self.now.attributes }
    {
        self.attributes()
            .filter(|attribute| attribute.kind == kind)
            .count()
    }
}
