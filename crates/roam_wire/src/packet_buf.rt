//! Building a packet (RFC 2865, sections 3 and 5).

ghost use Rattle.std.specs.Prelude.{◌≡◌, ◌⊎◌, ◌↔◌, ◌+◌, ◌/◌, ◌%◌, ◌<◌, ◌≤◌};
ghost use Rattle.std.specs.Prelude.{[], ◌∷◌, ◌++◌};
ghost use Rattle.std.specs.Prelude.{length, vec_len, slice_set, IfOk, IfErr, OnOk, OnErr, IsErrOf};
ghost use Rattle.roam_wire.specs.Packet.{IsPacket, packet_length, packet_text, attribute_text};
ghost use Rattle.roam_wire.specs.Building.{header_of, with_attribute};

use crate::attributes::Attr;
use crate::packet_size::MAX_PACKET_LENGTH;
use crate::refusal::{NoMemory, Refusal};
use crate::writing::{append_attribute, append_header};
use std::alloc::Allocator;
use std::marker::Model;

/// A packet that is being built: at every moment the octets of a whole packet. Contracts see it as
/// that packet.
#[derive(Drop)]
pub struct PacketBuf<A: Allocator> {
    octets: Vec<u8, A>,
}

impl<A: Allocator> Model for PacketBuf<A> {
    ghost use Rattle.roam_wire.specs.Packet.{Packet};
    ghost use Rattle.roam_wire.specs.Reading.{IsPacketText, packet_of};

    ghost Value = { Packet };

    ghost view = { λ b. packet_of b.octets.items };

    ghost invariant = { λ b. IsPacketText b.octets.items };
}

/// Makes the octets of a header whose Length is 20.
fn header_octets<A: Allocator>(
    alloc: A,
    code: u8,
    id: u8,
    authenticator: &[u8; 16],
) -> Result<Vec<u8, A>, NoMemory>
    ensures { IfOk result (λ v. v.items ≡ code ∷ id ∷ 0 ∷ 20 ∷ authenticator.now) }
{
    let mut octets = Vec::with_capacity(alloc, 20)?;
    append_header(&mut octets, code, id, 20, authenticator);
    Ok(octets)
}

/// Appends an attribute's octets, or leaves the octets as they were.
fn push_attribute<A: Allocator>(
    octets: &mut Vec<u8, A>,
    kind: u8,
    value: &[u8],
) -> Result<(), NoMemory>
    requires short { length value.now ≤ 253 }
    requires few { vec_len octets.old ≤ 4096 }
    ensures ok { OnOk result (octets.new.items
        ≡ octets.old.items ++ attribute_text (record { kind = kind; value = value.now })) }
    ensures err { OnErr result (octets.new.items ≡ octets.old.items) }
{
    octets.reserve(2 + value.len())?;
    append_attribute(octets, Attr { kind, value });
    Ok(())
}

/// Writes the Length field.
fn write_length<A: Allocator>(octets: &mut Vec<u8, A>, size: usize)
    requires header { 20 ≤ vec_len octets.old }
    requires size { size ≤ 4096 }
    ensures { octets.new.items
        ≡ slice_set (slice_set octets.old.items 2 (size / 256)) 3 (size % 256) }
{
    octets[2] = (size / 256) as u8;
    octets[3] = (size % 256) as u8;
}

impl<A: Allocator> PacketBuf<A> {
    /// Makes a packet without attributes.
    pub fn start(
        alloc: A,
        code: u8,
        id: u8,
        authenticator: &[u8; 16],
    ) -> Result<PacketBuf<A>, NoMemory>
        ensures { IfOk result (λ b. b ≡ header_of code id authenticator.now) }
    {
        let octets = header_octets(alloc, code, id, authenticator)?;
        Ok(PacketBuf { octets })
    }

    /// Appends an attribute: Type, Length and Value (RFC 2865, section 5).
    ///
    /// Refused in this order: `TooLong`, `NoMemory`. A refusal leaves the packet as it was.
    pub fn push_attr(&mut self, kind: u8, value: &[u8]) -> Result<(), Refusal>
        requires { length value.now ≤ 253 }
        ensures ok { OnOk result (self.new ≡ with_attribute kind value.now self.old) }
        ensures err { OnErr result (self.new ≡ self.old) }

        // The size is looked at before memory is asked for.
        ensures too_long { IsErrOf result Refusal.TooLong
            ↔ (4096 < packet_length self.old + 2 + length value.now) }
        ensures causes { IfErr result (λ e. (e ≡ Refusal.TooLong) ⊎ (e ≡ Refusal.NoMemory)) }
    {
        let size = self.octets.len() + 2 + value.len();
        if size > MAX_PACKET_LENGTH {
            return Err(Refusal::TooLong);
        }
        push_attribute(&mut self.octets, kind, value)?;
        write_length(&mut self.octets, size);
        Ok(())
    }

    /// Returns the packet's octets, 20 to 4096 in number. Takes no memory.
    pub fn finish(self) -> Vec<u8, A>
        ensures text { result.items ≡ packet_text self }
        ensures packet { IsPacket self }
    {
        self.octets
    }
}
