//! Printing: a line for each packet that leaves.
//!
//! Nothing here takes memory. A line is some twenty writes, so a writer of many lines is meant to have a
//! buffer.

ghost use Rattle.std.specs.Prelude.{◌≤◌, length, OnOk};
ghost use Rattle.std.specs.Io.KnownBytes.{Appends};
ghost use Rattle.hex.specs.Hex.{encode_lower};
ghost use Rattle.roam_address.specs.Endpoints.{endpoint_text};
ghost use Rattle.roam_sim.specs.Lines.{realm_text, place_text, packet_line};

use roam_conf::{Endpoint, NthText, Place};
use std::io;
use std::io::Write;

fn print_realm<W: Write>(writer: &mut W, realm: Option<u16>) -> io::Result<()>
    ensures { OnOk result (Appends (W.contents writer.old) (W.contents writer.new) (realm_text realm)) }
{
    match realm {
        Some(realm) => write!(writer, "{realm}"),
        None => writer.write_all(b"-"),
    }
}

fn print_place<W: Write>(writer: &mut W, place: Place) -> io::Result<()>
    ensures { OnOk result (Appends (W.contents writer.old) (W.contents writer.new) (place_text place)) }
{
    match place {
        Place::Auth(nth) => write!(writer, "auth{}", NthText(nth)),
        Place::Acct(nth) => write!(writer, "acct{}", NthText(nth)),
        Place::Out(realm, nth) => write!(writer, "out:{realm}{}", NthText(nth)),
        Place::Reverse(realm, nth) => write!(writer, "reverse:{realm}{}", NthText(nth)),
    }
}

/// Prints an endpoint: its address, that of IPv6 in brackets, a colon and the port.
///
/// # Errors
///
/// The writer's.
pub fn print_endpoint<W: Write>(writer: &mut W, endpoint: Endpoint) -> io::Result<()>
    ensures { OnOk result
        (Appends (W.contents writer.old) (W.contents writer.new) (endpoint_text endpoint)) }
{
    write!(writer, "{endpoint}")
}

/// The number of octets that are printed at a time.
const PIECE: usize = 512;

/// The number of hexadecimal digits of those.
const PIECE_DIGITS: usize = 1024;

/// Prints each of a few octets as two hexadecimal digits, in lower case.
fn print_piece<W: Write>(writer: &mut W, octets: &[u8]) -> io::Result<()>
    requires { length octets.now ≤ PIECE }
    ensures { OnOk result
        (Appends (W.contents writer.old) (W.contents writer.new) (encode_lower octets.now)) }
{
    let mut room = [0u8; PIECE_DIGITS];
    let digits = &mut room[..2 * octets.len()];
    hex::encode_to_slice(octets, digits).unwrap();
    writer.write_all(digits)
}

/// Prints each octet as two hexadecimal digits, in lower case.
fn print_octets<W: Write>(writer: &mut W, octets: &[u8]) -> io::Result<()>
    ensures { OnOk result
        (Appends (W.contents writer.old) (W.contents writer.new) (encode_lower octets.now)) }
{
    for piece in octets.chunks(PIECE) {
        print_piece(writer, piece)?;
    }
    Ok(())
}

/// Prints the line of a packet: the index of the realm for which it leaves or `-`, the place that it
/// leaves from, where it goes, and its octets in hexadecimal digits.
///
/// # Errors
///
/// The writer's.
pub fn print_packet<W: Write>(
    writer: &mut W,
    realm: Option<u16>,
    from: Place,
    to: Endpoint,
    octets: &[u8],
) -> io::Result<()>
    ensures { OnOk result (Appends (W.contents writer.old) (W.contents writer.new)
        (packet_line realm from to octets.now)) }
{
    print_realm(writer, realm)?;
    writer.write_all(b" ")?;
    print_place(writer, from)?;
    writer.write_all(b" ")?;
    print_endpoint(writer, to)?;
    writer.write_all(b" ")?;
    print_octets(writer, octets)?;
    writer.write_all(b"\n")
}
