//! The part of a Calling-Station-Id that is hashed, and the part of its hash that is kept.

ghost use Rattle.std.specs.Prelude.{◌≡◌, ◌++◌, IfOk, OnOk, take};
ghost use Rattle.std.specs.List.{list_all};
ghost use Rattle.roam_log.specs.Hashes.{bare, bare_octet, hash_of, is_digit, is_mac};

use crate::hmac::StationKey;
use std::alloc::{AllocError, Global};

/// The number of digits of a MAC address.
const DIGITS: usize = 12;

/// The number of octets of a hash that are kept.
const KEPT: usize = 8;

/// Adds an octet in small letters, but for one that parts a MAC address.
fn push_bare(octets: &mut Vec<u8>, octet: u8) -> Result<(), AllocError>
    ensures { OnOk result (octets.new.items ≡ octets.old.items ++ bare_octet octet) }
{
    match octet {
        b'-' | b'.' | b':' => Ok(()),
        b'A'..=b'F' => octets.extend_from_slice(&[octet + 32]),
        _ => octets.extend_from_slice(&[octet]),
    }
}

/// Copies a station's octets in small letters, without those that part a MAC address.
fn bare(alloc: Global, station: &[u8]) -> Result<Vec<u8>, AllocError>
    ensures { IfOk result (λ octets. octets.items ≡ bare station.now) }
{
    let mut octets = Vec::new(alloc);
    for octet in station {
        push_bare(&mut octets, *octet)?;
    }
    Ok(octets)
}

/// Returns whether an octet is a hexadecimal digit, in small letters.
fn is_digit(octet: u8) -> bool
    ensures { result ≡ is_digit octet }
{
    (octet >= b'0' && octet <= b'9') || (octet >= b'a' && octet <= b'f')
}

fn are_digits(octets: &[u8]) -> bool
    ensures { result ≡ list_all is_digit octets.now }
{
    octets.iter().all(|octet| is_digit(*octet))
}

/// Returns whether such octets are those of a MAC address.
fn is_mac(octets: &[u8]) -> bool
    ensures { result ≡ is_mac octets.now }
{
    octets.len() == DIGITS && are_digits(octets)
}

/// Returns the first octets of a digest.
fn kept(digest: [u8; 32]) -> [u8; 8]
    ensures { result ≡ take 8 digest }
{
    let mut kept = [0; KEPT];
    kept.copy_from_slice(&digest[..KEPT]);
    kept
}

/// Computes the hash of a station: of a MAC address that of its digits.
///
/// # Errors
///
/// Where a growth was refused.
pub fn hash_of(alloc: Global, key: &StationKey, station: &[u8]) -> Result<[u8; 8], AllocError>
    ensures { IfOk result (λ hash. hash ≡ hash_of key.now.block station.now) }
{
    let octets = bare(alloc, station)?;
    if is_mac(octets.as_slice()) {
        Ok(kept(key.hmac(octets.as_slice())))
    } else {
        Ok(kept(key.hmac(station)))
    }
}
