//! The station in a line.

ghost use Rattle.std.specs.Prelude.{◌≡◌, ◌++◌, OnOk, codes};
ghost use Rattle.roam_log.specs.Exchanges.{station_text};
ghost use Rattle.roam_log.specs.Values.{digits_of_octet, digits_text, octets_if};
ghost use Rattle.roam_log.specs.Hashes.{hash_of};

use crate::exchange::Value;
use crate::exchange_line::{digit, push, push_value};
use crate::{StationForm, StationKey, hash_of};
use std::alloc::AllocError;

/// Adds an octet by two digits.
fn push_digits_of(line: &mut Vec<u8>, octet: u8) -> Result<(), AllocError>
    ensures { OnOk result (line.new.items ≡ line.old.items ++ digits_of_octet octet) }
{
    push(line, &[digit(octet / 16), digit(octet % 16)])
}

/// Adds octets by two digits each.
fn push_digits(line: &mut Vec<u8>, octets: &[u8]) -> Result<(), AllocError>
    ensures { OnOk result (line.new.items ≡ line.old.items ++ digits_text octets.now) }
{
    for octet in octets {
        push_digits_of(line, *octet)?;
    }
    Ok(())
}

/// Adds the hash of a station.
fn push_hash(line: &mut Vec<u8>, key: &StationKey, station: &[u8]) -> Result<(), AllocError>
    ensures { OnOk result (line.new.items
        ≡ line.old.items ++ codes " station=hmac:" ++ digits_text (hash_of key.now.block station.now)) }
{
    let alloc = *line.allocator();
    let hash = hash_of(alloc, key, station)?;
    push(line, b" station=hmac:")?;
    push_digits(line, hash.as_slice())
}

/// Adds the station in this form, or a hyphen where there is none.
pub(crate) fn push_station(
    line: &mut Vec<u8>,
    form: &StationForm,
    station: &Value,
) -> Result<(), AllocError>
    ensures { OnOk result (line.new.items
        ≡ line.old.items ++ station_text form.now (octets_if station.now)) }
{
    match (form, station.octets()) {
        (StationForm::Clear, Some(station)) => push_value(line, " station=", Some(station)),
        (StationForm::Hashed(key), Some(station)) => push_hash(line, key, station),
        (StationForm::Hidden, Some(_)) => push(line, b" station=hidden"),
        (_, None) => push_value(line, " station=", None),
    }
}
