//! The meaning of a single value of the document, and of a key of a table.

ghost use Rattle.std.specs.Prelude.{◌≡◌, ◌≤◌, Some, None, IfSome};
ghost use Rattle.std.specs.Prelude.{option_map, true};
ghost use Rattle.std.specs.List.{list_all};
ghost use Rattle.std.specs.Option.{option_copied};
ghost use Rattle.toml.specs.Data.{get_member};
ghost use Rattle.toml.specs.View.{view, table_view, array_view};
ghost use Rattle.roam_address.specs.Prefixes.{shown_prefix};
ghost use Rattle.roam_conf_reader.specs.Values as spec;
ghost use Rattle.roam_conf_reader.specs.Values.{letters_of, text_fits};

use crate::station_word::StationWord;
use hex::FromHex;
use roam_conf::{Accounting, Address, Endpoint, ExchangeLines, Prefix};
use toml::value::Array;
use toml::{Table, Value};

/// The octets that a text may have.
#[derive(Clone, Copy)]
pub(crate) enum Letters {
    Any,
    /// All but 0.
    NoZero,
    /// `0` to `9`.
    Digit,
    /// ASCII letters and digits, `.`, `-` and `_`.
    PeerName,
    /// ASCII letters and digits, `.` and `-`.
    RealmName,
}

impl Letters {
    #[tactic(auto, unfolding(roam_conf::specs::Letters::is_peer_letter, roam_conf::specs::Letters::is_realm_letter))]
    fn admits(self, octet: u8) -> bool
        ensures { result ≡ letters_of self octet }
    {
        match self {
            Letters::Any => true,
            Letters::NoZero => octet != 0,
            Letters::Digit => octet.is_ascii_digit(),
            Letters::PeerName => {
                octet.is_ascii_alphanumeric() || octet == b'.' || octet == b'-' || octet == b'_'
            }
            Letters::RealmName => octet.is_ascii_alphanumeric() || octet == b'.' || octet == b'-',
        }
    }

    fn admits_all(self, octets: &[u8]) -> bool
        ensures { result ≡ list_all (letters_of self) octets.now }
    {
        octets.iter().all(|octet| self.admits(*octet))
    }
}

/// Returns the value at a key.
pub(crate) fn value<'a>(table: &'a Table, key: &str) -> Option<&'a Value>
    ensures { option_map (λ v. view v.now) result ≡ get_member key.now (table_view table.now) }
{
    table.get(key)
}

/// Returns whether the octets are 1 to `most`, all of them among the letters.
#[tactic(auto, unfolding(crate::specs::Values::text_fits))]
pub(crate) fn text_fits(octets: &[u8], most: usize, letters: Letters) -> bool
    ensures { result ≡ text_fits most (letters_of letters) octets.now }
{
    if octets.is_empty() || octets.len() > most {
        return false;
    }
    letters.admits_all(octets)
}

/// Reads a text of 1 to `most` octets.
#[tactic(auto, unfolding(crate::specs::Values::text))]
pub(crate) fn text_of(value: &Value, most: usize, letters: Letters) -> Option<&str>
    ensures { option_copied result ≡ spec.text most (letters_of letters) (view value.now) }
{
    let text = value.as_str()?;
    if text_fits(text.as_bytes(), most, letters) {
        Some(text)
    } else {
        None
    }
}

#[tactic(auto, unfolding(crate::specs::Values::number))]
pub(crate) fn number_of(value: &Value, least: u32, most: u32) -> Option<u32>
    ensures value { result ≡ spec.number least most (view value.now) }
    ensures bounds { IfSome result (λ n. (least ≤ n) × (n ≤ most)) }
{
    let n = u32::try_from(value.as_integer()?).ok()?;
    if least <= n && n <= most {
        Some(n)
    } else {
        None
    }
}

#[tactic(auto, unfolding(crate::specs::Values::address))]
pub(crate) fn address_of(value: &Value) -> Option<Address>
    ensures { result ≡ spec.address (view value.now) }
{
    Address::from_text(value.as_str()?)
}

/// Reads the octets of an address of IPv4.
#[tactic(auto, unfolding(crate::specs::Values::ipv4))]
pub(crate) fn ipv4_of(value: &Value) -> Option<[u8; 4]>
    ensures { result ≡ spec.ipv4 (view value.now) }
{
    Address::from_text(value.as_str()?)?.ipv4_octets()
}

/// Reads the octets of an address of IPv6.
#[tactic(auto, unfolding(crate::specs::Values::ipv6))]
pub(crate) fn ipv6_of(value: &Value) -> Option<[u8; 16]>
    ensures { result ≡ spec.ipv6 (view value.now) }
{
    Address::from_text(value.as_str()?)?.ipv6_octets()
}

#[tactic(auto, unfolding(crate::specs::Values::prefix))]
pub(crate) fn prefix_of(value: &Value) -> Option<Prefix>
    ensures { option_map shown_prefix result ≡ spec.prefix (view value.now) }
{
    Prefix::from_text(value.as_str()?)
}

#[tactic(auto, unfolding(crate::specs::Values::endpoint))]
pub(crate) fn endpoint_of(value: &Value) -> Option<Endpoint>
    ensures { result ≡ spec.endpoint (view value.now) }
{
    Endpoint::from_text(value.as_str()?)
}

/// Reads the exchanges of which lines tell from a text.
#[tactic(auto, unfolding(crate::specs::Values::exchange_lines_in))]
fn exchange_lines_in(text: &str) -> Option<ExchangeLines>
    ensures { result ≡ spec.exchange_lines_in text.now }
{
    if text == "all" {
        return Some(ExchangeLines::OfAll);
    }
    if text == "final" {
        return Some(ExchangeLines::OfFinal);
    }
    if text == "none" {
        return Some(ExchangeLines::OfNone);
    }
    None
}

/// Reads the exchanges of which lines tell: a boolean, or one of three texts.
#[tactic(auto, unfolding(crate::specs::Values::exchange_lines))]
pub(crate) fn exchange_lines_of(value: &Value) -> Option<ExchangeLines>
    ensures { result ≡ spec.exchange_lines (Some (view value.now)) }
{
    match value {
        Value::Boolean(true) => Some(ExchangeLines::OfAll),
        Value::Boolean(false) => Some(ExchangeLines::OfNone),
        Value::String(text) => exchange_lines_in(text.as_str()),
        _ => None,
    }
}

/// Returns what becomes of accounting, by a text.
#[tactic(auto, unfolding(crate::specs::Values::accounting_in))]
pub(crate) fn accounting_in(text: &str) -> Option<Accounting>
    ensures { result ≡ spec.accounting_in text.now }
{
    if text == "forward" {
        return Some(Accounting::Forwarded);
    }
    if text == "answer" {
        return Some(Accounting::Answered);
    }
    if text == "drop" {
        return Some(Accounting::Dropped);
    }
    None
}

/// Returns whether the user decides with which server a request's targets begin, by a text.
#[tactic(auto, unfolding(crate::specs::Values::balance_in))]
pub(crate) fn balance_in(text: &str) -> Option<bool>
    ensures { result ≡ spec.balance_in text.now }
{
    if text == "order" {
        return Some(false);
    }
    if text == "user" {
        return Some(true);
    }
    None
}

/// Returns how lines have a station, by a text.
#[tactic(auto, unfolding(crate::specs::Values::station_word_in))]
fn station_word_in(text: &str) -> Option<StationWord>
    ensures { result ≡ spec.station_word_in text.now }
{
    if text == "clear" {
        return Some(StationWord::Clear);
    }
    if text == "hmac" {
        return Some(StationWord::Hmac);
    }
    None
}

/// Returns how lines have a station: one of two texts.
#[tactic(auto, unfolding(crate::specs::Values::station_word))]
pub(crate) fn station_word_of(value: &Value) -> Option<StationWord>
    ensures { result ≡ spec.station_word (Some (view value.now)) }
{
    match value {
        Value::String(text) => station_word_in(text.as_str()),
        _ => None,
    }
}

#[tactic(auto, unfolding(crate::specs::Values::seed))]
pub(crate) fn seed_of(value: &Value) -> Option<[u8; 32]>
    ensures { result ≡ spec.seed (view value.now) }
{
    <[u8; 32] as FromHex>::from_hex(value.as_str()?).ok()
}

/// Reads an array of 1 to `most` items.
#[tactic(auto, using(crate::proofs::ArrayLemmas::item_count_of), unfolding(crate::specs::Values::array_of))]
pub(crate) fn array_of(value: &Value, most: usize) -> Option<&Array>
    ensures { option_map (λ a. array_view a.now) result ≡ spec.array_of most (view value.now) }
{
    let array = value.as_array()?;
    if array.is_empty() || array.len() > most {
        None
    } else {
        Some(array)
    }
}
