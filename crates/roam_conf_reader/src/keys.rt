//! The values of the keys of a table: nothing where a key is absent or has no fitting value.

ghost use Rattle.std.specs.Prelude.{◌≡◌, ◌≤◌, IfSome, option_map};
ghost use Rattle.std.specs.Option.{option_copied};
ghost use Rattle.toml.specs.Data.{get_member};
ghost use Rattle.toml.specs.View.{table_view, array_view};
ghost use Rattle.roam_conf_reader.specs.Values as spec;
ghost use Rattle.roam_conf_reader.specs.Values.{letters_of, value_at, optional_at};

use crate::station_word::StationWord;
use crate::values::{self, Letters, value};
use roam_conf::{Accounting, Address, Endpoint, ExchangeLines};
use toml::value::Array;
use toml::{Table, Value};

pub(crate) fn address(table: &Table, key: &str) -> Option<Address>
    ensures { result ≡ value_at spec.address key.now (table_view table.now) }
{
    values::address_of(value(table, key)?)
}

pub(crate) fn endpoint(table: &Table, key: &str) -> Option<Endpoint>
    ensures { result ≡ value_at spec.endpoint key.now (table_view table.now) }
{
    values::endpoint_of(value(table, key)?)
}

/// Reads 32 octets, written as 64 hexadecimal digits, or returns 32 zeros where the key is absent.
#[tactic(auto, unfolding(crate::specs::Values::seed_or_zeros))]
pub(crate) fn seed_or_zeros(table: &Table, key: &str) -> Option<[u8; 32]>
    ensures { result ≡ spec.seed_or_zeros (get_member key.now (table_view table.now)) }
{
    match value(table, key) {
        Some(value) => values::seed_of(value),
        None => Some([0; 32]),
    }
}

/// Reads an array of 1 to `most` items.
pub(crate) fn array<'a>(table: &'a Table, key: &str, most: usize) -> Option<&'a Array>
    ensures { option_map (λ a. array_view a.now) result
        ≡ value_at (spec.array_of most) key.now (table_view table.now) }
{
    values::array_of(value(table, key)?, most)
}

/// Reads a text of 1 to `most` octets, all of them among the letters.
pub(crate) fn text<'a>(
    table: &'a Table,
    key: &str,
    most: usize,
    letters: Letters,
) -> Option<&'a str>
    ensures { option_copied result
        ≡ value_at (spec.text most (letters_of letters)) key.now (table_view table.now) }
{
    values::text_of(value(table, key)?, most, letters)
}

/// Reads an integer from `least` to `most`, or returns `default` where the key is absent.
#[tactic(auto, unfolding(crate::specs::Values::number_or))]
pub(crate) fn number_or(
    table: &Table,
    key: &str,
    default: u32,
    least: u32,
    most: u32,
) -> Option<u32>
    requires { (least ≤ default) × (default ≤ most) }
    ensures value { result
        ≡ spec.number_or default least most (get_member key.now (table_view table.now)) }
    ensures bounds { IfSome result (λ n. (least ≤ n) × (n ≤ most)) }
{
    match value(table, key) {
        Some(value) => values::number_of(value, least, most),
        None => Some(default),
    }
}

/// Reads an integer from 1 to `most`, or returns `Some(None)` where the key is absent.
pub(crate) fn optional_octet(table: &Table, key: &str, most: u8) -> Option<Option<u8>>
    ensures { result ≡ optional_at (spec.number 1 most) key.now (table_view table.now) }
{
    match value(table, key) {
        Some(value) => Some(Some(values::number_of(value, 1, u32::from(most))? as u8)),
        None => Some(None),
    }
}

/// Reads an integer of up to 16 bits, from `least` to `most`, or returns `Some(None)` where the key is absent.
pub(crate) fn optional_count(table: &Table, key: &str, least: u16, most: u16) -> Option<Option<u16>>
    ensures { result ≡ optional_at (spec.number least most) key.now (table_view table.now) }
{
    match value(table, key) {
        Some(value) => Some(Some(
            values::number_of(value, u32::from(least), u32::from(most))? as u16,
        )),
        None => Some(None),
    }
}

/// Reads the octets of an address of IPv4, or returns `Some(None)` where the key is absent.
pub(crate) fn optional_ipv4(table: &Table, key: &str) -> Option<Option<[u8; 4]>>
    ensures { result ≡ optional_at spec.ipv4 key.now (table_view table.now) }
{
    match value(table, key) {
        Some(value) => Some(Some(values::ipv4_of(value)?)),
        None => Some(None),
    }
}

/// Reads the octets of an address of IPv6, or returns `Some(None)` where the key is absent.
pub(crate) fn optional_ipv6(table: &Table, key: &str) -> Option<Option<[u8; 16]>>
    ensures { result ≡ optional_at spec.ipv6 key.now (table_view table.now) }
{
    match value(table, key) {
        Some(value) => Some(Some(values::ipv6_of(value)?)),
        None => Some(None),
    }
}

/// Reads an endpoint, or returns `Some(None)` where the key is absent.
pub(crate) fn optional_endpoint(table: &Table, key: &str) -> Option<Option<Endpoint>>
    ensures { result ≡ optional_at spec.endpoint key.now (table_view table.now) }
{
    match value(table, key) {
        Some(value) => Some(Some(values::endpoint_of(value)?)),
        None => Some(None),
    }
}

/// Reads a text of 1 to `most` octets, or returns `Some(None)` where the key is absent.
pub(crate) fn optional_text<'a>(table: &'a Table, key: &str, most: usize) -> Option<Option<&'a str>>
    ensures { option_map (λ text. option_copied text) result
        ≡ optional_at (spec.text most (letters_of Letters.Any)) key.now (table_view table.now) }
{
    match value(table, key) {
        Some(value) => Some(Some(values::text_of(value, most, Letters::Any)?)),
        None => Some(None),
    }
}

/// Reads the namespace of an Operator-Name, a digit, or returns `Some(None)` where the key is absent.
pub(crate) fn optional_namespace<'a>(table: &'a Table, key: &str) -> Option<Option<&'a str>>
    ensures { option_map (λ text. option_copied text) result
        ≡ optional_at spec.namespace key.now (table_view table.now) }
{
    match value(table, key) {
        Some(value) => Some(Some(values::text_of(value, 1, Letters::Digit)?)),
        None => Some(None),
    }
}

/// Reads a path that the address of a UNIX socket has room for, or returns `Some(None)` where the key is absent.
pub(crate) fn optional_socket_path<'a>(table: &'a Table, key: &str) -> Option<Option<&'a str>>
    ensures { option_map (λ text. option_copied text) result
        ≡ optional_at spec.socket_path key.now (table_view table.now) }
{
    match value(table, key) {
        Some(value) => Some(Some(values::text_of(value, 107, Letters::NoZero)?)),
        None => Some(None),
    }
}

/// Reads a path of a file, or returns `Some(None)` where the key is absent.
pub(crate) fn optional_file_path<'a>(table: &'a Table, key: &str) -> Option<Option<&'a str>>
    ensures { option_map (λ text. option_copied text) result
        ≡ optional_at spec.file_path key.now (table_view table.now) }
{
    match value(table, key) {
        Some(value) => Some(Some(values::text_of(value, 1024, Letters::NoZero)?)),
        None => Some(None),
    }
}

/// Reads the exchanges of which lines tell: all where the key is absent.
#[tactic(auto, unfolding(crate::specs::Values::exchange_lines))]
pub(crate) fn exchange_lines(table: &Table, key: &str) -> Option<ExchangeLines>
    ensures { result ≡ spec.exchange_lines (get_member key.now (table_view table.now)) }
{
    match value(table, key) {
        Some(value) => values::exchange_lines_of(value),
        None => Some(ExchangeLines::OfAll),
    }
}

/// Returns what becomes of accounting: it is forwarded where the key is absent.
#[tactic(auto, unfolding(crate::specs::Values::accounting))]
pub(crate) fn accounting(table: &Table, key: &str) -> Option<Accounting>
    ensures { result ≡ spec.accounting (get_member key.now (table_view table.now)) }
{
    match value(table, key) {
        Some(Value::String(text)) => values::accounting_in(text.as_str()),
        Some(_) => None,
        None => Some(Accounting::Forwarded),
    }
}

/// Returns whether the user decides with which server a request's targets begin: not where the key is absent.
#[tactic(auto, unfolding(crate::specs::Values::balance))]
pub(crate) fn balance(table: &Table, key: &str) -> Option<bool>
    ensures { result ≡ spec.balance (get_member key.now (table_view table.now)) }
{
    match value(table, key) {
        Some(Value::String(text)) => values::balance_in(text.as_str()),
        Some(_) => None,
        None => Some(false),
    }
}

/// Returns how lines have a station: as it stands where the key is absent.
#[tactic(auto, unfolding(crate::specs::Values::station_word))]
pub(crate) fn station_word(table: &Table, key: &str) -> Option<StationWord>
    ensures { result ≡ spec.station_word (get_member key.now (table_view table.now)) }
{
    match value(table, key) {
        Some(value) => values::station_word_of(value),
        None => Some(StationWord::Clear),
    }
}

/// Reads a boolean, which is false where the key is absent.
#[tactic(auto, unfolding(crate::specs::Values::flag))]
pub(crate) fn flag(table: &Table, key: &str) -> Option<bool>
    ensures { result ≡ spec.flag (get_member key.now (table_view table.now)) }
{
    match value(table, key) {
        Some(value) => value.as_bool(),
        None => Some(false),
    }
}
