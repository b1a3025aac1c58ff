//! Decimal numbers without leading zeros.

ghost use Rattle.std.specs.Prelude.{◌≡◌, ◌≤◌, IfSome};
ghost use Rattle.std.specs.Char.{is_ascii_digit};
ghost use Rattle.std.specs.List.{list_all};
ghost use Rattle.roam_address.specs.Decimals.{is_decimal, decimal_in};

/// Returns whether each octet is a decimal digit.
fn are_digits(octets: &[u8]) -> bool
    ensures { result ≡ list_all is_ascii_digit octets.now }
{
    octets.iter().all(|octet| octet.is_ascii_digit())
}

/// Returns whether the octets are decimal digits, of which the first is a zero only where it stands alone.
#[tactic(auto, unfolding(crate::specs::Decimals::is_decimal))]
fn is_decimal(octets: &[u8]) -> bool
    ensures { result ≡ is_decimal octets.now }
{
    if octets.is_empty() {
        return false;
    }
    if octets[0] == b'0' && octets.len() > 1 {
        return false;
    }
    are_digits(octets)
}

/// Reads the decimal number that the text is, without leading zeros, where it is from `least` to `most`.
pub fn decimal(text: &str, least: u64, most: u64) -> Option<u64>
    ensures value { result ≡ decimal_in least most text.now }
    ensures bounds { IfSome result (λ n. (least ≤ n) × (n ≤ most)) }
{
    if !is_decimal(text.as_bytes()) {
        return None;
    }
    match text.parse::<u64>() {
        Ok(number) => {
            if least <= number && number <= most {
                Some(number)
            } else {
                None
            }
        }
        Err(_) => None,
    }
}
