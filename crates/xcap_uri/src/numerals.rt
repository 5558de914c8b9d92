//! Numerals, as etags and counts are written: only digits, of which the first is not 0.
ghost use Rattle.std.specs.Prelude.{◌≡◌};
ghost use Rattle.xcap_uri.specs.Numerals.{begins_with_digit, numeral_of};
ghost use Rattle.xcap_uri.specs.inner.Numerals.{number_after};

// Whether the first octet is a digit other than 0.
fn begins_with_digit(octets: &[u8]) -> bool
    ensures exact { result ≡ begins_with_digit octets.now }
{
    matches!(octets, [b'1'..=b'9', ..])
}

// The number that digits write, if it has at most 64 bits.
fn parse_digits(octets: &[u8]) -> Option<u64>
    ensures exact { result ≡ number_after 0 octets.now }
{
    let mut number: u64 = 0;
    for &b in octets {
        if !matches!(b, b'0'..=b'9') {
            return None;
        }
        let digit = (b - b'0') as u64;
        number = number.checked_mul(10)?.checked_add(digit)?;
    }
    Some(number)
}

/// The number of a numeral, if it is one and has at most 64 bits. Does not allocate.
pub fn parse_numeral(octets: &[u8]) -> Option<u64>
    ensures exact { result ≡ numeral_of octets.now }
{
    if !begins_with_digit(octets) {
        return None;
    }
    parse_digits(octets)
}
