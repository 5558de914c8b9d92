//! Percent-escapes in parts of addresses (RFC 3986, section 2.1).
ghost use Rattle.std.specs.Prelude.{◌≡◌, option_map};
ghost use Rattle.xcap_uri.specs.Escapes.{has_complete_escapes};
ghost use Rattle.xcap_uri.specs.inner.Results.{IsStatedOr};
ghost use Rattle.xcap_uri.specs.readers.Escapes.{parsed_optional_text, parsed_text};

use crate::fault::UriFault;
use percent_encoding::{DecodeError, percent_decode};
use std::alloc::Global;
use xml_names::{ReadError, Text};

/// Whether each `%` is followed by two hexadecimal digits.
pub fn has_complete_escapes(part: &[u8]) -> bool
    ensures exact { result ≡ has_complete_escapes part.now }
{
    let mut rest = part;
    loop {
        match rest {
            [] => return true,
            [b'%', high, low, tail @ ..] => {
                if !high.is_ascii_hexdigit() || !low.is_ascii_hexdigit() {
                    return false;
                }
                rest = tail;
            }
            [b'%', ..] => return false,
            [_, tail @ ..] => rest = tail,
        }
    }
}

/// Decodes a part of an address.
///
/// # Errors
/// `BadEscape` exactly where a `%` isn't followed by two hexadecimal digits, or the octets aren't
/// UTF-8; `NoMemory` when out of memory.
#[tactic(auto, using(crate::proofs::EscapeLemmas::read_as_text, crate::proofs::EscapeLemmas::read_as_no_text, crate::proofs::EscapeLemmas::read_as_no_escapes))]
pub fn read_part(alloc: Global, part: &[u8]) -> Result<Text, ReadError<UriFault>>
    ensures exact { IsStatedOr ReadError.NoMemory (parsed_text part.now) result }
{
    if !has_complete_escapes(part) {
        return Err(ReadError::Fault(UriFault::BadEscape));
    }
    match percent_decode(part).decode_utf8(alloc) {
        Ok(text) => {
            let text = text.into_owned(alloc)?;
            Ok(Text::own(text))
        }
        Err(DecodeError::Utf8(_)) => Err(ReadError::Fault(UriFault::BadEscape)),
        Err(DecodeError::OutOfMemory) => Err(ReadError::NoMemory),
    }
}

/// Decodes a part that may be absent.
///
/// # Errors
/// As for `read_part`.
pub fn read_optional_part(
    alloc: Global,
    part: Option<&[u8]>,
) -> Result<Option<Text>, ReadError<UriFault>>
    ensures reads_optional_part { IsStatedOr ReadError.NoMemory
        (parsed_optional_text (option_map (λ x. x.now) part.entry)) result }
{
    match part {
        None => Ok(None),
        Some(part) => {
            let text = read_part(alloc, part)?;
            Ok(Some(text))
        }
    }
}
