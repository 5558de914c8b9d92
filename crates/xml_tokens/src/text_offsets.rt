//! Places in texts.
ghost use Rattle.std.specs.Prelude.{◌≡◌, ◌-◌, chars, length, drop};
ghost use Rattle.xml_tokens.specs.ByteOffsets.{byte_offset};

use xml_grammar::{count, skip_chars};

/// The rest of a text that begins `back` characters before this rest.
pub fn rest_before<'a>(text: &'a str, rest: &str, back: usize) -> &'a str
    ensures exact { chars result.now
        ≡ drop (length (chars text.now) - length (chars rest.now) - back) (chars text.now) }
{
    skip_chars(
        text,
        count(text).saturating_sub(count(rest)).saturating_sub(back),
    )
}

/// The byte of a text at which this rest of it begins.
pub fn rest_offset(bytes: &[u8], rest: &str) -> usize
    ensures exact { result ≡ byte_offset bytes.now (chars rest.now) }
{
    bytes.len().saturating_sub(rest.len())
}
