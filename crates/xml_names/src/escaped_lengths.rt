//! The lengths of the prints of texts and values, whose bytes may be written as references.
ghost use Rattle.std.specs.Prelude.{◌≡◌, flat_map, length, min, IsTrue};
ghost use Rattle.xml_names.specs.Markup.{text_escape, value_escape};

use crate::references::{text_reference, value_reference};

// How many bytes a byte of a text is written as.
fn text_escape_len(byte: u8) -> usize
    ensures exact { result ≡ length (text_escape byte) }
{
    match text_reference(byte as char) {
        Some(reference) => reference.len(),
        None => 1,
    }
}

// How many bytes a byte of a value in quotes is written as.
fn value_escape_len(byte: u8) -> usize
    ensures exact { result ≡ length (value_escape byte) }
{
    match value_reference(byte as char) {
        Some(reference) => reference.len(),
        None => 1,
    }
}

/// If this returns true, each byte of the text is written as itself. Does not allocate.
#[inline(always)]
#[tactic(auto, using(crate::proofs::Escapes::plain_more))]
pub fn is_plain_text(text: &[u8]) -> bool
    ensures plain_unescaped { IsTrue result → flat_map text_escape text.now ≡ text.now }
{
    for byte in text {
        if let Some(_) = text_reference(*byte as char) {
            return false;
        }
    }
    true
}

/// If this returns true, each byte of the value is written as itself in quotes. Does not
/// allocate.
#[inline(always)]
#[tactic(auto, using(crate::proofs::Escapes::plain_more))]
pub fn is_plain_value(value: &[u8]) -> bool
    ensures plain_unescaped { IsTrue result → flat_map value_escape value.now ≡ value.now }
{
    for byte in value {
        if let Some(_) = value_reference(*byte as char) {
            return false;
        }
    }
    true
}

// The length of a text, byte by byte.
#[inline(never)]
fn escaped_text_len_by_byte(text: &[u8]) -> usize
    ensures exact { result ≡ min (length (flat_map text_escape text.now)) usize.MAX }
{
    let mut total = 0usize;
    for byte in text {
        total = total.saturating_add(text_escape_len(*byte));
    }
    total
}

// The length of a value without its quotes, byte by byte.
#[inline(never)]
fn escaped_value_len_by_byte(value: &[u8]) -> usize
    ensures exact { result ≡ min (length (flat_map value_escape value.now)) usize.MAX }
{
    let mut total = 0usize;
    for byte in value {
        total = total.saturating_add(value_escape_len(*byte));
    }
    total
}

/// The length in bytes of the print of a text, by its bytes; `usize::MAX` if it is longer, as in
/// all functions below. Does not allocate. Most texts contain nothing that is written as a
/// reference.
pub fn escaped_text_len(text: &[u8]) -> usize
    ensures exact { result ≡ min (length (flat_map text_escape text.now)) usize.MAX }
{
    if is_plain_text(text) {
        return text.len();
    }
    escaped_text_len_by_byte(text)
}

/// The length in bytes of a value as written, without the quotes, by its bytes. Does not
/// allocate.
pub fn escaped_value_len(value: &[u8]) -> usize
    ensures exact { result ≡ min (length (flat_map value_escape value.now)) usize.MAX }
{
    if is_plain_value(value) {
        return value.len();
    }
    escaped_value_len_by_byte(value)
}
