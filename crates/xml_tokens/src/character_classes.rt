//! Runs of characters of one class.
ghost use Rattle.std.specs.Prelude.{◌≡◌, ◌≤◌, chars, length, take};
ghost use Rattle.xml_grammar.specs.TextReading.{take_while, drop_while, first_char_is};
ghost use Rattle.xml_tokens.specs.readers.CharacterRuns.{run_len};
ghost use Rattle.xml_names.specs.Characters.{is_name_char};
ghost use Rattle.xml_tokens.specs.readers.CharacterRuns.{is_plain_in_content, is_plain_in_value};
ghost use Rattle.xml_tokens.specs.readers.Classes.{class_contains, is_ascii_passing, is_non_ascii};

use crate::attribute_values::{is_raw_char, is_raw_value_char};
use crate::digit_runs::is_digit;
use crate::encoding_characters::is_encoding_char;
use crate::plain_characters::{is_plain_in_content, is_plain_in_value};
use crate::tokens::is_char_of_name;
use xml_grammar::{split_first, text_before};
use xml_names::is_space;

/// A class of characters.
#[derive(Clone, Copy)]
pub enum Class {
    Space,
    /// Characters of names.
    Name,
    Digit,
    /// Characters of the name of an encoding.
    Encoding,
    /// Raw characters.
    Raw,
    /// Raw characters of a value between these quotes.
    RawIn(char),
    /// Every character except this one.
    Other(char),
    /// ASCII characters that are read in content as themselves, whatever surrounds them.
    PlainContent,
    /// ASCII characters that are read in a value as themselves, whatever its quotes are.
    PlainValue,
}

#[inline(always)]
fn class_contains(class: Class, c: char) -> bool
    ensures exact { result ≡ class_contains class c }
{
    match class {
        Class::Space => is_space(c),
        Class::Name => is_char_of_name(c),
        Class::Digit => is_digit(c),
        Class::Encoding => is_encoding_char(c),
        Class::Raw => is_raw_char(c),
        Class::RawIn(quote) => is_raw_value_char(c, quote),
        Class::Other(one) => c != one,
        Class::PlainContent => is_plain_in_content(c),
        Class::PlainValue => is_plain_in_value(c),
    }
}

// The classes of each byte, as the bits of a digit: name, plain content, plain value.
static MARKS: [u8; 256] = *b"\
    00000000002000000000000000000000\
    66266602666667767777777777660666\
    67777777777777777777777777766467\
    67777777777777777777777777766660\
    00000000000000000000000000000000\
    00000000000000000000000000000000\
    00000000000000000000000000000000\
    00000000000000000000000000000000";

const IN_NAMES: u8 = 1;

const IN_CONTENT: u8 = 2;

const IN_VALUES: u8 = 4;

/// Whether a byte is an ASCII character of names.
#[inline(always)]
fn is_name_byte(byte: u8) -> bool
    ensures exact { result ≡ is_ascii_passing is_name_char byte }
{
    MARKS[byte as usize] & IN_NAMES != 0
}

/// Whether a byte is a plain character of content.
#[inline(always)]
fn is_content_byte(byte: u8) -> bool
    ensures exact { result ≡ is_ascii_passing is_plain_in_content byte }
{
    MARKS[byte as usize] & IN_CONTENT != 0
}

/// Whether a byte is a plain character of values.
#[inline(always)]
fn is_value_byte(byte: u8) -> bool
    ensures exact { result ≡ is_ascii_passing is_plain_in_value byte }
{
    MARKS[byte as usize] & IN_VALUES != 0
}

/// Whether a byte is an ASCII character of a class, for any class.
#[inline(always)]
fn class_contains_by_rule(class: Class, byte: u8) -> bool
    ensures exact { result ≡ is_ascii_passing (class_contains class) byte }
{
    byte < 128 && class_contains(class, byte as char)
}

/// Whether a byte is an ASCII character of a class. The classes of the longest runs are looked up
/// in `MARKS`.
#[inline(always)]
fn class_contains_ascii(class: Class, byte: u8) -> bool
    ensures exact { result ≡ is_ascii_passing (class_contains class) byte }
{
    match class {
        Class::Name => is_name_byte(byte),
        Class::PlainContent => is_content_byte(byte),
        Class::PlainValue => is_value_byte(byte),
        _ => class_contains_by_rule(class, byte),
    }
}

/// How many bytes at the front are ASCII characters of a class, one test a byte.
#[inline(never)]
#[tactic(auto, using(crate::proofs::RunLemmas::run_more, crate::proofs::RunLemmas::run_done))]
fn ascii_len_by_each(bytes: &[u8], class: Class) -> usize
    ensures exact { result ≡ run_len (is_ascii_passing (class_contains class)) bytes.now }
    ensures lies_within { result ≤ length bytes.now }
{
    for (i, &byte) in bytes.iter().enumerate() {
        if !class_contains_ascii(class, byte) {
            return i;
        }
    }
    bytes.len()
}

/// How many bytes at the front are ASCII characters of a class, four bytes a step while there are
/// four.
#[inline(always)]
#[tactic(auto, using(crate::proofs::RunLemmas::four_by_four))]
fn ascii_len(bytes: &[u8], class: Class) -> usize
    ensures exact { result ≡ run_len (is_ascii_passing (class_contains class)) bytes.now }
{
    let mut len = 0usize;
    'fours: while bytes.len() - len >= 4 {
        if !class_contains_ascii(class, bytes[len]) {
            return len;
        }
        if !class_contains_ascii(class, bytes[len + 1]) {
            return len + 1;
        }
        if !class_contains_ascii(class, bytes[len + 2]) {
            return len + 2;
        }
        if !class_contains_ascii(class, bytes[len + 3]) {
            return len + 3;
        }
        len += 4;
    }
    len + ascii_len_by_each(&bytes[len..], class)
}

/// Whether the first byte isn't an ASCII character.
#[inline(always)]
fn is_non_ascii_first(bytes: &[u8]) -> bool
    ensures exact { result ≡ first_char_is is_non_ascii bytes.now }
{
    match bytes {
        [first, ..] => *first >= 128,
        [] => false,
    }
}

/// What follows the characters of a class at the front. Most are ASCII, and are passed byte by
/// byte.
#[inline(always)]
fn skip_class(text: &str, class: Class) -> &str
    ensures exact { chars result.now ≡ drop_while (class_contains class) (chars text.now) }
{
    let len = ascii_len(text.as_bytes(), class);
    let rest = &text[len..];
    if is_non_ascii_first(rest.as_bytes()) {
        return skip_class_by_character(rest, class);
    }
    rest
}

/// `skip_class`, character by character.
#[inline(never)]
fn skip_class_by_character(text: &str, class: Class) -> &str
    ensures exact { chars result.now ≡ drop_while (class_contains class) (chars text.now) }
{
    let mut rest = text;
    'each: while let Some((c, after)) = split_first(rest) {
        if !class_contains(class, c) {
            return rest;
        }
        rest = after;
    }
    rest
}

/// The characters of a class at the front, possibly none, and what follows them.
#[inline(always)]
pub fn run(text: &str, class: Class) -> (&str, &str)
    ensures front_of_run { chars result.0.now ≡ take_while (class_contains class) (chars text.now) }
    ensures rest_after_run { chars result.1.now
        ≡ drop_while (class_contains class) (chars text.now) }
    ensures front_of_text { result.0.now ≡ take (length result.0.now) text.now }
{
    let rest = skip_class(text, class);
    (text_before(text, rest), rest)
}
