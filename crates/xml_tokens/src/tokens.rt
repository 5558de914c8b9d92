//! Words, white space and names: the rules that contain no other rule.
ghost use Rattle.std.specs.Prelude.{◌≡◌, ◌<◌, true, [], ◌∷◌, ◌++◌, chars, drop, take, length};
ghost use Rattle.std.specs.Prelude.{IsTrue, IfOk, IfSome, Ok};
ghost use Rattle.std.specs.List.{list_all};
ghost use Rattle.xml_grammar.specs.TextReading.{first_char_is, take_while, drop_while, read_word};
ghost use Rattle.xml_names.specs.Characters.{is_space, is_name_start, is_name_char};
ghost use Rattle.xml_tokens.specs.readers.ReadResults.{IsSameResult};
ghost use Rattle.xml_tokens.specs.readers.Tokens.{read_name, read_spaces, read_required_spaces};
ghost use Rattle.xml_tokens.specs.readers.Tokens.{read_equals};

use crate::character_classes::{Class, run};
use crate::parse_error::ParseError;
use crate::plain_characters::is_plain_in_name;
use xml_grammar::{empty_str, is_lowercase_next, split_first, strip_char};
use xml_names::{is_name_char, is_name_start, is_space};

/// What follows a fixed letter.
///
/// # Errors
/// The stop of the rule, with the rest of the text there.
#[inline(always)]
pub fn letter(text: &str, expected: char) -> Result<&str, ParseError<'_>>
    ensures reads_rule { IsSameResult (λ rest. (tt, chars rest.now)) result
        (read_word (expected ∷ []) (chars text.now)) }
{
    match split_first(text) {
        Some((found, rest)) => {
            if found != expected {
                return Err(ParseError::Syntax(text));
            }
            Ok(rest)
        }
        None => Err(ParseError::Syntax(text)),
    }
}

/// What follows a fixed ASCII letter.
///
/// # Errors
/// The stop of the rule, with the rest of the text there.
#[inline(always)]
pub fn ascii_letter(text: &str, expected: char) -> Result<&str, ParseError<'_>>
    requires { expected < 128 }
    ensures reads_rule { IsSameResult (λ rest. (tt, chars rest.now)) result
        (read_word (expected ∷ []) (chars text.now)) }
{
    match strip_char(text, expected) {
        Some(rest) => Ok(rest),
        None => Err(ParseError::Syntax(text)),
    }
}

/// What follows a fixed word. Most words are one letter.
///
/// # Errors
/// The stop of the rule, with the rest of the text there.
#[inline(always)]
pub fn word<'a>(text: &'a str, word: &[char]) -> Result<&'a str, ParseError<'a>>
    ensures reads_rule { IsSameResult (λ rest. (tt, chars rest.now)) result
        (read_word word.now (chars text.now)) }
{
    match word {
        [first] => letter(text, *first),
        _ => word_letters(text, word),
    }
}

/// What follows a fixed word of several letters.
fn word_letters<'a>(text: &'a str, word: &[char]) -> Result<&'a str, ParseError<'a>>
    ensures reads_rule { IsSameResult (λ rest. (tt, chars rest.now)) result
        (read_word word.now (chars text.now)) }
{
    let mut rest = text;
    for &expected in word {
        match split_first(rest) {
            Some((found, after)) => {
                if found != expected {
                    return Err(ParseError::Syntax(rest));
                }
                rest = after;
            }
            None => return Err(ParseError::Syntax(rest)),
        }
    }
    Ok(rest)
}

/// Whether a text begins with these bytes. They are compared several at once.
#[inline(always)]
fn begins_with(text: &str, front: &str) -> bool
    ensures front_and_rest { IsTrue result
        → text.now ≡ front.now ++ drop (length front.now) text.now }
{
    text.as_bytes().starts_with(front.as_bytes())
}

/// What follows these bytes, if the text begins with them.
#[inline(always)]
pub fn strip_bytes<'a>(text: &'a str, front: &str) -> Option<&'a str>
    ensures front_and_rest { IfSome result
        (λ rest. chars text.now ≡ chars front.now ++ chars rest.now) }
{
    if !begins_with(text, front) {
        return None;
    }
    Some(&text[front.len()..])
}

/// What follows the characters of a text. Most are there.
#[inline(always)]
pub fn exact_text<'a>(text: &'a str, front: &str) -> Result<&'a str, ParseError<'a>>
    ensures reads_rule { IsSameResult (λ rest. (tt, chars rest.now)) result
        (read_word (chars front.now) (chars text.now)) }
{
    match strip_bytes(text, front) {
        Some(rest) => Ok(rest),
        None => exact_text_by_character(text, front),
    }
}

/// `exact_text`, character by character.
#[inline(never)]
fn exact_text_by_character<'a>(text: &'a str, front: &str) -> Result<&'a str, ParseError<'a>>
    ensures reads_rule { IsSameResult (λ rest. (tt, chars rest.now)) result
        (read_word (chars front.now) (chars text.now)) }
{
    let mut rest = text;
    let mut left = front;
    'each: while let Some((expected, more)) = split_first(left) {
        match split_first(rest) {
            Some((found, after)) => {
                if found != expected {
                    return Err(ParseError::Syntax(rest));
                }
                rest = after;
                left = more;
            }
            None => return Err(ParseError::Syntax(rest)),
        }
    }
    Ok(rest)
}

/// White space at the front, and what follows it.
#[inline(never)]
fn space_run(text: &str) -> (&str, &str)
    ensures front_of_run { chars result.0.now ≡ take_while is_space (chars text.now) }
    ensures rest_after_run { chars result.1.now ≡ drop_while is_space (chars text.now) }
{
    run(text, Class::Space)
}

/// Whether white space is the first of these bytes.
#[inline(always)]
fn starts_with_space(bytes: &[u8]) -> bool
    ensures exact { result ≡ first_char_is is_space bytes.now }
{
    match bytes {
        [first, ..] => is_space(*first as char),
        [] => false,
    }
}

/// Whether white space comes next.
#[inline(always)]
pub fn is_space_next(text: &str) -> bool
    ensures exact { result ≡ first_char_is is_space (chars text.now) }
{
    starts_with_space(text.as_bytes())
}

/// Optional white space, and what follows it. Most often there is none.
#[inline(always)]
pub fn spaces(text: &str) -> (&str, &str)
    ensures reads_rule { read_spaces (chars text.now)
        ≡ Ok (chars result.0.now, chars result.1.now) }
    ensures rest_after_run { chars result.1.now ≡ drop_while is_space (chars text.now) }
{
    if !is_space_next(text) {
        return (empty_str(), text);
    }
    space_run(text)
}

/// Whether a character may occur in a name. Most are ASCII.
#[inline(always)]
pub fn is_char_of_name(c: char) -> bool
    ensures exact { result ≡ is_name_char c }
{
    if c <= '\u{7F}' {
        return is_plain_in_name(c);
    }
    is_name_char(c)
}

/// A name, and what follows it.
///
/// # Errors
/// The stop of the rule, with the rest of the text there.
#[inline(always)]
pub fn name(text: &str) -> Result<(&str, &str), ParseError<'_>>
    ensures reads_rule { IsSameResult (λ x. (chars x.0.now, chars x.1.now)) result
        (read_name (chars text.now)) }
    ensures nonempty_name { IfOk result (λ x. 0 < length (chars x.0.now)) }
    ensures front_of_text { IfOk result (λ x. x.0.now ≡ take (length x.0.now) text.now) }
{
    if !starts_with_name(text) {
        return Err(ParseError::Syntax(text));
    }
    Ok(run(text, Class::Name))
}

/// Required white space, and what follows it.
///
/// # Errors
/// The stop of the rule, with the rest of the text there.
#[inline(always)]
pub fn required_spaces(text: &str) -> Result<(&str, &str), ParseError<'_>>
    ensures reads_rule { IsSameResult (λ x. (chars x.0.now, chars x.1.now)) result
        (read_required_spaces (chars text.now)) }
    ensures all_space { IfOk result (λ x. list_all is_space (chars x.0.now) ≡ true) }
{
    if !is_space_next(text) {
        return Err(ParseError::Syntax(text));
    }
    Ok(run(text, Class::Space))
}

/// Whether a text begins with the first character of a name. Most often it is a lower-case
/// letter.
#[inline(always)]
pub fn starts_with_name(text: &str) -> bool
    ensures exact { result ≡ first_char_is is_name_start (chars text.now) }
{
    if is_lowercase_next(text) {
        return true;
    }
    starts_with_any_name(text)
}

/// `starts_with_name` for any character.
#[inline(never)]
fn starts_with_any_name(text: &str) -> bool
    ensures exact { result ≡ first_char_is is_name_start (chars text.now) }
{
    match split_first(text) {
        Some((first, _)) => is_name_start(first),
        None => false,
    }
}

/// `=` with optional white space around it: the white space after it, and what follows.
///
/// # Errors
/// The stop of the rule, with the rest of the text there.
#[inline(always)]
pub fn equals(text: &str) -> Result<(&str, &str), ParseError<'_>>
    ensures reads_rule { IsSameResult (λ x. (chars x.0.now, chars x.1.now)) result
        (read_equals (chars text.now)) }
{
    let (_, rest) = spaces(text);
    let rest = ascii_letter(rest, '=')?;
    Ok(spaces(rest))
}
