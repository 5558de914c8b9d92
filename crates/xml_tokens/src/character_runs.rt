//! Runs of characters: raw ones in content, and characters up to a word that ends them.
ghost use Rattle.std.specs.Prelude.{◌≡◌, ◌==◌, ◌++◌, true, false, [], ◌∷◌, chars, drop, OnOk, IfOk};
ghost use Rattle.std.specs.Prelude.{IfSome, IfNone, IsTrue, Ok};
ghost use Rattle.xml_grammar.specs.TextReading.{starts_with_word};
ghost use Rattle.xml_grammar.specs.readers.RuleReaders.{drop_while_without, read_up_to};
ghost use Rattle.xml_names.specs.Characters.{is_char};
ghost use Rattle.xml_tokens.specs.readers.ReadResults.{IsSameResult};
ghost use Rattle.xml_tokens.specs.Tokens.{is_raw_char};
ghost use Rattle.xml_tokens.specs.Values.{normalized_line_char, normalize_line_ends};
ghost use Rattle.xml_tokens.specs.Values.{equals_ignoring_case};
ghost use Rattle.xml_tokens.specs.readers.Tokens.{read_raw_run};
ghost use Rattle.std.specs.List.{list_all, cons_option};
ghost use Rattle.xml_tokens.specs.readers.CharacterRuns.{is_not_return, is_usual_content_char};
ghost use Rattle.xml_tokens.specs.readers.Literals.{cdata_end};

use crate::attribute_values::{is_raw_char, normalized_line_char};
use crate::parse_error::ParseError;
use std::alloc::{AllocError, Global};
use xml_grammar::{split_first, text_before};
use xml_names::{Text, is_char};

/// What follows a word, if the text begins with it.
#[inline(always)]
pub fn strip_word<'a>(text: &'a str, word: &[char]) -> Option<&'a str>
    ensures word_and_rest { IfSome result (λ rest. chars text.now ≡ word.now ++ chars rest.now) }
    ensures none_no_word { IfNone result (starts_with_word word.now (chars text.now) ≡ false) }
{
    let mut rest = text;
    for &expected in word {
        match split_first(rest) {
            Some((found, after)) => {
                if found != expected {
                    return None;
                }
                rest = after;
            }
            None => return None,
        }
    }
    Some(rest)
}

/// Whether a text begins with a word.
#[inline(always)]
pub fn starts_with_word(text: &str, word: &[char]) -> bool
    ensures exact { result ≡ starts_with_word word.now (chars text.now) }
{
    match strip_word(text, word) {
        Some(_) => true,
        None => false,
    }
}

/// Whether these are the letters of a word, in lower or upper case.
#[tactic(auto, using(crate::proofs::WordLoops::letters_over, crate::proofs::WordLoops::letters_left))]
pub fn equals_ignoring_case(text: &str, word: &[char]) -> bool
    ensures exact { result ≡ equals_ignoring_case (chars text.now) word.now }
{
    let mut rest = text;
    for &expected in word {
        match split_first(rest) {
            Some((found, after)) => {
                let lower = found.to_ascii_lowercase();
                if lower != expected {
                    return false;
                }
                rest = after;
            }
            None => return false,
        }
    }
    match split_first(rest) {
        Some(_) => false,
        None => true,
    }
}

/// The rest of a text from the `>` on, if the text begins with `]]>`.
fn strip_cdata_end(text: &str) -> Option<&str>
    ensures section_ends_here { IfSome result
        (λ _. starts_with_word cdata_end (chars text.now) ≡ true) }
    ensures rest_after_end { IfSome result (λ rest. chars rest.now ≡ drop 2 (chars text.now)) }
    ensures none_no_end { IfNone result (starts_with_word cdata_end (chars text.now) ≡ false) }
{
    match strip_word(text, &[']', ']']) {
        Some(rest) => {
            if !starts_with_word(rest, &['>']) {
                return None;
            }
            Some(rest)
        }
        None => None,
    }
}

/// Whether a character is above `]` and below the surrogates, or is a space or a line end.
fn is_usual_content_char(c: char) -> bool
    ensures exact { result ≡ is_usual_content_char c }
{
    matches!(c, '^'..='\u{D7FF}') || c == ' ' || c == '\n'
}

/// Whether a character is raw in content whatever surrounds it. Most characters are.
fn is_always_raw_char(c: char) -> bool
    ensures inner_is_raw { IsTrue result → IsTrue (is_raw_char c) }
    ensures no_end { IsTrue result → (93 == c) ≡ false }
{
    is_usual_content_char(c)
}

/// What follows the raw characters of content, if they end before this first character of a text
/// or at the `>` that would end `]]>`.
#[inline(always)]
fn skip_at_raw_end<'a>(text: &'a str, first: char, after: &str) -> Option<&'a str>
    requires { chars text.now ≡ first ∷ chars after.now }
    ensures some_raw_ends { IfSome result
        (λ rest. chars rest.now ≡ drop_while_without is_raw_char cdata_end (chars text.now)) }
    ensures none_raw_continues { IfNone result
        (drop_while_without is_raw_char cdata_end (chars text.now)
        ≡ drop_while_without is_raw_char cdata_end (chars after.now)) }
{
    if is_always_raw_char(first) {
        return None;
    }
    if let Some(rest) = strip_cdata_end(text) {
        return Some(rest);
    }
    if !is_raw_char(first) {
        return Some(text);
    }
    None
}

/// What follows the raw characters of content at the front: a `>` that would end `]]>`, or a
/// character that isn't raw.
#[inline(never)]
fn skip_raw(text: &str) -> &str
    ensures exact { chars result.now ≡ drop_while_without is_raw_char cdata_end (chars text.now) }
{
    let mut rest = text;
    'each: while let Some((c, after)) = split_first(rest) {
        match skip_at_raw_end(rest, c, after) {
            Some(end) => return end,
            None => rest = after,
        }
    }
    rest
}

/// Raw characters of content, possibly none, and what follows them.
pub fn content_run(text: &str) -> (&str, &str)
    ensures reads_rule { read_raw_run (chars text.now)
        ≡ Ok (chars result.0.now, chars result.1.now) }
{
    let rest = skip_raw(text);
    (text_before(text, rest), rest)
}

/// The Chars up to the first occurrence of a word, and what follows the word.
///
/// # Errors
/// The stop of the rule, with the rest of the text there.
#[inline(always)]
pub fn up_to<'a>(text: &'a str, end: &[char]) -> Result<(&'a str, &'a str), ParseError<'a>>
    ensures reads_rule { IsSameResult (λ x. (chars x.0.now, chars x.1.now)) result
        (read_up_to is_char end.now (chars text.now)) }
{
    let mut rest = text;
    'each: while let Some((c, after)) = split_first(rest) {
        if let Some(rest_after) = strip_word(rest, end) {
            return Ok((text_before(text, rest), rest_after));
        }
        if !is_char(c) {
            return Err(ParseError::Syntax(rest));
        }
        rest = after;
    }
    Err(ParseError::Syntax(rest))
}

/// Appends a raw character of content, as read before `after`.
fn push_char(text: &mut Text, c: char, after: &str) -> Result<(), AllocError>
    ensures appended { OnOk result
        (text.new ≡ text.old ++ cons_option (normalized_line_char c (chars after.now)) []) }
{
    match normalized_line_char(c, after) {
        Some(c) => text.push(c),
        None => Ok(()),
    }
}

fn is_free_of_returns(bytes: &[u8]) -> bool
    ensures exact { result ≡ list_all is_not_return bytes.now }
{
    bytes.iter().all(|&byte| byte != b'\r')
}

/// Whether a run has no CR, so that it is read as it is.
fn has_no_return(run: &str) -> bool
    ensures exact { result ≡ list_all is_not_return (chars run.now) }
{
    is_free_of_returns(run.as_bytes())
}

/// The text that a run is read as, with LF for each line end.
///
/// # Errors
/// `AllocError` when out of memory.
pub fn normalize_lines(alloc: Global, run: &str) -> Result<Text, AllocError>
    ensures ok { IfOk result (λ text. text ≡ normalize_line_ends (chars run.now)) }
{
    if has_no_return(run) {
        return Text::from(alloc, run);
    }
    normalize_lines_by_character(alloc, run)
}

/// `normalize_lines`, character by character.
fn normalize_lines_by_character(alloc: Global, run: &str) -> Result<Text, AllocError>
    ensures ok { IfOk result (λ text. text ≡ normalize_line_ends (chars run.now)) }
{
    let mut text = Text::with_capacity(alloc, run.len())?;
    let mut rest = run;
    'each: while let Some((c, after)) = split_first(rest) {
        push_char(&mut text, c, after)?;
        rest = after;
    }
    Ok(text)
}
