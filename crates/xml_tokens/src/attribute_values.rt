//! References, and values between quotes.
ghost use Rattle.std.specs.Prelude.{◌≡◌, ◌≤◌, ◌<◌, ◌++◌, ◌&&◌, true, false, [], ◌∷◌, chars};
ghost use Rattle.std.specs.Prelude.{MatchOption, IfOk, OnOk, Ok, option_map};
ghost use Rattle.xml_grammar.specs.TextReading.{read_one_char, read_mapped};
ghost use Rattle.xml_grammar.specs.readers.RuleReaders.{number_end, read_number, read_many};
ghost use Rattle.xml_names.specs.Characters.{is_char};
ghost use Rattle.xml_tokens.specs.readers.ReadResults.{IsSameResult};
ghost use Rattle.std.specs.List.{list_all, cons_option};
ghost use Rattle.xml_tokens.specs.readers.CharacterRuns.{is_frequent_raw_char, is_not_control};
ghost use Rattle.xml_tokens.specs.readers.CharacterRuns.{ends_run};
ghost use Rattle.xml_tokens.specs.Values.{normalized_line_char, normalized_space, normalized_raw};
ghost use Rattle.xml_tokens.specs.readers.ValueParts.{read_normalized_raw, read_reference_piece};
ghost use Rattle.xml_tokens.specs.readers.ValueParts.{value_with};
ghost use Rattle.xml_tokens.specs.readers.TokenViews.{digits_of};
ghost use Rattle.xml_tokens.specs.Tokens.{max_char, is_quote, is_raw_char, is_raw_value_char};
ghost use Rattle.xml_tokens.specs.readers.Tokens.{read_predefined_entity, read_entity};
ghost use Rattle.xml_tokens.specs.readers.Tokens.{read_char_ref};
ghost use Rattle.xml_tokens.specs.readers.Tokens.{read_reference_body, read_reference};
ghost use Rattle.xml_tokens.specs.readers.Tokens.{read_raw_value};
ghost use Rattle.xml_tokens.specs.readers.Tokens.{reference_follows, read_value};

use crate::character_classes::{Class, run};
use crate::character_runs::starts_with_word;
use crate::parse_error::ParseError;
use crate::tokens::{letter, word};
use std::alloc::{AllocError, Global};
use xml_grammar::{split_first, starts_with_char};
use xml_names::{Text, is_char};

/// The value of a digit, hexadecimal or decimal.
fn digit(c: char, hexadecimal: bool) -> Option<u32>
    ensures exact { MatchOption result ((digits_of hexadecimal).is_digit c ≡ false)
        (λ d. ((digits_of hexadecimal).is_digit c ≡ true) × (d ≡ (digits_of hexadecimal).value c)
        × (d < 16)) }
{
    match c {
        '0'..='9' => Some(c as u32 - 48),
        'A'..='F' if hexadecimal => Some(c as u32 - 55),
        'a'..='f' if hexadecimal => Some(c as u32 - 87),
        _ => None,
    }
}

fn base(hexadecimal: bool) -> u32
    ensures exact { result ≡ (digits_of hexadecimal).base }
    ensures is_small { result ≤ 16 }
{
    if hexadecimal { 16 } else { 10 }
}

/// The Char with this number, if there is one and there were digits, and what follows them.
fn number_end(value: u32, any: bool, rest: &str) -> Result<(char, &str), ParseError<'_>>
    ensures reads_rule { IsSameResult (λ x. (x.0, chars x.1.now)) result
        (number_end is_char value any (chars rest.now)) }
{
    match char::from_u32(value) {
        Some(c) if any && is_char(c) => Ok((c, rest)),
        _ => Err(ParseError::Syntax(rest)),
    }
}

/// The Char whose number is written here, and what follows it.
fn number(text: &str, hexadecimal: bool) -> Result<(char, &str), ParseError<'_>>
    ensures reads_rule { IsSameResult (λ x. (x.0, chars x.1.now)) result
        (read_number (digits_of hexadecimal) max_char is_char (chars text.now)) }
{
    let base = base(hexadecimal);
    let mut value = 0u32;
    let mut any = false;
    let mut rest = text;
    'each: while let Some((c, after)) = split_first(rest) {
        let Some(digit) = digit(c, hexadecimal) else {
            return number_end(value, any, rest);
        };
        if value * base + digit > 0x10FFFF {
            return Err(ParseError::Syntax(rest));
        }
        value = value * base + digit;
        any = true;
        rest = after;
    }
    number_end(value, any, rest)
}

/// `#` and a number.
fn numeric_reference(text: &str) -> Result<(char, &str), ParseError<'_>>
    ensures reads_rule { IsSameResult (λ x. (x.0, chars x.1.now)) result
        (read_char_ref (chars text.now)) }
{
    let rest = letter(text, '#')?;
    if starts_with_char(rest, 'x') {
        let rest = letter(rest, 'x')?;
        return number(rest, true);
    }
    number(rest, false)
}

/// The name of an entity, which is read as this character.
fn predefined_entity<'a>(
    c: char,
    text: &'a str,
    name: &[char],
) -> Result<(char, &'a str), ParseError<'a>>
    ensures reads_rule { IsSameResult (λ x. (x.0, chars x.1.now)) result
        (read_predefined_entity c name.now (chars text.now)) }
{
    let rest = word(text, name)?;
    Ok((c, rest))
}

/// The character of an entity, and what follows its name.
fn entity(text: &str) -> Result<(char, &str), ParseError<'_>>
    ensures reads_rule { IsSameResult (λ x. (x.0, chars x.1.now)) result
        (read_entity (chars text.now)) }
{
    if starts_with_char(text, 'l') {
        return predefined_entity('<', text, &['l', 't']);
    }
    if starts_with_char(text, 'g') {
        return predefined_entity('>', text, &['g', 't']);
    }
    if starts_with_char(text, 'q') {
        return predefined_entity('"', text, &['q', 'u', 'o', 't']);
    }
    if starts_with_word(text, &['a', 'p']) {
        return predefined_entity('\'', text, &['a', 'p', 'o', 's']);
    }
    predefined_entity('&', text, &['a', 'm', 'p'])
}

/// A number or the name of an entity.
fn reference_body(text: &str) -> Result<(char, &str), ParseError<'_>>
    ensures reads_rule { IsSameResult (λ x. (x.0, chars x.1.now)) result
        (read_reference_body (chars text.now)) }
{
    if starts_with_char(text, '#') {
        return numeric_reference(text);
    }
    entity(text)
}

/// The character of a reference, and what follows it.
///
/// # Errors
/// The stop of the rule, with the rest of the text there.
pub fn reference(text: &str) -> Result<(char, &str), ParseError<'_>>
    ensures reads_rule { IsSameResult (λ x. (x.0, chars x.1.now)) result
        (read_reference (chars text.now)) }
{
    let rest = letter(text, '&')?;
    let (c, rest) = reference_body(rest)?;
    Ok((c, letter(rest, ';')?))
}

/// Whether a character is a quote.
pub fn is_quote(c: char) -> bool
    ensures exact { result ≡ is_quote c }
{
    matches!(c, '"' | '\'')
}

/// A quote, and what follows it.
///
/// # Errors
/// The stop of the rule, with the rest of the text there.
pub fn quote(text: &str) -> Result<(char, &str), ParseError<'_>>
    ensures reads_rule { IsSameResult (λ x. (x.0, chars x.1.now)) result
        (read_one_char is_quote (chars text.now)) }
{
    match split_first(text) {
        Some((quote, rest)) => {
            if !is_quote(quote) {
                return Err(ParseError::Syntax(text));
            }
            Ok((quote, rest))
        }
        None => Err(ParseError::Syntax(text)),
    }
}

/// Whether a character is above `&` and below the surrogates, and is no `<`. Most characters of
/// values are.
fn is_frequent_raw_char(c: char) -> bool
    ensures exact { result ≡ is_frequent_raw_char c }
{
    c != '<' && matches!(c, '\''..='\u{D7FF}')
}

/// Whether a character is raw in content.
pub fn is_raw_char(c: char) -> bool
    ensures exact { result ≡ is_raw_char c }
{
    if is_frequent_raw_char(c) {
        return true;
    }
    is_char(c) && c != '<' && c != '&'
}

/// Whether a character is raw in a value between these quotes.
#[inline(always)]
pub fn is_raw_value_char(c: char, quote: char) -> bool
    ensures exact { result ≡ is_raw_value_char quote c }
{
    is_raw_char(c) && c != quote
}

/// The raw characters of a value between these quotes, and what follows them.
pub fn raw_run(text: &str, quote: char) -> (&str, &str)
    ensures reads_rule { read_raw_value quote (chars text.now)
        ≡ Ok (chars result.0.now, chars result.1.now) }
{
    run(text, Class::RawIn(quote))
}

/// How a character is read before `after`: a CR before a LF as nothing.
pub fn normalized_line_char(c: char, after: &str) -> Option<char>
    ensures exact { result ≡ normalized_line_char c (chars after.now) }
{
    match c {
        '\r' => {
            if starts_with_char(after, '\n') {
                return None;
            }
            Some('\n')
        }
        _ => Some(c),
    }
}

/// How a raw character is read in a value.
fn normalized_space(c: char) -> char
    ensures exact { result ≡ normalized_space c }
{
    match c {
        '\t' | '\n' => ' ',
        _ => c,
    }
}

/// Appends a raw character of a value, as read before `after`.
fn push_raw_char(value: &mut Text, c: char, after: &str) -> Result<(), AllocError>
    ensures appended { OnOk result
        (value.new ≡ value.old ++ cons_option
        (option_map normalized_space (normalized_line_char c (chars after.now))) []) }
{
    match normalized_line_char(c, after) {
        Some(c) => value.push(normalized_space(c)),
        None => Ok(()),
    }
}

/// Whether no byte is below the space.
fn is_free_of_controls(bytes: &[u8]) -> bool
    ensures exact { result ≡ list_all is_not_control bytes.now }
{
    bytes.iter().all(|&byte| byte >= b' ')
}

/// Whether no raw character of a value is a tab or a line end, so that all are read as they are.
fn has_no_controls(run: &str) -> bool
    ensures exact { result ≡ list_all is_not_control (chars run.now) }
{
    is_free_of_controls(run.as_bytes())
}

/// Appends raw characters of a value, as read.
///
/// # Errors
/// `AllocError` when out of memory.
pub fn push_raw(value: &mut Text, run: &str) -> Result<(), AllocError>
    ensures appended { OnOk result (value.new ≡ value.old ++ normalized_raw (chars run.now)) }
{
    if has_no_controls(run) {
        return value.push_str(run);
    }
    push_normalized_spaces(value, run)
}

/// `push_raw`, character by character.
fn push_normalized_spaces(value: &mut Text, run: &str) -> Result<(), AllocError>
    ensures appended { OnOk result (value.new ≡ value.old ++ normalized_raw (chars run.now)) }
{
    let mut rest = run;
    'each: while let Some((c, after)) = split_first(rest) {
        push_raw_char(value, c, after)?;
        rest = after;
    }
    Ok(())
}

/// The text that raw characters of a value are read as.
fn normalized_raw_text(alloc: Global, run: &str) -> Result<Text, AllocError>
    ensures ok { IfOk result (λ text. text ≡ normalized_raw (chars run.now)) }
{
    let mut text = Text::with_capacity(alloc, run.len())?;
    push_raw(&mut text, run)?;
    Ok(text)
}

/// Whether a reference follows.
pub fn reference_follows(text: &str) -> bool
    ensures exact { result ≡ reference_follows (chars text.now) }
{
    starts_with_char(text, '&')
}

/// Appends a character from a reference, and the raw characters after it.
///
/// # Errors
/// `AllocError` when out of memory.
pub fn push_reference_piece(value: &mut Text, c: char, run: &str) -> Result<(), AllocError>
    ensures appended { OnOk result (value.new ≡ value.old ++ (c ∷ normalized_raw (chars run.now))) }
{
    value.push(c)?;
    push_raw(value, run)
}

/// Whether this character or a `&` follows, which ends a run: `<` ends a run of content, the
/// quote a run in a value.
pub fn ends_run(text: &str, end: char) -> bool
    ensures exact { result ≡ ends_run end (chars text.now) }
{
    match split_first(text) {
        Some((first, _)) => first == end || first == '&',
        None => false,
    }
}

/// Whether there is a quote, and this quote or a `&` follows, which ends a plain run.
#[inline(always)]
fn ends_plain_value(text: &str, quote: char) -> bool
    ensures exact { result ≡ (is_quote quote && ends_run quote (chars text.now)) }
{
    if !is_quote(quote) {
        return false;
    }
    ends_run(text, quote)
}

/// The value of a run of raw characters, and what follows them. Most runs are plain, and are
/// copied as they are.
fn value_of_run(alloc: Global, text: &str, quote: char) -> Result<(Text, &str), AllocError>
    ensures reads_rule { IfOk result
        (λ x. read_normalized_raw quote (chars text.now) ≡ Ok (x.0, chars x.1.now)) }
{
    let (plain, rest) = run(text, Class::PlainValue);
    if ends_plain_value(rest, quote) {
        let value = Text::from_front(alloc, plain, text.as_bytes())?;
        return Ok((value, rest));
    }
    let (run, rest) = raw_run(text, quote);
    Ok((normalized_raw_text(alloc, run)?, rest))
}

/// Appends the references that follow to a value, each with the raw characters after it, and
/// returns what follows them.
#[inline(never)]
fn push_references<'a>(
    value: &mut Text,
    text: &'a str,
    quote: char,
) -> Result<&'a str, ParseError<'a>>
    ensures reads_onto { IsSameResult (λ rest. (value.new, chars rest.now)) result
        (read_mapped (value_with value.old)
        (read_many reference_follows (read_reference_piece quote))
        (chars text.now)) }
{
    let mut rest = text;
    for _ in 0..text.len() {
        if !reference_follows(rest) {
            break;
        }
        let (c, after) = reference(rest)?;
        let (more, after) = raw_run(after, quote);
        push_reference_piece(value, c, more)?;
        rest = after;
    }
    Ok(rest)
}

/// A value up to its quote, and what follows it. Most values have no references.
///
/// # Errors
/// The stop of the rule, with the rest of the text there; `Memory` when out of memory.
pub fn value(alloc: Global, text: &str, quote: char) -> Result<(Text, &str), ParseError<'_>>
    ensures reads_rule { IsSameResult (λ x. (x.0, chars x.1.now)) result
        (read_value quote (chars text.now)) }
{
    let (mut value, rest) = value_of_run(alloc, text, quote)?;
    if !reference_follows(rest) {
        return Ok((value, rest));
    }
    let rest = push_references(&mut value, rest, quote)?;
    Ok((value, rest))
}
