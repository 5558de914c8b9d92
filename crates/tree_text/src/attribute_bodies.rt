//! Bodies that spell the value of an attribute (application/xcap-att+xml; RFC 4825, section
//! 15.2.2).
ghost use Rattle.std.specs.Prelude.{◌≡◌, option_map, IfOk, IsTrue, Ok};
ghost use Rattle.std.specs.Str.{chars};
ghost use Rattle.xml_grammar.specs.readers.RuleReaders.{read_whole_text};
ghost use Rattle.xml_names.specs.Characters.{has_only_chars};
ghost use Rattle.tree_text.specs.Faults.{IsBodyResult, front_before_one_char, strip_quotes};
ghost use Rattle.tree_text.specs.Faults.{unquoted_body};
ghost use Rattle.tree_text.specs.Faults.{closing_quote_len};
ghost use Rattle.xml_tokens.specs.readers.ReadResults.{IsSameResult, IsSameWholeResult};
ghost use Rattle.xml_tokens.specs.Tokens.{is_quote};
ghost use Rattle.xml_names.specs.ReadErrors.{ResultSatisfies};
ghost use Rattle.tree_text.specs.readers.Texts.{read_unquoted_value, read_raw_chars};
ghost use Rattle.tree_text.specs.readers.Texts.{read_whole_reference};
ghost use Rattle.tree_text.specs.readers.WholeTexts.{IsBodyErrorOfStop, read_body_text};

use crate::fault::ValueFault;
use std::alloc::Global;
use xml_grammar::{is_at_end, split_first};
use xml_names::{ReadError, Text};
use xml_tokens::{
    Class, ParseError, empty_text, is_quote, push_raw, push_reference_piece, reference,
    reference_follows, rest_offset, run,
};

/// A reference, read whole or not at all, and what follows it.
fn whole_reference(text: &str) -> Result<(char, &str), ParseError<'_>>
    ensures reads_rule { IsSameResult (λ x. (x.0, chars x.1.now)) result
        (read_whole_reference (chars text.now)) }
{
    match reference(text) {
        Ok(read) => Ok(read),
        Err(ParseError::Syntax(_)) => Err(ParseError::Syntax(text)),
        Err(ParseError::Faulty(_, _)) => Err(ParseError::Syntax(text)),
        Err(ParseError::Memory) => Err(ParseError::Memory),
    }
}

/// Raw characters, possibly none, and what follows them.
fn raw_chars(text: &str) -> (&str, &str)
    ensures reads_rule { read_raw_chars (chars text.now)
        ≡ Ok (chars result.0.now, chars result.1.now) }
{
    run(text, Class::Raw)
}

/// The value that a spelling spells, and what follows it.
fn read_body_value(alloc: Global, text: &str) -> Result<(Text, &str), ParseError<'_>>
    ensures reads_rule { IsSameResult (λ x. (x.0, chars x.1.now)) result
        (read_unquoted_value (chars text.now)) }
{
    let mut value = empty_text(alloc);
    let (first, start) = raw_chars(text);
    push_raw(&mut value, first)?;
    let mut rest = start;
    for _ in 0..start.len() {
        if !reference_follows(rest) {
            break;
        }
        let (c, after) = whole_reference(rest)?;
        let (more, after) = raw_chars(after);
        push_reference_piece(&mut value, c, more)?;
        rest = after;
    }
    Ok((value, rest))
}

/// The value that all of a spelling spells.
fn whole_unquoted_value(alloc: Global, text: &str) -> Result<Text, ParseError<'_>>
    ensures grammar_answer { IsSameWholeResult result
        (read_whole_text read_unquoted_value (chars text.now)) }
{
    let (value, rest) = read_body_value(alloc, text)?;
    if !is_at_end(rest) {
        return Err(ParseError::Syntax(rest));
    }
    Ok(value)
}

/// The first of two parts of a text, if the second is exactly one character.
fn front_before_one_char<'a>(front: &'a str, last: &str) -> Option<&'a str>
    ensures exact { option_map (λ x. chars x.now) result
        ≡ front_before_one_char (chars front.now) (chars last.now) }
{
    match split_first(last) {
        Some((_, more)) => match split_first(more) {
            Some(_) => None,
            None => Some(front),
        },
        None => None,
    }
}

/// The inside of a body between two quotes of one kind.
fn strip_quotes(body: &str) -> Option<&str>
    ensures exact { option_map (λ inside. chars inside.now) result ≡ strip_quotes (chars body.now) }
{
    match split_first(body) {
        Some((quote, rest)) => {
            if !is_quote(quote) {
                return None;
            }
            let (inside, after) = run(rest, Class::Other(quote));
            front_before_one_char(inside, after)
        }
        None => None,
    }
}

/// The part of a body that spells its value, and how many bytes follow it.
fn unquoted_body(body: &str) -> (&str, usize)
    ensures spelled_part { chars result.0.now ≡ unquoted_body (chars body.now) }
    ensures closing_length { result.1 ≡ closing_quote_len (strip_quotes (chars body.now)) }
{
    match strip_quotes(body) {
        Some(inside) => (inside, 1),
        None => (body, 0),
    }
}

/// The error for a stop in a body of these bytes, whose spelling is followed by `tail` bytes.
fn error(bytes: &[u8], stop: ParseError<'_>, tail: usize) -> ReadError<ValueFault>
    ensures body_fault { IsBodyErrorOfStop bytes.now tail stop.entry result }
{
    match stop {
        ParseError::Syntax(rest) => {
            ReadError::Fault(ValueFault::NotValue(rest_offset(bytes, rest).saturating_sub(tail)))
        }
        ParseError::Faulty(_, rest) => {
            ReadError::Fault(ValueFault::NotValue(rest_offset(bytes, rest).saturating_sub(tail)))
        }
        ParseError::Memory => ReadError::NoMemory,
    }
}

/// The value that the bytes of an attribute body spell: the value of an attribute, with or
/// without its quotes.
///
/// # Errors
/// `NotUtf8` where the bytes aren't UTF-8; else `NotValue` at the first `<`, `&` that begins no
/// reference, or character that isn't a Char; `NoMemory` when out of memory.
pub fn read_att_value(alloc: Global, bytes: &[u8]) -> Result<Text, ReadError<ValueFault>>
    ensures grammar_answer { ResultSatisfies (IsBodyResult bytes.now) result }
    ensures allowed_chars { IfOk result (λ value. IsTrue (has_only_chars value)) }
{
    read_body(alloc, bytes)
}

/// The value that the bytes of a body spell.
fn read_body(alloc: Global, bytes: &[u8]) -> Result<Text, ReadError<ValueFault>>
    ensures grammar_answer { ResultSatisfies (λ answer. answer ≡ read_body_text bytes.now) result }
{
    let Ok(text) = str::from_utf8(bytes) else {
        return Err(ReadError::Fault(ValueFault::NotUtf8));
    };
    let (part, tail) = unquoted_body(text);
    match whole_unquoted_value(alloc, part) {
        Ok(value) => Ok(value),
        Err(stop) => Err(error(bytes, stop, tail)),
    }
}
