//! Queries of addresses (RFC 4825, section 6.4): sequences of `xmlns()` parts, which bind
//! prefixes.
ghost use Rattle.std.specs.Prelude.{◌≡◌, ◌<◌, ◌+◌, ◌^◌, ◌∷◌, length, option_map};
ghost use Rattle.std.specs.Str.{bytes_eq};
ghost use Rattle.xml_grammar.specs.TextReading.{drop_while, first_char_is};
ghost use Rattle.xml_names.specs.Characters.{is_name_char, is_name_start, is_space};
ghost use Rattle.xml_tokens.specs.readers.CharacterRuns.{run_len};
ghost use Rattle.xcap_uri.specs.Delimiters.{rest_after_front};
ghost use Rattle.xcap_uri.specs.inner.Results.{GivesStated, IsStatedOr};
ghost use Rattle.xcap_uri.specs.Queries.{is_blank, is_bracket_or_caret};
ghost use Rattle.xcap_uri.specs.readers.Queries.{parsed_bindings, after_equals, is_reserved};
ghost use Rattle.xcap_uri.specs.readers.Queries.{parsed_item, parsed_optional_bindings};
ghost use Rattle.xcap_uri.specs.readers.Queries.{parsed_prefix};
ghost use Rattle.xcap_uri.specs.readers.Queries.{parsed_free_prefix, parse_uri_chars, parsed_uri};
ghost use Rattle.xcap_uri.specs.readers.UriSteps.{IsShorter, StepsTo, item_view};

use crate::fault::UriFault;
use node_select::Bindings;
use std::alloc::Global;
use xml_names::{ReadError, Text, is_name_char, is_name_start, is_space};
use xml_tokens::{chars_of_text, empty_text, text_of};

// The next step in the URI of an item.
enum UriStep<'a> {
    // The end, and what comes after the item.
    Ends(&'a [char]),
    // A character, how many `(` are open then, and what comes after it.
    Goes(char, usize, &'a [char]),
    // Nothing that is allowed there.
    Breaks,
}

// A binding, and what comes after it.
#[derive(Drop)]
struct Item<'a> {
    prefix: Text,
    uri: Text,
    rest: &'a [char],
}

// The number of leading white space characters.
#[tactic(auto, using(xml_tokens::proofs::RunLemmas::run_more, xml_tokens::proofs::RunLemmas::run_done))]
fn space_len(text: &[char]) -> usize
    ensures exact { result ≡ run_len is_space text.now }
{
    let mut len = 0;
    for &c in text {
        if !is_space(c) {
            return len;
        }
        len += 1;
    }
    len
}

// The number of leading spaces.
#[tactic(auto, using(xml_tokens::proofs::RunLemmas::run_more, xml_tokens::proofs::RunLemmas::run_done))]
fn blank_len(text: &[char]) -> usize
    ensures exact { result ≡ run_len is_blank text.now }
{
    let mut len = 0;
    for &c in text {
        if c != ' ' {
            return len;
        }
        len += 1;
    }
    len
}

// The number of leading name characters.
#[tactic(auto, using(xml_tokens::proofs::RunLemmas::run_more, xml_tokens::proofs::RunLemmas::run_done))]
fn name_len(text: &[char]) -> usize
    ensures exact { result ≡ run_len is_name_char text.now }
{
    let mut len = 0;
    for &c in text {
        if !is_name_char(c) {
            return len;
        }
        len += 1;
    }
    len
}

// The text after leading white space.
fn skip_space(text: &[char]) -> &[char]
    ensures exact { result.now ≡ drop_while is_space text.now }
{
    text.split_at(space_len(text)).1
}

// The text after leading spaces.
fn skip_blanks(text: &[char]) -> &[char]
    ensures exact { result.now ≡ drop_while is_blank text.now }
{
    text.split_at(blank_len(text)).1
}

// The text after `word`, if it begins with it.
fn strip_front<'a>(text: &'a [char], word: &[char]) -> Option<&'a [char]>
    ensures exact { option_map (λ x. x.now) result ≡ rest_after_front word.now text.now }
{
    let mut rest = text;
    for &expected in word {
        match rest {
            [found, tail @ ..] if *found == expected => rest = tail,
            _ => return None,
        }
    }
    Some(rest)
}

// The text after `=` and the white space around it.
fn skip_equals(text: &[char]) -> Result<&[char], ReadError<UriFault>>
    ensures reads_rule { GivesStated (λ x. x.now) result (after_equals text.now) }
{
    match strip_front(skip_space(text), &['=']) {
        None => Err(ReadError::Fault(UriFault::BadQuery)),
        Some(rest) => Ok(skip_space(rest)),
    }
}

// Whether the text begins with a name.
fn begins_with_name(text: &[char]) -> bool
    ensures exact { result ≡ first_char_is is_name_start text.now }
{
    match text {
        [] => false,
        [c, ..] => is_name_start(*c),
    }
}

// A name, and what comes after it.
fn parse_name(text: &[char]) -> Result<(&[char], &[char]), ReadError<UriFault>>
    ensures reads_rule { GivesStated (λ x. (x.0.now, x.1.now)) result (parsed_prefix text.now) }
{
    if !begins_with_name(text) {
        return Err(ReadError::Fault(UriFault::BadQuery));
    }
    Ok(text.split_at(name_len(text)))
}

// Whether the text is this word.
fn is_word(text: &[char], word: &[char]) -> bool
    ensures exact { result ≡ bytes_eq text.now word.now }
{
    text == word
}

// Whether an item may not bind this prefix.
fn is_reserved(prefix: &[char]) -> bool
    ensures exact { result ≡ is_reserved prefix.now }
{
    if is_word(prefix, &['x', 'm', 'l']) {
        return true;
    }
    is_word(prefix, &['x', 'm', 'l', 'n', 's'])
}

// Whether `^` escapes this character.
fn is_escapable(c: char) -> bool
    ensures exact { result ≡ is_bracket_or_caret c }
{
    matches!(c, '(' | ')' | '^')
}

// The step after a `^`.
fn escaped_step(depth: usize, rest: &[char]) -> UriStep<'_>
    ensures steps_by_rule { StepsTo result (parse_uri_chars depth (94 ∷ rest.now)) }
    ensures rest_shrinks { IsShorter depth (94 ∷ rest.now) result }
{
    match rest {
        [c, rest @ ..] if is_escapable(*c) => UriStep::Goes(*c, depth, rest),
        _ => UriStep::Breaks,
    }
}

// The step of a `)`, where `depth` parentheses are open.
fn closing_step(depth: usize, rest: &[char]) -> UriStep<'_>
    ensures steps_by_rule { StepsTo result (parse_uri_chars depth (41 ∷ rest.now)) }
    ensures rest_shrinks { IsShorter depth (41 ∷ rest.now) result }
{
    if depth == 0 {
        return UriStep::Ends(rest);
    }
    UriStep::Goes(')', depth - 1, rest)
}

// The step of a character, where `depth` parentheses are open.
fn char_step(depth: usize, c: char, rest: &[char]) -> UriStep<'_>
    requires { depth + 1 < 2 ^ 64 }
    ensures steps_by_rule { StepsTo result (parse_uri_chars depth (c ∷ rest.now)) }
    ensures rest_shrinks { IsShorter depth (c ∷ rest.now) result }
{
    match c {
        '^' => escaped_step(depth, rest),
        '(' => UriStep::Goes(c, depth + 1, rest),
        ')' => closing_step(depth, rest),
        _ => UriStep::Goes(c, depth, rest),
    }
}

// The next step, where `depth` parentheses are open.
fn uri_step(depth: usize, text: &[char]) -> UriStep<'_>
    requires { depth + length text.now < 2 ^ 64 }
    ensures steps_by_rule { StepsTo result (parse_uri_chars depth text.now) }
    ensures rest_shrinks { IsShorter depth text.now result }
{
    match text {
        [] => UriStep::Breaks,
        [c, rest @ ..] => char_step(depth, *c, rest),
    }
}

// The URI up to the `)` that ends its item, and what comes after that.
fn parse_uri_chars(alloc: Global, text: &[char]) -> Result<(Text, &[char]), ReadError<UriFault>>
    ensures reads_rule { GivesStated (λ x. (x.0, x.1.now)) result (parse_uri_chars 0 text.now) }
{
    let mut uri = empty_text(alloc);
    let mut depth = 0;
    let mut rest = text;
    'chars: loop {
        match uri_step(depth, rest) {
            UriStep::Breaks => return Err(ReadError::Fault(UriFault::BadQuery)),
            UriStep::Ends(after) => return Ok((uri, after)),
            UriStep::Goes(c, still_deep, after) => {
                uri.push(c)?;
                depth = still_deep;
                rest = after;
            }
        }
    }
}

// A URI that isn't empty, and what comes after its `)`.
fn parse_uri(alloc: Global, text: &[char]) -> Result<(Text, &[char]), ReadError<UriFault>>
    ensures reads_rule { GivesStated (λ x. (x.0, x.1.now)) result (parsed_uri text.now) }
{
    let (uri, rest) = parse_uri_chars(alloc, text)?;
    if uri.is_empty() {
        return Err(ReadError::Fault(UriFault::BadQuery));
    }
    Ok((uri, rest))
}

// A prefix that an item may bind, and what comes after it.
fn parse_prefix(text: &[char]) -> Result<(&[char], &[char]), ReadError<UriFault>>
    ensures reads_rule { GivesStated (λ x. (x.0.now, x.1.now)) result
        (parsed_free_prefix text.now) }
{
    let (prefix, rest) = parse_name(text)?;
    if is_reserved(prefix) {
        return Err(ReadError::Fault(UriFault::BadQuery));
    }
    Ok((prefix, rest))
}

// An item, and what comes after it.
fn read_item(alloc: Global, text: &[char]) -> Result<Item<'_>, ReadError<UriFault>>
    ensures reads_rule { GivesStated item_view result (parsed_item text.now) }
{
    let Some(inner) = strip_front(text, &['x', 'm', 'l', 'n', 's', '(']) else {
        return Err(ReadError::Fault(UriFault::BadQuery));
    };
    let (prefix, rest) = parse_prefix(inner)?;
    let rest = skip_equals(rest)?;
    let (uri, rest) = parse_uri(alloc, rest)?;
    let prefix = text_of(alloc, prefix)?;
    Ok(Item { prefix, uri, rest })
}

// The bindings of a query.
fn read_items(alloc: Global, text: &[char]) -> Result<Bindings, ReadError<UriFault>>
    ensures exact { IsStatedOr ReadError.NoMemory (parsed_bindings text.now) result }
{
    let mut bindings = Bindings::none(alloc);
    let mut rest = skip_blanks(text);
    'items: for _ in 0..text.len() {
        if rest.is_empty() {
            return Ok(bindings);
        }
        let item = read_item(alloc, rest)?;
        bindings.bind(item.prefix.as_str(), item.uri.as_str())?;
        rest = skip_blanks(item.rest);
    }
    if rest.is_empty() {
        return Ok(bindings);
    }
    Err(ReadError::Fault(UriFault::BadQuery))
}

/// The bindings of a query; none where there is no query.
///
/// # Errors
/// `BadQuery` exactly where the query isn't a sequence of items; `NoMemory` when out of memory.
pub fn read_query(alloc: Global, query: &Option<Text>) -> Result<Bindings, ReadError<UriFault>>
    ensures exact { IsStatedOr ReadError.NoMemory (parsed_optional_bindings query.now) result }
{
    match query {
        None => Ok(Bindings::none(alloc)),
        Some(text) => {
            let text = chars_of_text(alloc, text.as_str())?;
            read_items(alloc, &text)
        }
    }
}
