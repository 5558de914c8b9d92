//! Steps of selectors, read from left to right.
ghost use Rattle.std.specs.Prelude.{◌≡◌, ◌<◌, ◌^◌, ◌++◌, [], ◌∷◌, chars, map, Some, option_map};
ghost use Rattle.std.specs.Prelude.{OnOk, Ok};
ghost use Rattle.xml_grammar.specs.Digits.{decimal_digits};
ghost use Rattle.std.specs.Str.{bytes_eq};
ghost use Rattle.xml_grammar.specs.TextReading.{read_sequence};
ghost use Rattle.xml_grammar.specs.readers.RuleReaders.{read_optional};
ghost use Rattle.xml_tokens.specs.readers.ReadResults.{IsSameResult};
ghost use Rattle.xml_tokens.specs.readers.TokenViews.{raw_name_view};
ghost use Rattle.node_select.specs.Grammar.{position_of, is_attribute_name};
ghost use Rattle.node_select.specs.readers.Selectors.{position_follows, read_attribute};
ghost use Rattle.node_select.specs.readers.Selectors.{read_inside_quotes, read_next_step};
ghost use Rattle.node_select.specs.readers.Selectors.{read_node_name, read_position, read_step};
ghost use Rattle.node_select.specs.readers.Selectors.{read_steps, read_test, read_value};
ghost use Rattle.node_select.specs.readers.Selectors.{slash_follows, test_follows};
ghost use Rattle.node_select.specs.readers.Views.{step_follows_in, step_view, test_view};

use crate::raw_selectors::{Form, RawStep, RawTest};
use std::alloc::{AllocError, Global};
use xml_grammar::{count_before, split_first, starts_with_char};
use xml_names::{Text, is_xmlns_prefix};
use xml_tokens::{
    ParseError, RawName, digits, empty_text, qname, quote, raw_run, reference, reference_follows,
    starts_with_word, word,
};

/// The greatest position; a greater one is read as 0.
pub const MAX_POSITION: u64 = 4_294_967_295;

// A name, or none for `*`, and what follows it.
fn node_name(text: &str) -> Result<(Option<RawName<'_>>, &str), ParseError<'_>>
    ensures reads_rule { IsSameResult (λ x. (option_map raw_name_view x.0, chars x.1.now)) result
        (read_node_name (chars text.now)) }
{
    if starts_with_char(text, '*') {
        let rest = word(text, &['*'])?;
        return Ok((None, rest));
    }
    let (name, rest) = qname(text)?;
    Ok((Some(name), rest))
}

// What a digit is worth.
fn digit_value(c: char) -> u64
    ensures exact { result ≡ decimal_digits.value c }
    ensures is_small { result < 2 ^ 21 }
{
    (c as u64).saturating_sub(48)
}

// The position that digits spell.
fn position_value(digits: &str) -> u64
    ensures exact { result ≡ position_of (chars digits.now) }
{
    let mut value = 0;
    let mut rest = digits;
    'each: while let Some((c, after)) = split_first(rest) {
        value = value * 10 + digit_value(c);
        if value > MAX_POSITION {
            return 0;
        }
        rest = after;
    }
    value
}

/// A position in brackets, and what follows it.
pub fn position(text: &str) -> Result<(u64, &str), ParseError<'_>>
    ensures reads_rule { IsSameResult (λ x. (x.0, chars x.1.now)) result
        (read_position (chars text.now)) }
{
    let rest = word(text, &['['])?;
    let (digits, rest) = digits(rest)?;
    let rest = word(rest, &[']'])?;
    Ok((position_value(digits), rest))
}

// Whether a position follows.
fn position_follows(text: &str) -> bool
    ensures exact { result ≡ position_follows (chars text.now) }
{
    starts_with_char(text, '[') && !starts_with_word(text, &['[', '@'])
}

// A position, if one follows, and what follows it.
fn optional_position(text: &str) -> Result<(Option<u64>, &str), ParseError<'_>>
    ensures reads_rule { IsSameResult (λ x. (x.0, chars x.1.now)) result
        (read_optional position_follows read_position (chars text.now)) }
{
    if !position_follows(text) {
        return Ok((None, text));
    }
    let (position, rest) = position(text)?;
    Ok((Some(position), rest))
}

// Whether a text is empty.
fn is_empty_text(text: &str) -> bool
    ensures exact { result ≡ bytes_eq (chars text.now) [] }
{
    match split_first(text) {
        Some(_) => false,
        None => true,
    }
}

// Whether an attribute may have this name, which isn't a declaration's.
fn is_attribute_name(name: &RawName<'_>) -> bool
    ensures exact { result ≡ is_attribute_name (raw_name_view name.now) }
{
    !(is_empty_text(name.prefix) && is_xmlns_prefix(name.local))
}

/// `@` and the name of an attribute, and what follows them.
pub fn attribute(text: &str) -> Result<(RawName<'_>, &str), ParseError<'_>>
    ensures reads_rule { IsSameResult (λ x. (raw_name_view x.0, chars x.1.now)) result
        (read_attribute (chars text.now)) }
{
    let rest = word(text, &['@'])?;
    let (name, rest) = qname(rest)?;
    if !is_attribute_name(&name) {
        return Err(ParseError::Syntax(rest));
    }
    Ok((name, rest))
}

// Appends a character from a reference, and the raw characters after it.
fn push_piece(value: &mut Text, c: char, run: &str) -> Result<(), AllocError>
    ensures appended { OnOk result (value.new ≡ value.old ++ (c ∷ chars run.now)) }
{
    value.push(c)?;
    value.push_str(run)
}

// A value up to its quote, and what follows it.
fn inside_quotes(alloc: Global, text: &str, quote: char) -> Result<(Text, &str), ParseError<'_>>
    ensures reads_rule { IsSameResult (λ x. (x.0, chars x.1.now)) result
        (read_inside_quotes quote (chars text.now)) }
{
    let mut value = empty_text(alloc);
    let (first, start) = raw_run(text, quote);
    value.push_str(first)?;
    let mut rest = start;
    for _ in 0..start.len() {
        if !reference_follows(rest) {
            break;
        }
        let (c, after) = reference(rest)?;
        let (more, after) = raw_run(after, quote);
        push_piece(&mut value, c, more)?;
        rest = after;
    }
    Ok((value, rest))
}

// A value in quotes, and what follows it.
fn value(alloc: Global, text: &str) -> Result<(Text, &str), ParseError<'_>>
    ensures reads_rule { IsSameResult (λ x. (x.0, chars x.1.now)) result
        (read_value (chars text.now)) }
{
    let (quote, rest) = quote(text)?;
    let (value, rest) = inside_quotes(alloc, rest, quote)?;
    let rest = word(rest, &[quote])?;
    Ok((value, rest))
}

// A test in brackets, and what follows it.
fn test(alloc: Global, text: &str) -> Result<(RawTest<'_>, &str), ParseError<'_>>
    ensures reads_rule { IsSameResult (λ x. (test_view x.0, chars x.1.now)) result
        (read_test (chars text.now)) }
{
    let rest = word(text, &['['])?;
    let (name, rest) = attribute(rest)?;
    let rest = word(rest, &['='])?;
    let (value, rest) = value(alloc, rest)?;
    let rest = word(rest, &[']'])?;
    Ok((RawTest { name, value }, rest))
}

/// Whether a bracket follows.
pub fn test_follows(text: &str) -> bool
    ensures exact { result ≡ test_follows (chars text.now) }
{
    starts_with_char(text, '[')
}

// A test, if one follows, and what follows it.
fn optional_test(alloc: Global, text: &str) -> Result<(Option<RawTest<'_>>, &str), ParseError<'_>>
    ensures reads_rule { IsSameResult (λ x. (option_map test_view x.0, chars x.1.now)) result
        (read_optional test_follows read_test (chars text.now)) }
{
    if !test_follows(text) {
        return Ok((None, text));
    }
    let (test, rest) = test(alloc, text)?;
    Ok((Some(test), rest))
}

// The name and the position of a step, and what follows them.
fn front(text: &str) -> Result<(Option<RawName<'_>>, Option<u64>, &str), ParseError<'_>>
    ensures reads_rule { IsSameResult
        (λ x. ((option_map raw_name_view x.0, x.1), chars x.2.now)) result
        (read_sequence read_node_name (λ _. read_optional position_follows read_position)
        (chars text.now)) }
{
    let (name, rest) = node_name(text)?;
    let (position, rest) = optional_position(rest)?;
    Ok((name, position, rest))
}

// A step, and what follows it.
fn step(alloc: Global, text: &str) -> Result<(RawStep<'_>, &str), ParseError<'_>>
    ensures reads_rule { IsSameResult (λ x. (step_view x.0, chars x.1.now)) result
        (read_step (chars text.now)) }
{
    let (name, position, after) = front(text)?;
    let (test, rest) = optional_test(alloc, after)?;
    let front = count_before(text, after);
    let size = count_before(text, rest);
    let step = RawStep {
        name,
        position,
        front,
        test,
        size,
    };
    Ok((step, rest))
}

// A step after a slash, and what follows it.
fn next_step(alloc: Global, text: &str) -> Result<(RawStep<'_>, &str), ParseError<'_>>
    ensures reads_rule { IsSameResult (λ x. (step_view x.0, chars x.1.now)) result
        (read_next_step (chars text.now)) }
{
    let rest = word(text, &['/'])?;
    step(alloc, rest)
}

// Whether another step follows.
fn step_follows(text: &str, form: Form) -> bool
    ensures exact { result ≡ step_follows_in form (chars text.now) }
{
    match form {
        Form::Node => node_step_follows(text),
        Form::Patch => patch_step_follows(text),
    }
}

/// Whether a slash follows.
pub fn slash_follows(text: &str) -> bool
    ensures exact { result ≡ slash_follows (chars text.now) }
{
    starts_with_char(text, '/')
}

// Whether a slash and another step follow, and no end of a selector.
fn node_step_follows(text: &str) -> bool
    ensures exact { result ≡ step_follows_in Form.Node (chars text.now) }
{
    slash_follows(text)
        && !(starts_with_word(text, &['/', '@'])
            || starts_with_word(
                text,
                &['/', 'n', 'a', 'm', 'e', 's', 'p', 'a', 'c', 'e', ':', ':'],
            ))
}

// Whether a slash and another step follow, and no end of a patch's selector.
fn patch_step_follows(text: &str) -> bool
    ensures exact { result ≡ step_follows_in Form.Patch (chars text.now) }
{
    slash_follows(text)
        && !(starts_with_word(text, &['/', '@'])
            || starts_with_word(text, &['/', 't', 'e', 'x', 't', '(']))
}

/// Steps, and what follows them.
pub fn steps(
    alloc: Global,
    text: &str,
    form: Form,
) -> Result<(Vec<RawStep<'_>>, &str), ParseError<'_>>
    ensures reads_rule { IsSameResult (λ x. (map step_view x.0.items, chars x.1.now)) result
        (read_steps (step_follows_in form) (chars text.now)) }
{
    let mut steps = Vec::new(alloc);
    let (first, start) = step(alloc, text)?;
    steps.push(first)?;
    let mut rest = start;
    for _ in 0..start.len() {
        if !step_follows(rest, form) {
            break;
        }
        let (step, after) = next_step(alloc, rest)?;
        steps.push(step)?;
        rest = after;
    }
    Ok((steps, rest))
}
