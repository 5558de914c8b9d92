//! The grammar of selectors, read from left to right.
ghost use Rattle.std.specs.Prelude.{chars, map, IfOk, Ok};
ghost use Rattle.xml_grammar.specs.TextReading.{read_mapped, read_word};
ghost use Rattle.xml_grammar.specs.readers.RuleReaders.{read_second, read_optional};
ghost use Rattle.xml_grammar.specs.readers.RuleReaders.{read_whole_text};
ghost use Rattle.xml_tokens.specs.readers.ReadResults.{IsSameResult};
ghost use Rattle.node_select.specs.readers.Literals.{slash};
ghost use Rattle.node_select.specs.readers.RawSelectors.{HasPlacesInRange, raw_end_or_element};
ghost use Rattle.node_select.specs.readers.RawSelectors.{raw_patch_end_or_element};
ghost use Rattle.node_select.specs.readers.RawSelectors.{slash_width};
ghost use Rattle.node_select.specs.readers.Selectors.{read_end, read_patch_end};
ghost use Rattle.node_select.specs.readers.Selectors.{read_patch_selector, read_position};
ghost use Rattle.node_select.specs.readers.Selectors.{read_selector, slash_follows, test_follows};
ghost use Rattle.node_select.specs.readers.Views.{end_view, patch_end_view, patch_selector_view};
ghost use Rattle.node_select.specs.readers.Views.{selector_view, step_view};

use crate::raw_selectors::{Form, RawEnd, RawPatchEnd, RawPatchSelector, RawSelector};
use crate::steps::{attribute, position, slash_follows, steps, test_follows};
use std::alloc::Global;
use xml_grammar::{is_at_end, starts_with_char};
use xml_tokens::{ParseError, word};

// An attribute or all namespaces, and what follows them.
fn end(text: &str) -> Result<(RawEnd<'_>, &str), ParseError<'_>>
    ensures reads_rule { IsSameResult (λ x. (end_view x.0, chars x.1.now)) result
        (read_end (chars text.now)) }
{
    if starts_with_char(text, '@') {
        let (name, rest) = attribute(text)?;
        return Ok((RawEnd::Attribute(name), rest));
    }
    let rest = word(
        text,
        &['n', 'a', 'm', 'e', 's', 'p', 'a', 'c', 'e', ':', ':', '*'],
    )?;
    Ok((RawEnd::Namespaces, rest))
}

// A slash and an end, if a slash follows, and what follows them.
fn optional_end(text: &str) -> Result<(RawEnd<'_>, &str), ParseError<'_>>
    ensures reads_rule { IsSameResult (λ x. (end_view x.0, chars x.1.now)) result
        (read_mapped raw_end_or_element
        (read_optional slash_follows (read_second (read_word slash) read_end)) (chars text.now)) }
{
    if !slash_follows(text) {
        return Ok((RawEnd::Element, text));
    }
    let rest = word(text, &['/'])?;
    end(rest)
}

// A selector, and what follows it.
fn selector(alloc: Global, text: &str) -> Result<(RawSelector<'_>, &str), ParseError<'_>>
    ensures reads_rule { IsSameResult (λ x. (selector_view x.0, chars x.1.now)) result
        (read_selector (chars text.now)) }
{
    let (steps, rest) = steps(alloc, text, Form::Node)?;
    let (end, rest) = optional_end(rest)?;
    Ok((RawSelector { steps, end }, rest))
}

/// A whole selector.
pub fn raw_selector(alloc: Global, text: &str) -> Result<RawSelector<'_>, ParseError<'_>>
    ensures reads_rule { IsSameResult selector_view result
        (read_whole_text read_selector (chars text.now)) }
    ensures places_fit_u64 { IfOk result
        (λ raw. HasPlacesInRange 0 (map step_view raw.steps.items)) }
{
    let (selector, rest) = selector(alloc, text)?;
    if !is_at_end(rest) {
        return Err(ParseError::Syntax(rest));
    }
    Ok(selector)
}

// The position of a text, if a bracket follows, and what follows it.
fn text_position(text: &str) -> Result<(Option<u64>, &str), ParseError<'_>>
    ensures reads_rule { IsSameResult (λ x. (x.0, chars x.1.now)) result
        (read_optional test_follows read_position (chars text.now)) }
{
    if !test_follows(text) {
        return Ok((None, text));
    }
    let (position, rest) = position(text)?;
    Ok((Some(position), rest))
}

// An attribute or a text, and what follows them.
fn patch_end(text: &str) -> Result<(RawPatchEnd<'_>, &str), ParseError<'_>>
    ensures reads_rule { IsSameResult (λ x. (patch_end_view x.0, chars x.1.now)) result
        (read_patch_end (chars text.now)) }
{
    if starts_with_char(text, '@') {
        let (name, rest) = attribute(text)?;
        return Ok((RawPatchEnd::Attribute(name), rest));
    }
    let rest = word(text, &['t', 'e', 'x', 't', '(', ')'])?;
    let (position, rest) = text_position(rest)?;
    Ok((RawPatchEnd::Chars(position), rest))
}

// A slash and an end, if a slash follows, and what follows them.
fn optional_patch_end(text: &str) -> Result<(RawPatchEnd<'_>, &str), ParseError<'_>>
    ensures reads_rule { IsSameResult (λ x. (patch_end_view x.0, chars x.1.now)) result
        (read_mapped raw_patch_end_or_element
        (read_optional slash_follows (read_second (read_word slash) read_patch_end))
        (chars text.now)) }
{
    if !slash_follows(text) {
        return Ok((RawPatchEnd::Element, text));
    }
    let rest = word(text, &['/'])?;
    patch_end(rest)
}

// The width of an optional slash at the front, and what follows it.
fn optional_slash(text: &str) -> Result<(usize, &str), ParseError<'_>>
    ensures reads_rule { IsSameResult (λ x. (x.0, chars x.1.now)) result
        (read_mapped slash_width (read_optional slash_follows (read_word slash)) (chars text.now)) }
{
    if !slash_follows(text) {
        return Ok((0, text));
    }
    let rest = word(text, &['/'])?;
    Ok((1, rest))
}

// A selector of a patch, and what follows it.
fn patch_selector(alloc: Global, text: &str) -> Result<(RawPatchSelector<'_>, &str), ParseError<'_>>
    ensures reads_rule { IsSameResult (λ x. (patch_selector_view x.0, chars x.1.now)) result
        (read_patch_selector (chars text.now)) }
{
    let (slash, rest) = optional_slash(text)?;
    let (steps, rest) = steps(alloc, rest, Form::Patch)?;
    let (end, rest) = optional_patch_end(rest)?;
    Ok((RawPatchSelector { slash, steps, end }, rest))
}

/// A whole selector of a patch.
pub fn raw_patch_selector(alloc: Global, text: &str) -> Result<RawPatchSelector<'_>, ParseError<'_>>
    ensures reads_rule { IsSameResult patch_selector_view result
        (read_whole_text read_patch_selector (chars text.now)) }
    ensures places_fit_u64 { IfOk result
        (λ raw. HasPlacesInRange raw.slash (map step_view raw.steps.items)) }
{
    let (selector, rest) = patch_selector(alloc, text)?;
    if !is_at_end(rest) {
        return Err(ParseError::Syntax(rest));
    }
    Ok(selector)
}
