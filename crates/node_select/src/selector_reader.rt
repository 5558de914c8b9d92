//! Reading selectors.
ghost use Rattle.std.specs.Prelude.{◌≡◌, ◌-◌, length, map, IfOk, chars};
ghost use Rattle.xml_names.specs.ReadErrors.{ResultSatisfies};
ghost use Rattle.node_select.specs.Faults.{IsPatchFormAnswer, IsPatchSelectorAnswer};
ghost use Rattle.node_select.specs.Faults.{IsSelectorAnswer, byte_offset};
ghost use Rattle.node_select.specs.readers.RawSelectors.{HasPlacesInRange, first_unbound};
ghost use Rattle.node_select.specs.readers.RawSelectors.{first_unbound_in_patch};
ghost use Rattle.node_select.specs.readers.RawSelectors.{resolved_patch_selector};
ghost use Rattle.node_select.specs.readers.RawSelectors.{resolved_selector};
ghost use Rattle.node_select.specs.readers.Views.{patch_end_view, patch_selector_view};
ghost use Rattle.node_select.specs.readers.Views.{selector_view};
ghost use Rattle.node_select.specs.readers.Views.{step_view};
ghost use Rattle.node_select.specs.readers.NameResolution.{IsResolvedAs};
ghost use Rattle.node_select.specs.readers.ParseErrors.{IsErrorOfStop, IsErrorOfUnresolved};
ghost use Rattle.node_select.specs.readers.WholeSelectors.{parsed_patch_form};
ghost use Rattle.node_select.specs.readers.WholeSelectors.{parsed_patch_selector};
ghost use Rattle.node_select.specs.readers.WholeSelectors.{raw_form_of, parsed_selector};

use crate::bindings::Bindings;
use crate::fault::SelectorFault;
use crate::name_resolution::{Unresolved, end, resolve_patch_end, steps};
use crate::raw_selectors::{RawPatchEnd, RawPatchSelector, RawSelector};
use crate::selector::{PatchForm, PatchSelector, Selector};
use crate::selector_grammar::{raw_patch_selector, raw_selector};
use std::alloc::{AllocError, Global};
use xml_grammar::{count, skip_chars};
use xml_names::ReadError;
use xml_tokens::ParseError;

// The byte after the first `n` characters of a text.
fn byte_offset(text: &str, n: usize) -> usize
    ensures exact { result ≡ byte_offset text.now n }
{
    text.len().saturating_sub(skip_chars(text, n).len())
}

// The byte of a text at which this rest of it begins.
fn rest_offset(text: &str, rest: &str) -> usize
    ensures exact { result
        ≡ byte_offset text.now (length (chars text.now) - length (chars rest.now)) }
{
    byte_offset(text, count(text).saturating_sub(count(rest)))
}

// Why a text hasn't the form of a selector.
fn parse_fault(text: &str, stop: &ParseError<'_>) -> ReadError<SelectorFault>
    ensures reports_stop { IsErrorOfStop text.now stop.now result }
{
    match stop {
        ParseError::Syntax(rest) => ReadError::Fault(SelectorFault::BadSelector(rest_offset(
            text, rest,
        ))),
        ParseError::Faulty(_, rest) => ReadError::Fault(SelectorFault::BadSelector(rest_offset(
            text, rest,
        ))),
        ParseError::Memory => ReadError::NoMemory,
    }
}

// Why the names of a selector can't be resolved.
fn resolution_fault(text: &str, why: &Unresolved) -> ReadError<SelectorFault>
    ensures reports_unbound { IsErrorOfUnresolved text.now why.now result }
{
    match why {
        Unresolved::Prefix(n) => ReadError::Fault(SelectorFault::UnboundPrefix(byte_offset(
            text, *n,
        ))),
        Unresolved::Memory => ReadError::NoMemory,
    }
}

// The selector that a raw selector means.
fn resolve_selector(
    alloc: Global,
    raw: &RawSelector<'_>,
    bindings: &Bindings,
    default_uri: &str,
) -> Result<Selector, Unresolved>
    requires { HasPlacesInRange 0 (map step_view raw.now.steps.items) }
    ensures means_selector { IsResolvedAs (first_unbound bindings.now (selector_view raw.now))
        (resolved_selector bindings.now (chars default_uri.now) (selector_view raw.now)) result }
{
    let indexed_decls = bindings.indexed_decls();
    let (steps, at) = steps(alloc, &indexed_decls, default_uri, &raw.steps, 0)?;
    let end = end(alloc, &indexed_decls, &raw.end, at)?;
    Ok(Selector { steps, end })
}

// The selector of a patch that a raw selector means.
fn resolve_patch_selector(
    alloc: Global,
    raw: &RawPatchSelector<'_>,
    bindings: &Bindings,
    default_uri: &str,
) -> Result<PatchSelector, Unresolved>
    requires { HasPlacesInRange raw.now.slash (map step_view raw.now.steps.items) }
    ensures means_patch_selector { IsResolvedAs
        (first_unbound_in_patch bindings.now (patch_selector_view raw.now))
        (resolved_patch_selector bindings.now (chars default_uri.now) (patch_selector_view raw.now))
        result }
{
    let indexed_decls = bindings.indexed_decls();
    let (steps, at) = steps(alloc, &indexed_decls, default_uri, &raw.steps, raw.slash)?;
    let end = resolve_patch_end(alloc, &indexed_decls, &raw.end, at)?;
    Ok(PatchSelector { steps, end })
}

// The selector that a text spells.
fn parse_selector(
    alloc: Global,
    text: &str,
    bindings: &Bindings,
    default_uri: &str,
) -> Result<Selector, ReadError<SelectorFault>>
    ensures grammar_answer { ResultSatisfies
        (λ answer. answer ≡ parsed_selector bindings.now (chars default_uri.now) text.now) result }
{
    match raw_selector(alloc, text) {
        Err(stop) => Err(parse_fault(text, &stop)),
        Ok(raw) => match resolve_selector(alloc, &raw, bindings, default_uri) {
            Err(why) => Err(resolution_fault(text, &why)),
            Ok(selector) => Ok(selector),
        },
    }
}

// The selector of a patch that a text spells.
fn parse_patch_selector(
    alloc: Global,
    text: &str,
    bindings: &Bindings,
    default_uri: &str,
) -> Result<PatchSelector, ReadError<SelectorFault>>
    ensures grammar_answer { ResultSatisfies
        (λ answer. answer ≡ parsed_patch_selector bindings.now (chars default_uri.now) text.now)
        result }
{
    match raw_patch_selector(alloc, text) {
        Err(stop) => Err(parse_fault(text, &stop)),
        Ok(raw) => match resolve_patch_selector(alloc, &raw, bindings, default_uri) {
            Err(why) => Err(resolution_fault(text, &why)),
            Ok(selector) => Ok(selector),
        },
    }
}

// The form of the end of a selector.
fn form_of(end: &RawPatchEnd<'_>) -> PatchForm
    ensures exact { result ≡ raw_form_of (patch_end_view end.now) }
{
    match end {
        RawPatchEnd::Element => PatchForm::Element,
        RawPatchEnd::Attribute(_) => PatchForm::Attribute,
        RawPatchEnd::Chars(_) => PatchForm::Chars,
    }
}

// The form of the end of a text, as the selector of a patch.
fn parse_patch_form(alloc: Global, text: &str) -> Result<Option<PatchForm>, AllocError>
    ensures ok { IfOk result (λ form. form ≡ parsed_patch_form text.now) }
{
    match raw_patch_selector(alloc, text) {
        Ok(raw) => Ok(Some(form_of(&raw.end))),
        Err(ParseError::Syntax(_)) => Ok(None),
        Err(ParseError::Faulty(_, _)) => Ok(None),
        Err(ParseError::Memory) => Err(AllocError),
    }
}

/// The selector that a text spells (RFC 4825, section 6.3). An element's name without prefix is
/// in the namespace `default_uri`, an attribute's name without prefix is in none.
///
/// # Errors
/// `BadSelector` exactly when the text isn't a selector, `UnboundPrefix` exactly when it is one
/// and has an unbound prefix, `NoMemory` when out of memory.
pub fn read_selector(
    alloc: Global,
    text: &str,
    bindings: &Bindings,
    default_uri: &str,
) -> Result<Selector, ReadError<SelectorFault>>
    ensures grammar_answer { ResultSatisfies
        (IsSelectorAnswer bindings.now (chars default_uri.now) text.now) result }
{
    parse_selector(alloc, text, bindings, default_uri)
}

/// The selector of a patch operation that a text spells (RFC 5261, section 4.1): an optional `/`,
/// steps, and optionally an attribute or a text. Names are resolved as in `read_selector`.
///
/// # Errors
/// As for `read_selector`.
pub fn read_patch_selector(
    alloc: Global,
    text: &str,
    bindings: &Bindings,
    default_uri: &str,
) -> Result<PatchSelector, ReadError<SelectorFault>>
    ensures grammar_answer { ResultSatisfies
        (IsPatchSelectorAnswer bindings.now (chars default_uri.now) text.now) result }
{
    parse_patch_selector(alloc, text, bindings, default_uri)
}

/// The form of the last part of a patch operation's selector that a text spells, by the text
/// alone: an element, an attribute or a text (RFC 5261, section 4.1), whether its prefixes are
/// bound or not. None if it spells no selector.
///
/// # Errors
/// `AllocError` when out of memory.
pub fn read_patch_form(alloc: Global, text: &str) -> Result<Option<PatchForm>, AllocError>
    ensures grammar_answer { IfOk result (IsPatchFormAnswer text.now) }
{
    parse_patch_form(alloc, text)
}
