//! Elements: their start tags, their content, and the elements in it, within a depth limit.
ghost use Rattle.std.specs.Prelude.{◌≡◌, ◌==◌, ◌||◌, ◌+◌, ◌≤◌, ◌<◌, ◌++◌, true, [], ◌∷◌, chars};
ghost use Rattle.std.specs.Prelude.{IfOk, OnOk, Ok, Err};
ghost use Rattle.xml_grammar.specs.TextReading.{Reader, first_char_is};
ghost use Rattle.xml_grammar.specs.readers.RuleReaders.{value_or_fault};
ghost use Rattle.xml_tree.specs.Edits.{with_text};
ghost use Rattle.xml_tree.specs.Tree.{Tree, last, tree_of};
ghost use Rattle.xml_tokens.specs.declared.fault_kind.FaultKind.{FaultKind};
ghost use Rattle.tree_text.specs.readers.Bindings.{HasSameOpenElements, AreOpenNamespaces, lists};
ghost use Rattle.xml_tokens.specs.readers.ReadResults.{IsSameResult, IsSameStop};
ghost use Rattle.tree_text.specs.readers.ContentReaders.{read_chars_onto, read_markup_onto};
ghost use Rattle.tree_text.specs.readers.ContentReaders.{read_child};
ghost use Rattle.tree_text.specs.readers.ContentReaders.{read_tree_content, read_tree_after_tag};
ghost use Rattle.tree_text.specs.Names.{attrs_of};
ghost use Rattle.tree_text.specs.readers.TagNameFaults.{counted_from_end, first_tag_fault};
ghost use Rattle.xml_tokens.specs.readers.CharacterRuns.{ends_run};
ghost use Rattle.tree_text.specs.readers.Texts.{markup_follows, non_element_follows, read_tag};
ghost use Rattle.tree_text.specs.readers.Texts.{read_element};
ghost use Rattle.xml_tokens.specs.readers.TokenViews.{raw_name_view};
ghost use Rattle.tree_text.specs.readers.Views.{tag_view};

use crate::bindings::Bindings;
use crate::empty_elements::push_empty_element;
use crate::names::{declares_namespace, decls_of, first_tag_fault};
use crate::raw_attribute::RawAttribute;
use crate::start_tags::{RawStartTag, read_whole_tag};
use std::alloc::{AllocError, Global};
use xml_grammar::{are_both_next, count, is_either_next, is_next, split_first, starts_with_char};
use xml_markup::{cdata_section, comment, processing_instruction};
use xml_names::{Attr, Decl, Name, Text};
use xml_tokens::{
    Class, FaultKind, ParseError, content_run, end_tag, normalize_lines, reference, rest_before,
    run, starts_with_name, starts_with_word, text_of, to_owned_name,
};
use xml_tree::{Element, last_elem};

/// Stops at the first wrong name of a start tag, inside its element.
#[inline(always)]
fn check_tag_names<'a>(
    alloc: Global,
    text: &'a str,
    here: &Bindings,
    name: &Name,
    raw_attribute: &[RawAttribute<'_>],
    start_tag: &RawStartTag<'_>,
) -> Result<(), ParseError<'a>>
    requires namespaces_in_step { AreOpenNamespaces here.now }
    requires name_matches { name.now ≡ raw_name_view start_tag.now.written }
    requires tag_read { read_tag (chars text.now)
        ≡ Ok (
          tag_view
              (chars text.now) start_tag.now raw_attribute.now,
          chars start_tag.now.after.now,
        ) }
    ensures judged_names { IsSameResult
        (λ _.
        (tag_view (chars text.now) start_tag.now raw_attribute.now, chars start_tag.now.after.now))
        result
        (value_or_fault (chars text.now)
        (tag_view (chars text.now) start_tag.now raw_attribute.now, chars start_tag.now.after.now)
        (counted_from_end (tag_view (chars text.now) start_tag.now raw_attribute.now).size
        (first_tag_fault (lists here.now)
        (tag_view (chars text.now) start_tag.now raw_attribute.now)))) }
{
    if let Some((kind, at)) = first_tag_fault(alloc, here, name, raw_attribute, start_tag)? {
        let size = count(text).saturating_sub(count(start_tag.after));
        let place = rest_before(text, start_tag.after, size.saturating_sub(at));
        return Err(ParseError::Faulty(kind, place));
    }
    Ok(())
}

/// Reserves capacity for exactly one node where the content ends before this rest of the text:
/// most elements have one node or none.
#[inline(always)]
fn reserve_node_before(element: &mut Element, rest: &str) -> Result<(), AllocError>
    ensures changes_nothing { element.new ≡ element.old }
{
    if are_both_next(rest, '<', '/') {
        return element.reserve_node();
    }
    Ok(())
}

/// Appends plain characters to content, before this rest of the text.
fn push_plain(element: &mut Element, plain: Text, rest: &str) -> Result<(), AllocError>
    ensures appends_chars { OnOk result
        (element.new ≡ record element.old { content = with_text plain element.old.content }) }
{
    reserve_node_before(element, rest)?;
    element.push_text(plain)
}

/// Appends a character to content.
fn push_char(alloc: Global, element: &mut Element, c: char) -> Result<(), AllocError>
    ensures ok { OnOk result
        (element.new ≡ record element.old { content = with_text (c ∷ []) element.old.content }) }
{
    element.push_text(text_of(alloc, &[c])?)
}

/// Whether a `<` or a `&` follows, which ends a run.
#[inline(always)]
fn run_ends(text: &str) -> bool
    ensures exact { result ≡ ends_run 60 (chars text.now) }
{
    is_either_next(text, '<', '&')
}

/// Appends a run of raw characters to content, as read, and returns what follows.
fn push_mixed<'a>(
    alloc: Global,
    text: &'a str,
    element: &mut Element,
) -> Result<&'a str, AllocError>
    ensures reads_onto { IfOk result
        (λ rest. read_chars_onto element.old (chars text.now) ≡ Ok (element.new, chars rest.now)) }
{
    let (run, rest) = content_run(text);
    element.push_text(normalize_lines(alloc, run)?)?;
    Ok(rest)
}

/// Appends a run of raw characters, if there is one. Most runs are plain, and are copied as they
/// are.
#[inline(never)]
fn push_non_empty_run<'a>(
    alloc: Global,
    text: &'a str,
    element: &mut Element,
) -> Result<&'a str, AllocError>
    ensures reads_onto { IfOk result
        (λ rest. read_chars_onto element.old (chars text.now) ≡ Ok (element.new, chars rest.now)) }
{
    let (plain, rest) = run(text, Class::PlainContent);
    if run_ends(rest) {
        let plain = Text::from_front(alloc, plain, text.as_bytes())?;
        push_plain(element, plain, rest)?;
        return Ok(rest);
    }
    push_mixed(alloc, text, element)
}

/// Appends a run of raw characters, if there is one. Between tags there is often none.
#[inline(always)]
fn push_run<'a>(alloc: Global, text: &'a str, element: &mut Element) -> Result<&'a str, AllocError>
    ensures reads_onto { IfOk result
        (λ rest. read_chars_onto element.old (chars text.now) ≡ Ok (element.new, chars rest.now)) }
{
    if run_ends(text) {
        return Ok(text);
    }
    push_non_empty_run(alloc, text, element)
}

/// Appends declarations to an element. Most have none.
#[inline(always)]
fn push_decls(element: &mut Element, decls: Vec<Decl>) -> Result<(), AllocError>
    ensures adds_declarations { OnOk result
        (element.new ≡ record element.old { decls = element.old.decls ++ decls.items }) }
{
    if decls.is_empty() {
        decls.destroy_empty();
        return Ok(());
    }
    push_each_decl(element, decls)
}

/// Appends declarations one by one.
#[inline(never)]
fn push_each_decl(element: &mut Element, decls: Vec<Decl>) -> Result<(), AllocError>
    ensures appended { OnOk result
        (element.new ≡ record element.old { decls = element.old.decls ++ decls.items }) }
{
    for decl in decls {
        element.push_decl(decl)?;
    }
    Ok(())
}

/// Appends a raw attribute to an element, unless it is a declaration.
#[inline(always)]
fn push_raw_attribute(
    element: &mut Element,
    raw_attribute: RawAttribute<'_>,
) -> Result<(), AllocError>
    ensures appended { OnOk result
        (element.new ≡ record element.old {
          attrs = element.old.attrs ++ attrs_of (raw_attribute.entry ∷ []);
        }) }
{
    if declares_namespace(&raw_attribute.name) {
        return Ok(());
    }
    let RawAttribute {
        name,
        value,
        gap: _,
        size: _,
    } = raw_attribute;
    element.push_attr(Attr { name, value })
}

/// Appends the attributes among the raw attributes to an element, and drops the raw attributes.
#[inline(never)]
fn push_raw_attributes(
    element: &mut Element,
    raw_attribute: &mut Vec<RawAttribute<'_>>,
) -> Result<(), AllocError>
    ensures appended { OnOk result
        (element.new ≡ record element.old {
          attrs = element.old.attrs ++ attrs_of raw_attribute.old.items;
        }) }
{
    for one in raw_attribute.drain(..) {
        push_raw_attribute(element, one)?;
    }
    Ok(())
}

/// Appends the attributes among the raw attributes, with capacity reserved for `room` of them.
/// Most tags have none.
#[inline(always)]
fn push_attrs(
    element: &mut Element,
    raw_attribute: &mut Vec<RawAttribute<'_>>,
    room: usize,
) -> Result<(), AllocError>
    ensures appended { OnOk result
        (element.new ≡ record element.old {
          attrs = element.old.attrs ++ attrs_of raw_attribute.old.items;
        }) }
{
    if raw_attribute.is_empty() {
        return Ok(());
    }
    element.reserve_attrs(room)?;
    push_raw_attributes(element, raw_attribute)
}

/// Whether a reference or a `<` follows.
#[inline(always)]
fn starts_markup(text: &str) -> bool
    ensures exact { result ≡ first_char_is (λ c. c == 38 || c == 60) (chars text.now) }
{
    is_either_next(text, '&', '<')
}

/// Whether content goes on: a reference or a `<` follows that isn't the start of an end tag.
#[inline(always)]
fn markup_follows(text: &str) -> bool
    ensures exact { result ≡ markup_follows (chars text.now) }
{
    if !starts_markup(text) {
        return false;
    }
    !are_both_next(text, '<', '/')
}

/// Why no element is read where no level is left: it is too deep, or there is none.
fn level_error(text: &str, depth: usize) -> ParseError<'_>
    ensures fails_too_deep { IsSameStop result (read_element 0 [] depth (chars text.now)) }
{
    match split_first(text) {
        Some((first, rest)) => {
            if first != '<' {
                return ParseError::Syntax(text);
            }
            if starts_with_name(rest) {
                return ParseError::Faulty(FaultKind::Depth(depth), text);
            }
            ParseError::Syntax(rest)
        }
        None => ParseError::Syntax(text),
    }
}

/// Whether markup other than an element follows.
#[inline(always)]
fn non_element_follows(text: &str) -> bool
    ensures exact { result ≡ non_element_follows (chars text.now) }
{
    is_next(text, '&') || are_both_next(text, '<', '!') || are_both_next(text, '<', '?')
}

/// Appends a piece of markup that isn't an element to content, and returns what follows it. Most
/// markup is elements.
#[inline(never)]
fn push_non_element<'a>(
    alloc: Global,
    text: &'a str,
    element: &mut Element,
) -> Result<&'a str, ParseError<'a>>
    requires { non_element_follows (chars text.now) ≡ true }
    ensures reads_onto { (inner : Reader FaultKind Tree)
        → IsSameResult (λ rest. (element.new, chars rest.now)) result
        (read_markup_onto element.old inner (chars text.now)) }
{
    if starts_with_char(text, '&') {
        let (c, rest) = reference(text)?;
        push_char(alloc, element, c)?;
        return Ok(rest);
    }
    if starts_with_word(text, &['<', '!', '[']) {
        let (chars, rest) = cdata_section(alloc, text)?;
        element.push_text(chars)?;
        return Ok(rest);
    }
    if starts_with_word(text, &['<', '!']) {
        let (chars, rest) = comment(alloc, text)?;
        element.push_comment(chars)?;
        return Ok(rest);
    }
    let rest = processing_instruction(text)?;
    Ok(rest)
}

/// Appends a piece of markup to content, and returns what follows it.
#[inline(always)]
#[cycle(nested)]
#[tactic(auto, using(crate::proofs::ElementLemmas::child_onto))]
fn push_markup<'a>(
    alloc: Global,
    text: &'a str,
    bindings: &mut Bindings,
    depth: usize,
    levels: usize,
    raw_attribute: &mut Vec<RawAttribute<'a>>,
    element: &mut Element,
) -> Result<&'a str, ParseError<'a>>
    requires namespaces_in_step { AreOpenNamespaces bindings.old }
    requires depth_bounded { depth + levels ≤ 1000 }
    ensures reads_rule { IsSameResult (λ rest. (element.new, chars rest.now)) result
        (read_markup_onto element.old (read_element levels (lists bindings.old) depth)
        (chars text.now)) }
    ensures bindings_restored { OnOk result (HasSameOpenElements bindings.old bindings.new) }
{
    if non_element_follows(text) {
        return push_non_element(alloc, text, element);
    }
    read_child_into(alloc, text, bindings, depth, levels, raw_attribute, element)
}

/// Reads content into an element that has none, and returns what follows it.
#[inline(always)]
#[cycle(nested)]
fn content<'a>(
    alloc: Global,
    text: &'a str,
    bindings: &mut Bindings,
    depth: usize,
    levels: usize,
    raw_attribute: &mut Vec<RawAttribute<'a>>,
    element: &mut Element,
) -> Result<&'a str, ParseError<'a>>
    requires namespaces_in_step { AreOpenNamespaces bindings.old }
    requires depth_bounded { depth + levels ≤ 1000 }
    requires empty { element.old.content ≡ last [] }
    ensures reads_rule { IsSameResult (λ rest. (element.new, chars rest.now)) result
        (read_tree_content element.old (read_element levels (lists bindings.old) depth)
        (chars text.now)) }
    ensures bindings_restored { OnOk result (HasSameOpenElements bindings.old bindings.new) }
{
    let start = push_run(alloc, text, element)?;
    let mut rest = start;
    for _ in 0..start.len() {
        if !markup_follows(rest) {
            break;
        }
        let after = push_markup(alloc, rest, bindings, depth, levels, raw_attribute, element)?;
        rest = push_run(alloc, after, element)?;
    }
    Ok(rest)
}

/// Reads what follows a start tag into its element, which has no content, and returns what
/// follows.
#[inline(always)]
#[cycle(nested)]
fn element_rest<'a>(
    alloc: Global,
    bindings: &mut Bindings,
    depth: usize,
    levels: usize,
    raw_attribute: &mut Vec<RawAttribute<'a>>,
    start_tag: &RawStartTag<'a>,
    element: &mut Element,
) -> Result<&'a str, ParseError<'a>>
    requires namespaces_in_step { AreOpenNamespaces bindings.old }
    requires depth_bounded { depth + levels ≤ 1000 }
    requires empty { element.old.content ≡ last [] }
    ensures reads_rule { IsSameResult (λ rest. (element.new, chars rest.now)) result
        (read_tree_after_tag element.old (read_element levels (lists bindings.old) depth)
        (raw_name_view start_tag.now.written) start_tag.now.is_empty
        (chars start_tag.now.after.now)) }
    ensures bindings_restored { OnOk result (HasSameOpenElements bindings.old bindings.new) }
{
    if start_tag.is_empty {
        return Ok(start_tag.after);
    }
    let rest = content(
        alloc,
        start_tag.after,
        bindings,
        depth,
        levels,
        raw_attribute,
        element,
    )?;
    let rest = end_tag(rest, &start_tag.written)?;
    Ok(rest)
}

/// Fills the empty element of a start tag with the tag's declarations, attributes and content,
/// and returns what follows the end tag.
#[inline(always)]
#[cycle(nested)]
fn fill_element<'a>(
    alloc: Global,
    text: &'a str,
    bindings: &mut Bindings,
    depth: usize,
    inner: usize,
    raw_attribute: &mut Vec<RawAttribute<'a>>,
    start_tag: &RawStartTag<'a>,
    element: &mut Element,
) -> Result<&'a str, ParseError<'a>>
    requires namespaces_in_step { AreOpenNamespaces bindings.old }
    requires depth_bounded { depth + inner < 1000 }
    requires tag_read { read_tag (chars text.now)
        ≡ Ok (
          tag_view (chars text.now) start_tag.now raw_attribute.old.items,
          chars start_tag.now.after.now,
        ) }
    requires bare { element.old ≡ tree_of (raw_name_view start_tag.now.written) [] [] (last []) }
    ensures reads_rule { IsSameResult (λ rest. (element.new, chars rest.now)) result
        (read_element (inner + 1) (lists bindings.old) depth (chars text.now)) }
    ensures bindings_restored { OnOk result (HasSameOpenElements bindings.old bindings.new) }
{
    let all = raw_attribute.as_slice();
    let decls = decls_of(alloc, all)?;
    let attrs = all.len().saturating_sub(decls.len());
    bindings.enter(alloc, decls)?;
    check_tag_names(alloc, text, bindings, element.name(), all, start_tag)?;
    push_attrs(element, raw_attribute, attrs)?;
    let rest = element_rest(
        alloc,
        bindings,
        depth + 1,
        inner,
        raw_attribute,
        start_tag,
        element,
    )?;
    let decls = bindings.leave();
    push_decls(element, decls)?;
    Ok(rest)
}

/// Appends an element at this depth, with at most this many levels, to content, and returns what
/// follows it. The element is built in place.
#[inline(never)]
#[cycle(nested)]
fn read_child_into<'a>(
    alloc: Global,
    text: &'a str,
    bindings: &mut Bindings,
    depth: usize,
    levels: usize,
    raw_attribute: &mut Vec<RawAttribute<'a>>,
    parent: &mut Element,
) -> Result<&'a str, ParseError<'a>>
    requires namespaces_in_step { AreOpenNamespaces bindings.old }
    requires depth_bounded { depth + levels ≤ 1000 }
    ensures reads_rule { IsSameResult (λ rest. (parent.new, chars rest.now)) result
        (read_child parent.old (read_element levels (lists bindings.old) depth) (chars text.now)) }
    ensures bindings_restored { OnOk result (HasSameOpenElements bindings.old bindings.new) }
{
    let Some(inner) = levels.checked_sub(1) else {
        return Err(level_error(text, depth));
    };
    let start_tag = read_whole_tag(alloc, text, raw_attribute)?;
    let mut nodes = parent.take_nodes();
    push_empty_element(alloc, &mut nodes, &start_tag)?;
    let child = last_elem(&mut nodes);
    let rest = fill_element(
        alloc,
        text,
        bindings,
        depth,
        inner,
        raw_attribute,
        &start_tag,
        child,
    )?;
    parent.put_nodes(nodes);
    Ok(rest)
}

/// The empty element of a start tag.
fn empty_element(alloc: Global, start_tag: &RawStartTag<'_>) -> Result<Element, AllocError>
    ensures bare { IfOk result
        (λ made. made ≡ tree_of (raw_name_view start_tag.now.written) [] [] (last [])) }
{
    let name = to_owned_name(alloc, &start_tag.written)?;
    Ok(Element::new(alloc, name))
}

/// An element at this depth, with at most this many levels, and what follows it.
pub fn element<'a>(
    alloc: Global,
    text: &'a str,
    bindings: &mut Bindings,
    depth: usize,
    levels: usize,
) -> Result<(Element, &'a str), ParseError<'a>>
    requires namespaces_in_step { AreOpenNamespaces bindings.old }
    requires depth_bounded { depth + levels ≤ 1000 }
    ensures reads_rule { IsSameResult (λ x. (x.0, chars x.1.now)) result
        (read_element levels (lists bindings.old) depth (chars text.now)) }
    ensures bindings_restored { OnOk result (HasSameOpenElements bindings.old bindings.new) }
{
    let Some(inner) = levels.checked_sub(1) else {
        return Err(level_error(text, depth));
    };
    let mut raw_attribute = Vec::new(alloc);
    let start_tag = read_whole_tag(alloc, text, &mut raw_attribute)?;
    let mut element = empty_element(alloc, &start_tag)?;
    let rest = fill_element(
        alloc,
        text,
        bindings,
        depth,
        inner,
        &mut raw_attribute,
        &start_tag,
        &mut element,
    )?;
    drop(raw_attribute);
    Ok((element, rest))
}
