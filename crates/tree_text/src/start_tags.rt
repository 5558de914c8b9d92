//! Start tags and the tags of empty elements.
ghost use Rattle.std.specs.Prelude.{◌≡◌, ◌++◌, ◌∷◌, true, [], chars, length, is_some, IfOk, IfSome};
ghost use Rattle.std.specs.Prelude.{Ok};
ghost use Rattle.std.specs.List.{list_all};
ghost use Rattle.xml_grammar.specs.TextReading.{drop_while, read_mapped};
ghost use Rattle.xml_grammar.specs.readers.RuleReaders.{read_quoted, read_with_length};
ghost use Rattle.xml_names.specs.Characters.{is_space};
ghost use Rattle.xml_tokens.specs.readers.ReadResults.{IsSameResult};
ghost use Rattle.xml_tokens.specs.Tokens.{is_quote};
ghost use Rattle.xml_tokens.specs.readers.Tokens.{read_required_spaces, read_value};
ghost use Rattle.tree_text.specs.readers.Texts.{read_attribute, read_raw_attributes};
ghost use Rattle.tree_text.specs.readers.Texts.{raw_attribute_follows};
ghost use Rattle.tree_text.specs.readers.Texts.{read_tag_end, read_tag};
ghost use Rattle.tree_text.specs.readers.TagValues.{raw_attribute_of};
ghost use Rattle.tree_text.specs.readers.Views.{BeginsWithLocal, tag_view};

use crate::raw_attribute::RawAttribute;
use crate::text_span::Size;
use std::alloc::Global;
use xml_grammar::{is_next, strip_char};
use xml_names::{Name, Text};
use xml_tokens::{
    Class, ParseError, RawName, ascii_letter, common_qname, equals, is_space_next, letter,
    owned_qname, quote, run, spaces, starts_with_name, value, word,
};

/// A start tag, or the tag of an empty element, without its raw attributes.
#[derive(Clone, Copy)]
pub struct RawStartTag<'a> {
    /// The text from its name on.
    pub from: &'a str,
    /// Its name, as written in the text.
    pub written: RawName<'a>,
    pub is_empty: bool,
    /// What follows it.
    pub after: &'a str,
}

/// A value in quotes, and what follows it.
fn read_quoted_value(alloc: Global, text: &str) -> Result<(Text, &str), ParseError<'_>>
    ensures reads_rule { IsSameResult (λ x. (x.0, chars x.1.now)) result
        (read_quoted is_quote read_value (chars text.now)) }
{
    let (quote, rest) = quote(text)?;
    let (value, rest) = value(alloc, rest, quote)?;
    Ok((value, letter(rest, quote)?))
}

/// A name, Eq and a value in quotes, and what follows them.
fn attribute(alloc: Global, text: &str) -> Result<(Name, Text, &str), ParseError<'_>>
    ensures reads_rule { IsSameResult (λ x. ((x.0, x.1), chars x.2.now)) result
        (read_attribute (chars text.now)) }
{
    let (name, _, rest) = owned_qname(alloc, text)?;
    let (_, rest) = equals(rest)?;
    let (value, rest) = read_quoted_value(alloc, rest)?;
    Ok((name, value, rest))
}

/// How many characters white space has: as many as bytes.
#[inline(always)]
fn space_width(white: &str) -> usize
    requires { list_all is_space (chars white.now) ≡ true }
    ensures exact { result ≡ length (chars white.now) }
{
    white.len()
}

/// The white space at the front and what follows it, if an attribute follows.
#[inline(always)]
fn split_before_attribute(text: &str) -> Option<(&str, &str)>
    ensures reads_space { IfSome result
        (λ x. read_required_spaces (chars text.now) ≡ Ok (chars x.0.now, chars x.1.now)) }
    ensures all_space { IfSome result (λ x. list_all is_space (chars x.0.now) ≡ true) }
    ensures some_iff_attribute { is_some result ≡ raw_attribute_follows (chars text.now) }
{
    if !is_space_next(text) {
        return None;
    }
    let (white, from) = run(text, Class::Space);
    if !starts_with_name(from) {
        return None;
    }
    Some((white, from))
}

/// Appends the attribute that begins here, after this white space, and returns what follows it.
#[inline(always)]
fn push_raw_attribute<'a>(
    alloc: Global,
    white: &str,
    from: &'a str,
    all: &mut Vec<RawAttribute<'a>>,
) -> Result<&'a str, ParseError<'a>>
    requires { list_all is_space (chars white.now) ≡ true }
    ensures reads_rule { IsSameResult (λ rest. (all.new.items, chars rest.now)) result
        (read_mapped (λ x. all.old.items ++ raw_attribute_of (chars white.now, x) ∷ [])
        (read_with_length read_attribute) (chars from.now)) }
{
    let (name, value, rest) = attribute(alloc, from)?;
    let gap = space_width(white);
    let size = Size::of_text_before(from, rest);
    let raw_attribute = RawAttribute {
        name,
        value,
        gap,
        size,
    };
    all.push(raw_attribute)?;
    Ok(rest)
}

/// Reads all attributes, each after white space, into an empty list, and returns what follows
/// them.
#[inline(never)]
fn fill_raw_attributes<'a>(
    alloc: Global,
    text: &'a str,
    all: &mut Vec<RawAttribute<'a>>,
) -> Result<&'a str, ParseError<'a>>
    requires { all.old.items ≡ [] }
    ensures reads_rule { IsSameResult (λ rest. (all.new.items, chars rest.now)) result
        (read_raw_attributes (chars text.now)) }
{
    let mut rest = text;
    for _ in 0..text.len() {
        let Some((white, from)) = split_before_attribute(rest) else {
            break;
        };
        rest = push_raw_attribute(alloc, white, from, all)?;
    }
    Ok(rest)
}

/// Replaces the list by all attributes, each after white space, and returns what follows them.
/// Many tags have none.
#[inline(always)]
fn all_raw_attributes<'a>(
    alloc: Global,
    text: &'a str,
    all: &mut Vec<RawAttribute<'a>>,
) -> Result<&'a str, ParseError<'a>>
    ensures reads_rule { IsSameResult (λ rest. (all.new.items, chars rest.now)) result
        (read_raw_attributes (chars text.now)) }
{
    all.clear();
    if !is_space_next(text) {
        return Ok(text);
    }
    fill_raw_attributes(alloc, text, all)
}

/// Whether the tag is the tag of an empty element, and what follows its end.
#[inline(always)]
fn tag_end(text: &str) -> Result<(bool, &str), ParseError<'_>>
    ensures reads_rule { IsSameResult (λ x. (x.0, chars x.1.now)) result
        (read_tag_end (chars text.now)) }
{
    if is_next(text, '/') {
        let rest = word(text, &['/', '>'])?;
        return Ok((true, rest));
    }
    let rest = ascii_letter(text, '>')?;
    Ok((false, rest))
}

/// `tag_end` after optional white space. Most tags end at once.
#[inline(always)]
fn tag_rest(text: &str) -> Result<(bool, &str), ParseError<'_>>
    ensures reads_rule { IsSameResult (λ x. (x.0, chars x.1.now)) result
        (read_tag_end (drop_while is_space (chars text.now))) }
{
    if let Some(after) = strip_char(text, '>') {
        return Ok((false, after));
    }
    let (_, rest) = spaces(text);
    tag_end(rest)
}

/// A whole tag. Its raw attributes replace the given ones.
#[inline(always)]
pub fn read_whole_tag<'a>(
    alloc: Global,
    text: &'a str,
    raw_attribute: &mut Vec<RawAttribute<'a>>,
) -> Result<RawStartTag<'a>, ParseError<'a>>
    ensures reads_rule { IsSameResult
        (λ x. (tag_view (chars text.now) x raw_attribute.new.items, chars x.after.now)) result
        (read_tag (chars text.now)) }
    ensures unprefixed_in_front { IfOk result BeginsWithLocal }
{
    let from = ascii_letter(text, '<')?;
    let (written, rest) = common_qname(from)?;
    let rest = all_raw_attributes(alloc, rest, raw_attribute)?;
    let (is_empty, after) = tag_rest(rest)?;
    Ok(RawStartTag {
        from,
        written,
        is_empty,
        after,
    })
}
