//! Names as written in a text.
ghost use Rattle.std.specs.Prelude.{◌≡◌, ◌+◌, ◌<◌, ◌≤◌, ◌^◌, suc, [], ◌∷◌, ◌++◌, chars, length};
ghost use Rattle.std.specs.Prelude.{take, IfOk, IfSome};
ghost use Rattle.xml_grammar.specs.TextReading.{read_word};
ghost use Rattle.xml_grammar.specs.readers.RuleReaders.{read_second};
ghost use Rattle.xml_tokens.specs.readers.ReadResults.{IsSameResult};
ghost use Rattle.xml_tokens.specs.Values.{qname_text};
ghost use Rattle.xml_tokens.specs.readers.Tokens.{colon_follows, read_name, read_qname};
ghost use Rattle.xml_tokens.specs.readers.Tokens.{read_end_tag};
ghost use Rattle.xml_tokens.specs.readers.TokenViews.{raw_name_view};
ghost use Rattle.xml_tokens.specs.readers.Literals.{colon, end_tag_start};

use crate::parse_error::ParseError;
use crate::tokens::{ascii_letter, exact_text, letter, name, spaces, strip_bytes};
use std::alloc::{AllocError, Global};
use xml_grammar::{count, empty_str, is_at_end, is_next, split_first, strip_char};
use xml_names::{LocalName, Name, Prefix};

/// A name in a text: its prefix, empty if it has none, and its local part.
#[derive(Clone, Copy)]
pub struct RawName<'a> {
    pub prefix: &'a str,
    pub local: &'a str,
}

#[inline(always)]
fn colon_follows(text: &str) -> bool
    ensures exact { result ≡ colon_follows (chars text.now) }
{
    is_next(text, ':')
}

/// A name, with a prefix or without, and what follows it.
///
/// # Errors
/// The stop of the rule, with the rest of the text there.
pub fn qname(text: &str) -> Result<(RawName<'_>, &str), ParseError<'_>>
    ensures reads_rule { IsSameResult (λ x. (raw_name_view x.0, chars x.1.now)) result
        (read_qname (chars text.now)) }
{
    common_qname(text)
}

/// The local part of a name after its prefix, and what follows it.
#[inline(never)]
fn local_part(text: &str) -> Result<(&str, &str), ParseError<'_>>
    ensures reads_rule { IsSameResult (λ x. (chars x.0.now, chars x.1.now)) result
        (read_second (read_word colon) read_name (chars text.now)) }
{
    let rest = letter(text, ':')?;
    name(rest)
}

/// `qname` for the common case: most names have no prefix.
///
/// # Errors
/// The stop of the rule, with the rest of the text there.
#[inline(always)]
pub fn common_qname(text: &str) -> Result<(RawName<'_>, &str), ParseError<'_>>
    ensures reads_rule { IsSameResult (λ x. (raw_name_view x.0, chars x.1.now)) result
        (read_qname (chars text.now)) }
    ensures unprefixed_in_front { IfOk result
        (λ x. chars x.0.prefix.now ≡ [] → x.0.local.now ≡ take (length x.0.local.now) text.now) }
{
    let (first, rest) = name(text)?;
    if !colon_follows(rest) {
        let prefix = empty_str();
        return Ok((
            RawName {
                prefix,
                local: first,
            },
            rest,
        ));
    }
    let (local, rest) = local_part(rest)?;
    Ok((
        RawName {
            prefix: first,
            local,
        },
        rest,
    ))
}

/// What follows a name written like this one, which has a prefix.
#[inline(never)]
#[tactic(auto, using(crate::proofs::NameLemmas::word_then, crate::proofs::NameLemmas::prefixed))]
fn match_prefixed_name<'a>(text: &'a str, name: &RawName<'_>) -> Result<&'a str, ParseError<'a>>
    requires { 0 < length (chars name.now.prefix.now) }
    ensures reads_rule { IsSameResult (λ rest. (tt, chars rest.now)) result
        (read_word (qname_text (raw_name_view name.now)) (chars text.now)) }
{
    let rest = exact_text(text, name.prefix)?;
    let rest = letter(rest, ':')?;
    exact_text(rest, name.local)
}

/// What follows a name written like this one. Most have no prefix.
#[inline(always)]
fn match_name<'a>(text: &'a str, name: &RawName<'_>) -> Result<&'a str, ParseError<'a>>
    ensures reads_rule { IsSameResult (λ rest. (tt, chars rest.now)) result
        (read_word (qname_text (raw_name_view name.now)) (chars text.now)) }
{
    match split_first(name.prefix) {
        Some(_) => match_prefixed_name(text, name),
        None => exact_text(text, name.local),
    }
}

/// What follows the beginning of an end tag.
#[inline(always)]
fn end_tag_start(text: &str) -> Result<&str, ParseError<'_>>
    ensures reads_rule { IsSameResult (λ rest. (tt, chars rest.now)) result
        (read_word end_tag_start (chars text.now)) }
{
    match strip_char(text, '<') {
        Some(rest) => ascii_letter(rest, '/'),
        None => Err(ParseError::Syntax(text)),
    }
}

/// What follows the end tag of an element of this name without a prefix, if it contains no white
/// space.
#[inline(always)]
fn strip_plain_end_tag<'a>(text: &'a str, local: &str) -> Option<&'a str>
    ensures end_tag_rest { IfSome result
        (λ rest. chars text.now ≡ 60 ∷ 47 ∷ (chars local.now ++ 62 ∷ chars rest.now)) }
{
    let rest = strip_char(text, '<')?;
    let rest = strip_char(rest, '/')?;
    let rest = strip_bytes(rest, local)?;
    strip_char(rest, '>')
}

/// What follows the end tag of an element of a name of these parts.
#[inline(never)]
fn any_end_tag<'a>(text: &'a str, prefix: &str, local: &str) -> Result<&'a str, ParseError<'a>>
    ensures reads_rule { IsSameResult (λ rest. (tt, chars rest.now)) result
        (read_end_tag (record { prefix = chars prefix.now; local = chars local.now })
        (chars text.now)) }
{
    let name = RawName { prefix, local };
    let rest = end_tag_start(text)?;
    let rest = match_name(rest, &name)?;
    let (_, rest) = spaces(rest);
    ascii_letter(rest, '>')
}

/// What follows the end tag of an element of a name without a prefix. Most contain no white
/// space.
#[inline(always)]
fn local_end_tag<'a>(text: &'a str, local: &str) -> Result<&'a str, ParseError<'a>>
    ensures reads_rule { IsSameResult (λ rest. (tt, chars rest.now)) result
        (read_end_tag (record { prefix = []; local = chars local.now }) (chars text.now)) }
{
    if let Some(rest) = strip_plain_end_tag(text, local) {
        return Ok(rest);
    }
    let rest = any_end_tag(text, empty_str(), local)?;
    Ok(rest)
}

/// What follows the end tag of an element of this name. Most names have no prefix.
///
/// # Errors
/// The stop of the rule, with the rest of the text there.
#[inline(always)]
pub fn end_tag<'a>(text: &'a str, name: &RawName<'_>) -> Result<&'a str, ParseError<'a>>
    ensures reads_rule { IsSameResult (λ rest. (tt, chars rest.now)) result
        (read_end_tag (raw_name_view name.now) (chars text.now)) }
{
    if is_at_end(name.prefix) {
        return local_end_tag(text, name.local);
    }
    let rest = any_end_tag(text, name.prefix, name.local)?;
    Ok(rest)
}

/// The prefix of a name as an owned text. Most names have none.
fn prefix_of(alloc: Global, name: &RawName<'_>) -> Result<Prefix, AllocError>
    ensures ok { IfOk result (λ prefix. prefix ≡ chars name.now.prefix.now) }
{
    match split_first(name.prefix) {
        Some(_) => Prefix::from(alloc, name.prefix),
        None => Ok(Prefix::empty()),
    }
}

/// The name as an owned `Name`.
///
/// # Errors
/// `AllocError` when out of memory.
pub fn to_owned_name(alloc: Global, name: &RawName<'_>) -> Result<Name, AllocError>
    ensures ok { IfOk result (λ to_owned_name. to_owned_name ≡ raw_name_view name.now) }
{
    let prefix = prefix_of(alloc, name)?;
    let local = LocalName::from(alloc, name.local)?;
    Ok(Name { prefix, local })
}

/// The owned name without a prefix that a text begins with.
#[inline(always)]
fn to_owned_local<'a>(
    alloc: Global,
    text: &str,
    local: &'a str,
) -> Result<(Name, RawName<'a>), AllocError>
    requires is_front { local.now ≡ take (length local.now) text.now }
    ensures unprefixed_name { IfOk result
        (λ x. x.0 ≡ record { prefix = []; local = chars local.now }) }
    ensures name_as_written { IfOk result (λ x. x.0 ≡ raw_name_view x.1) }
{
    let prefix = Prefix::empty();
    let own = LocalName::from_front(alloc, local, text.as_bytes())?;
    let written = RawName {
        prefix: empty_str(),
        local,
    };
    Ok((Name { prefix, local: own }, written))
}

/// An owned name, with a prefix or without; how it is written, and what follows it. Most names
/// have no prefix.
///
/// # Errors
/// The stop of the rule, with the rest of the text there; `Memory` when out of memory.
#[inline(always)]
pub fn owned_qname(alloc: Global, text: &str) -> Result<(Name, RawName<'_>, &str), ParseError<'_>>
    ensures reads_rule { IsSameResult (λ x. (x.0, chars x.2.now)) result
        (read_qname (chars text.now)) }
    ensures name_as_written { IfOk result (λ x. x.0 ≡ raw_name_view x.1) }
{
    let (first, rest) = name(text)?;
    if !colon_follows(rest) {
        let (name, written) = to_owned_local(alloc, text, first)?;
        return Ok((name, written, rest));
    }
    owned_prefixed_name(alloc, text)
}

/// `owned_qname` for any name.
#[inline(never)]
fn owned_prefixed_name(
    alloc: Global,
    text: &str,
) -> Result<(Name, RawName<'_>, &str), ParseError<'_>>
    ensures reads_rule { IsSameResult (λ x. (x.0, chars x.2.now)) result
        (read_qname (chars text.now)) }
    ensures name_as_written { IfOk result (λ x. x.0 ≡ raw_name_view x.1) }
{
    let (written, rest) = qname(text)?;
    let name = to_owned_name(alloc, &written)?;
    Ok((name, written, rest))
}

/// How many characters of a tag of this name come before its attributes: `<` and the name.
#[inline(always)]
pub fn tag_front_len(name: &RawName<'_>) -> usize
    requires { 2 + length (chars name.now.prefix.now) + length (chars name.now.local.now) < 2 ^ 64 }
    ensures exact { result ≡ suc (length (qname_text (raw_name_view name.now))) }
    ensures is_no_more { result ≤ 2 + length (chars name.now.prefix.now) + length
        (chars name.now.local.now) }
{
    let prefix = count(name.prefix);
    let local = count(name.local);
    if prefix == 0 {
        return 1 + local;
    }
    2 + prefix + local
}
