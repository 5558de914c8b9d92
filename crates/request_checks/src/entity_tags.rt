//! Lists of entity tags (RFC 9110, sections 5.6.1 and 8.8.3).
ghost use Rattle.std.specs.Prelude.{◌≡◌, ◌≤◌, ◌<◌, ◌++◌, ◌∷◌, [], length, Some, None, IfOk, OnOk};
ghost use Rattle.std.specs.Prelude.{IsErrOf, MatchOption};
ghost use Rattle.std.specs.List.{prefix_len};
ghost use Rattle.request_checks.specs.Tags.{is_tag_byte, is_ows_byte};
ghost use Rattle.request_checks.specs.readers.Fields.{Before, AfterTag, after_blanks, IsTrimmed};
ghost use Rattle.request_checks.specs.readers.Fields.{after_byte, after_closing_quote};
ghost use Rattle.request_checks.specs.readers.Fields.{opaque_front, first_tag};
ghost use Rattle.request_checks.specs.readers.Fields.{tags_from, with_tags, entity_tag};

use crate::ConditionFault;
use std::alloc::{AllocError, Global};
use xcap_io::Bytes;

/// An entity tag.
#[derive(Drop)]
pub struct EntityTag {
    /// Whether it begins with `W/`.
    pub weak: bool,
    /// The bytes between its quotes.
    pub opaque: Bytes,
}

// A tag at the front of a text: whether it is weak, the bytes between its quotes, and the text
// after it.
#[derive(Drop)]
struct TagScan<'a> {
    weak: bool,
    opaque: &'a [u8],
    rest: &'a [u8],
}

fn is_blank(byte: u8) -> bool
    ensures exact { result ≡ is_ows_byte byte }
{
    byte == b' ' || byte == b'\t'
}

/// Whether an entity tag may have this byte between its quotes (RFC 9110, section 8.8.3).
pub fn is_tag_byte(byte: u8) -> bool
    ensures exact { result ≡ is_tag_byte byte }
{
    byte == 0x21 || (byte >= 0x23 && byte <= 0x7e) || byte >= 0x80
}

fn after_blanks(mut text: &[u8]) -> &[u8]
    ensures exact { result.now ≡ after_blanks text.now }
    ensures rest_shrinks { length result.now ≤ length text.now }
{
    'blanks: while let [first, rest @ ..] = text
        && is_blank(*first)
    {
        text = rest;
    }
    text
}

fn opaque_len(text: &[u8]) -> usize
    ensures exact { result ≡ prefix_len is_tag_byte text.now }
    ensures lies_within { result ≤ length text.now }
{
    for (len, byte) in text.iter().enumerate() {
        if !is_tag_byte(*byte) {
            return len;
        }
    }
    text.len()
}

fn strip_quote(text: &[u8]) -> Option<&[u8]>
    ensures after_quote { MatchOption result (after_byte 34 text.now ≡ None)
        (λ rest. (after_byte 34 text.now ≡ Some rest.now) × (length rest.now ≤ length text.now)) }
{
    match text {
        [b'"', rest @ ..] => Some(rest),
        _ => None,
    }
}

fn strip_comma(text: &[u8]) -> Option<&[u8]>
    ensures after_comma { MatchOption result (after_byte 44 text.now ≡ None)
        (λ rest. (after_byte 44 text.now ≡ Some rest.now) × (length rest.now < length text.now)) }
{
    match text {
        [b',', rest @ ..] => Some(rest),
        _ => None,
    }
}

// The tag whose opening quote was just passed, if its bytes are allowed and a quote closes it.
fn scan_quoted_tag(weak: bool, text: &[u8]) -> Option<TagScan<'_>>
    ensures quoted_tag { MatchOption result (after_closing_quote text.now ≡ None)
        (λ f. (f.weak ≡ weak) × (f.opaque.now ≡ opaque_front text.now)
        × (after_closing_quote text.now ≡ Some f.rest.now)
        × (length f.rest.now ≤ length text.now)) }
{
    let len = opaque_len(text);
    let opaque = &text[..len];
    let rest = strip_quote(&text[len..])?;
    Some(TagScan { weak, opaque, rest })
}

fn first_tag(text: &[u8]) -> Option<TagScan<'_>>
    ensures tag_and_rest { MatchOption result (first_tag text.now ≡ None)
        (λ f. (first_tag text.now ≡ Some (entity_tag f.weak f.opaque.now, f.rest.now))
        × (length f.rest.now ≤ length text.now)) }
{
    match text {
        [b'"', rest @ ..] => scan_quoted_tag(false, rest),
        [b'W', b'/', b'"', rest @ ..] => scan_quoted_tag(true, rest),
        _ => None,
    }
}

// Appends a tag.
fn push_etag(
    alloc: Global,
    tags: &mut Vec<EntityTag>,
    weak: bool,
    opaque: &[u8],
) -> Result<(), AllocError>
    ensures appended { OnOk result
        (tags.new.items ≡ tags.old.items ++ entity_tag weak opaque.now ∷ []) }
{
    let opaque = Bytes::from(alloc, opaque)?;
    tags.push(EntityTag { weak, opaque })?;
    Ok(())
}

// Reads a part of a list with the blanks around it, and returns the text after it.
fn read_list_part<'a>(
    alloc: Global,
    text: &'a [u8],
    tags: &mut Vec<EntityTag>,
) -> Result<&'a [u8], AllocError>
    ensures reads_rule { IfOk result
        (λ rest. with_tags tags.old.items (tags_from Before text.now)
        ≡ with_tags tags.new.items (tags_from AfterTag rest.now)) }
    ensures no_leading_blank { IfOk result (λ rest. IsTrimmed rest.now) }
    ensures rest_shrinks { IfOk result (λ rest. length rest.now ≤ length text.now) }
{
    let text = after_blanks(text);
    match first_tag(text) {
        None => Ok(text),
        Some(front) => {
            push_etag(alloc, tags, front.weak, front.opaque)?;
            Ok(after_blanks(front.rest))
        }
    }
}

/// The tags of a list, whose parts may be empty.
///
/// # Errors
/// `BadCondition` where the text is no list of entity tags; `NoMemory` when out of memory.
#[tactic(auto, using(crate::proofs::Fronts::comma_reads))]
pub(crate) fn read_tags(alloc: Global, text: &[u8]) -> Result<Vec<EntityTag>, ConditionFault>
    ensures reads_rule { IfOk result (λ tags. tags_from Before text.now ≡ Some tags.items) }
    ensures refused_no_reading { IsErrOf result ConditionFault.BadCondition
        → tags_from Before text.now ≡ None }
{
    let mut tags = Vec::new(alloc);
    let mut rest = text;
    'parts: loop {
        rest = read_list_part(alloc, rest, &mut tags)?;
        if rest.is_empty() {
            return Ok(tags);
        }
        match strip_comma(rest) {
            Some(more) => rest = more,
            None => return Err(ConditionFault::BadCondition),
        }
    }
}
