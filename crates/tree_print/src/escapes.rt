//! Texts as printed, with references in place of the characters that would be read otherwise.
ghost use Rattle.std.specs.Prelude.{◌≡◌, ◌++◌, ◌∷◌, [], ◌<◌, length, take, get_or, chars, flat_map};
ghost use Rattle.std.specs.Prelude.{IsTrue, IfSome, IfNone, OnOk};
ghost use Rattle.tree_print.specs.inner.Escapes.{escaped_char};

use crate::output::Output;
use std::alloc::AllocError;
use xml_names::{is_plain_text, is_plain_value, text_reference, value_reference};

/// Where a text is printed.
#[derive(Clone, Copy)]
pub enum EscapeContext {
    /// Between tags.
    Content,
    /// In a value between double quotes.
    Quotes,
}

/// Whether each byte of a text is printed as itself.
#[inline(always)]
pub(crate) fn is_plain(place: EscapeContext, bytes: &[u8]) -> bool
    ensures plain_unescaped { IsTrue result → flat_map (escaped_char place) bytes.now ≡ bytes.now }
{
    match place {
        EscapeContext::Content => is_plain_text(bytes),
        EscapeContext::Quotes => is_plain_value(bytes),
    }
}

/// The reference that a byte of a text is printed as, unless it is printed as itself.
#[inline(always)]
#[tactic(auto, using(crate::proofs::EscapeLemmas::escape_high))]
fn reference(place: EscapeContext, byte: u8) -> Option<&'static str>
    ensures byte_reference { IfSome result
        (λ reference. chars reference.now ≡ escaped_char place byte) }
    ensures is_ascii { IfSome result (λ _. byte < 128) }
    ensures none_is_plain { IfNone result (escaped_char place byte ≡ byte ∷ []) }
{
    if byte >= 128 {
        return None;
    }
    match place {
        EscapeContext::Content => text_reference(byte as char),
        EscapeContext::Quotes => value_reference(byte as char),
    }
}

/// The index of the first byte that is printed as a reference, and the reference.
#[inline(always)]
#[tactic(auto, using(crate::proofs::EscapeLemmas::plain_more))]
pub(crate) fn first_reference(place: EscapeContext, bytes: &[u8]) -> Option<(usize, &'static str)>
    ensures is_there { IfSome result (λ first. first.0 < length bytes.now) }
    ensures is_ascii { IfSome result (λ first. get_or bytes.now first.0 0 < 128) }
    ensures plain_in_front { IfSome result
        (λ first. flat_map (escaped_char place) (take first.0 bytes.now) ≡ take first.0 bytes.now) }
    ensures byte_reference { IfSome result
        (λ first. chars first.1.now ≡ escaped_char place (get_or bytes.now first.0 0)) }
    ensures none_all_plain { IfNone result (flat_map (escaped_char place) bytes.now ≡ bytes.now) }
{
    for (at, &byte) in bytes.iter().enumerate() {
        if let Some(reference) = reference(place, byte) {
            return Some((at, reference));
        }
    }
    None
}

/// Appends a text as printed in a place. Most texts contain nothing that is printed as a
/// reference.
#[inline(always)]
pub fn push_escaped(out: &mut Output, text: &str, place: EscapeContext) -> Result<(), AllocError>
    ensures appended { OnOk result
        (out.new ≡ out.old ++ flat_map (escaped_char place) (chars text.now)) }
{
    if is_plain(place, text.as_bytes()) {
        return out.push_str(text);
    }
    push_escaped_parts(out, text, place)
}

/// `push_escaped` in parts: runs of plain characters at once, and references between them.
#[inline(never)]
fn push_escaped_parts(out: &mut Output, text: &str, place: EscapeContext) -> Result<(), AllocError>
    ensures appended { OnOk result
        (out.new ≡ out.old ++ flat_map (escaped_char place) (chars text.now)) }
{
    let mut rest = text;
    'references: while let Some((at, reference)) = first_reference(place, rest.as_bytes()) {
        out.push_str(&rest[..at])?;
        out.push_str(reference)?;
        rest = &rest[at + 1..];
    }
    out.push_str(rest)
}
