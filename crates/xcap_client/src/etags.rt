// The entity tag of a response (RFC 9110, section 8.8.3).
ghost use Rattle.std.specs.Prelude.{◌≡◌, ℕ, List, [], ◌∷◌, ◌++◌, All, map, length, IfOk};
ghost use Rattle.std.specs.Prelude.{MatchOption, Some};
ghost use Rattle.std.specs.List.{list_all};
ghost use Rattle.httparse.specs.Spans.{IsHeaderWithin, header_bytes};
ghost use Rattle.request_checks.specs.Tags.{is_tag_byte};
ghost use Rattle.xcap_client.specs.ResponseTags.{IsEntityTagOf, IsTagOf};
ghost use Rattle.xcap_client.specs.inner.QuotedTags.{IsQuotedTag};

use http_wire::{FieldLookup, find_field};
use httparse::spans::HeaderSpan;
use request_checks::is_tag_byte;
use std::alloc::{AllocError, Global};
use std::str::from_utf8;
use xml_names::Text;

fn are_tag_bytes(bytes: &[u8]) -> bool
    ensures exact { result ≡ list_all is_tag_byte bytes.now }
{
    bytes.iter().all(|byte| is_tag_byte(*byte))
}

// The text between the quotes, where there is a quote at both ends.
fn strip_quotes(text: &[u8]) -> Option<&[u8]>
    ensures enclosed_or_none { MatchOption result
        ((opaque : List ℕ) → ¬ (text.now ≡ 34 ∷ (opaque ++ 34 ∷ [])))
        (λ opaque. text.now ≡ 34 ∷ (opaque.now ++ 34 ∷ [])) }
{
    match text {
        [b'"', opaque @ .., b'"'] => Some(opaque),
        _ => None,
    }
}

// The text between the quotes, where each byte is allowed in a tag.
fn unquote(text: &[u8]) -> Option<&[u8]>
    ensures quoted_or_none { MatchOption result
        ((opaque : List ℕ) → ¬ (IsQuotedTag text.now opaque))
        (λ opaque. IsQuotedTag text.now opaque.now) }
{
    match strip_quotes(text) {
        Some(opaque) if are_tag_bytes(opaque) => Some(opaque),
        _ => None,
    }
}

// The text between the quotes of an entity tag, weak or not.
fn opaque_tag(value: &[u8]) -> Option<&[u8]>
    ensures opaque_or_none { MatchOption result
        ((opaque : List ℕ) → ¬ (IsEntityTagOf value.now opaque))
        (λ opaque. IsEntityTagOf value.now opaque.now) }
{
    match value {
        [b'W', b'/', text @ ..] => unquote(text),
        _ => unquote(value),
    }
}

// The entity tag of the fields, if they have one.
pub fn read_tag(
    alloc: Global,
    buf: &[u8],
    headers: &[HeaderSpan],
) -> Result<Option<Text>, AllocError>
    requires { All (IsHeaderWithin (length buf.now)) headers.now }
    ensures tag_or_none { IfOk result (IsTagOf (map (header_bytes buf.now) headers.now)) }
{
    let FieldLookup::Once(value) = find_field(buf, headers, b"etag") else {
        return Ok(None);
    };
    let Some(opaque) = opaque_tag(value) else {
        return Ok(None);
    };
    match from_utf8(opaque) {
        Ok(tag) => Ok(Some(Text::from(alloc, tag)?)),
        Err(_) => Ok(None),
    }
}
