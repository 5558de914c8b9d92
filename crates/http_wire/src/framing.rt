// What a head's fields say about its body and the connection (RFC 9112, sections 3.2, 6.3 and
// 9.6).
ghost use Rattle.std.specs.Prelude.{◌≡◌, ◌+◌, ◌==◌, ◌||◌, ℕ, List, [], ◌∷◌, ◌++◌, min, All, map};
ghost use Rattle.std.specs.Prelude.{length, reverse, Some, None, nat_lt, not, codes, if◌then◌else◌};
ghost use Rattle.std.specs.Str.Parse.{digits_value};
ghost use Rattle.httparse.specs.Grammar.{skip_ows, trim_ows};
ghost use Rattle.httparse.specs.Spans.{IsHeaderWithin, header_bytes};
ghost use Rattle.http_wire.specs.Fields.{same_ignoring_case, field_values, is_number};
ghost use Rattle.http_wire.specs.Fields.{has_close_option};
ghost use Rattle.http_wire.specs.Fields.{asks_to_close, IsLookupOf};
ghost use Rattle.http_wire.specs.Framing.{lacks_host, framing_of_lengths, framing_of_codings};
ghost use Rattle.http_wire.specs.Framing.{framing};
ghost use Rattle.http_wire.specs.inner.ReadBuffer.{HasLengthWithinLimit};

use crate::limits::MAX_BODY_BYTES;
use httparse::is_space_or_tab;
use httparse::spans::HeaderSpan;

/// The framing of a body, by the fields of its head.
#[derive(Clone, Copy, PartialEq, Eq)]
pub enum Framing {
    /// The fields are not acceptable.
    Bad,
    /// A transfer coding other than `chunked`.
    Coded,
    /// A length beyond the limit.
    TooLong,
    /// A body of this many bytes.
    Length(usize),
    /// A chunked body.
    Chunked,
}

/// The result of looking up a field by name.
#[derive(Clone, Copy)]
pub enum FieldLookup<'b> {
    /// No field has the name.
    Absent,
    /// One field has the name, with this value.
    Once(&'b [u8]),
    /// Several fields have the name.
    Repeated,
}

/// Whether two byte strings are equal, ignoring the case of ASCII letters.
pub fn is_same_ignoring_case(a: &[u8], b: &[u8]) -> bool
    ensures exact { result ≡ same_ignoring_case a.now b.now }
{
    a.eq_ignore_ascii_case(b)
}

impl<'b> FieldLookup<'b> {
    fn with_value(self, value: &'b [u8]) -> FieldLookup<'b>
        ensures finds_one_more { (values : List (List ℕ)) → IsLookupOf self.entry values
            → IsLookupOf result (values ++ value.now ∷ []) }
    {
        match self {
            FieldLookup::Absent => FieldLookup::Once(value),
            _ => FieldLookup::Repeated,
        }
    }

    fn is_absent(self) -> bool
        ensures none_found_iff { (values : List (List ℕ)) → IsLookupOf self.entry values
            → result ≡ not (nat_lt 0 (length values)) }
    {
        matches!(self, FieldLookup::Absent)
    }

    fn is_once(self) -> bool
        ensures one_found_iff { (values : List (List ℕ)) → IsLookupOf self.entry values
            → result ≡ (length values == 1) }
    {
        matches!(self, FieldLookup::Once(_))
    }
}

/// Looks up the field of this name among the headers of a head, ignoring the case of letters (RFC
/// 9110, section 5.1).
pub fn find_field<'b>(buf: &'b [u8], headers: &[HeaderSpan], name: &[u8]) -> FieldLookup<'b>
    requires { All (IsHeaderWithin (length buf.now)) headers.now }
    ensures finds_values { IsLookupOf result
        (field_values name.now (map (header_bytes buf.now) headers.now)) }
{
    let mut found = FieldLookup::Absent;
    'fields: for header in headers {
        if is_same_ignoring_case(header.name.of(buf), name) {
            found = found.with_value(header.value.of(buf));
        }
    }
    found
}

// The number that digits write, or the limit plus 1 where it is greater; None if they are not all
// digits.
fn capped_number(digits: &[u8]) -> Option<usize>
    ensures exact { result
        ≡ (if is_number digits.now then Some (min (digits_value 10 digits.now) 262_145) else None) }
{
    if digits.is_empty() {
        return None;
    }
    let mut value = 0;
    'digits: for digit in digits {
        if !digit.is_ascii_digit() {
            return None;
        }
        value = (value * 10 + (*digit - b'0') as usize).min(MAX_BODY_BYTES + 1);
    }
    Some(value)
}

#[tactic(auto, unfolding(crate::specs::Framing::framing_of_lengths))]
fn framing_of_value(value: &[u8]) -> Framing
    ensures fields_framing { result ≡ framing_of_lengths (value.now ∷ []) }
    ensures at_most_limit { HasLengthWithinLimit result }
{
    match capped_number(value) {
        None => Framing::Bad,
        Some(len) if len > MAX_BODY_BYTES => Framing::TooLong,
        Some(len) => Framing::Length(len),
    }
}

#[tactic(auto, unfolding(crate::specs::Framing::lacks_host))]
fn lacks_host(buf: &[u8], headers: &[HeaderSpan], version: u8) -> bool
    requires { All (IsHeaderWithin (length buf.now)) headers.now }
    ensures exact { result ≡ lacks_host version (map (header_bytes buf.now) headers.now) }
{
    version == 1 && !find_field(buf, headers, b"host").is_once()
}

#[tactic(auto, unfolding(crate::specs::Framing::framing_of_lengths))]
fn framing_by_length(lengths: FieldLookup) -> Framing
    ensures at_most_limit { HasLengthWithinLimit result }
    ensures fields_framing { (values : List (List ℕ)) → IsLookupOf lengths.entry values
        → result ≡ framing_of_lengths values }
{
    match lengths {
        FieldLookup::Absent => Framing::Length(0),
        FieldLookup::Once(value) => framing_of_value(value),
        FieldLookup::Repeated => Framing::Bad,
    }
}

#[tactic(auto, unfolding(crate::specs::Framing::framing_of_codings))]
fn framing_by_coding(version: u8, codings: FieldLookup, lengths: FieldLookup) -> Framing
    ensures at_most_limit { HasLengthWithinLimit result }
    ensures fields_framing { (coded values : List (List ℕ)) → IsLookupOf codings.entry coded
        → IsLookupOf lengths.entry values → result ≡ framing_of_codings version coded values }
{
    match codings {
        FieldLookup::Absent => framing_by_length(lengths),
        FieldLookup::Once(coding) if !is_same_ignoring_case(coding, b"chunked") => Framing::Coded,
        FieldLookup::Once(_) if version == 0 || !lengths.is_absent() => Framing::Bad,
        FieldLookup::Once(_) => Framing::Chunked,
        FieldLookup::Repeated => Framing::Coded,
    }
}

// The framing of the body, by the minor version of HTTP.
#[tactic(auto, unfolding(crate::specs::Framing::framing))]
pub fn read_framing(buf: &[u8], headers: &[HeaderSpan], version: u8) -> Framing
    requires { All (IsHeaderWithin (length buf.now)) headers.now }
    ensures at_most_limit { HasLengthWithinLimit result }
    ensures fields_framing { result ≡ framing version (map (header_bytes buf.now) headers.now) }
{
    if lacks_host(buf, headers, version) {
        return Framing::Bad;
    }
    let codings = find_field(buf, headers, b"transfer-encoding");
    let lengths = find_field(buf, headers, b"content-length");
    framing_by_coding(version, codings, lengths)
}

/// The bytes without leading spaces and tabs.
pub fn trim_start(mut bytes: &[u8]) -> &[u8]
    ensures exact { result.now ≡ skip_ows bytes.now }
{
    'blanks: while let [first, rest @ ..] = bytes
        && is_space_or_tab(*first)
    {
        bytes = rest;
    }
    bytes
}

/// The bytes without trailing spaces and tabs.
pub fn trim_end(mut bytes: &[u8]) -> &[u8]
    ensures exact { result.now ≡ reverse (skip_ows (reverse bytes.now)) }
{
    'blanks: while let [rest @ .., last] = bytes
        && is_space_or_tab(*last)
    {
        bytes = rest;
    }
    bytes
}

#[tactic(auto, unfolding(httparse::specs::Grammar::trim_ows))]
fn is_close_option(part: &[u8]) -> bool
    ensures exact { result ≡ same_ignoring_case (trim_ows part.now) (codes "close") }
{
    is_same_ignoring_case(trim_end(trim_start(part)), b"close")
}

#[tactic(auto, unfolding(crate::specs::Fields::has_close_option))]
fn has_close_option(value: &[u8]) -> bool
    ensures exact { result ≡ has_close_option value.now }
{
    value
        .split(|b| *b == b',')
        .any(|part| is_close_option(part))
}

// Whether a `Connection` field asks to end the connection.
#[tactic(auto, unfolding(crate::specs::Fields::asks_to_close))]
pub fn asks_to_close(buf: &[u8], headers: &[HeaderSpan]) -> bool
    requires { All (IsHeaderWithin (length buf.now)) headers.now }
    ensures exact { result ≡ asks_to_close (map (header_bytes buf.now) headers.now) }
{
    'fields: for header in headers {
        if is_same_ignoring_case(header.name.of(buf), b"connection")
            && has_close_option(header.value.of(buf))
        {
            return true;
        }
    }
    false
}
