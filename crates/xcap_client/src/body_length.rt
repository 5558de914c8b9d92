// The length of a response's body (RFC 9112, section 6.3).
ghost use Rattle.std.specs.Prelude.{◌≡◌, ℕ, List, [], ◌∷◌, All, map, length, IfErr, Some, None};
ghost use Rattle.std.specs.Prelude.{if◌then◌else◌};
ghost use Rattle.httparse.specs.Spans.{IsHeaderWithin, header_bytes};
ghost use Rattle.http_wire.specs.Fields.{is_number, IsLookupOf};
ghost use Rattle.xcap_client.specs.inner.FillErrors.{IsFieldFault};
ghost use Rattle.xcap_client.specs.BodyLengths.{capped_value, exact_body_length, length_by_field};
ghost use Rattle.xcap_client.specs.BodyLengths.{body_length_of};

use crate::ResponseFault;
use http_wire::{FieldLookup, find_field};
use httparse::spans::HeaderSpan;

/// The greatest length of a response's body, in bytes: 16,777,216. It is this client's own limit; a
/// longer body is refused as too long.
pub const MAX_RESPONSE_BODY_BYTES: usize = 16_777_216;

// How far a body goes.
#[derive(Clone, Copy)]
pub enum BodyLength {
    // There is none.
    Empty,
    // It has this many bytes.
    Exactly(usize),
    // It goes to the end of the connection's bytes.
    ToEnd,
}

// The number that digits write, or the greatest `u64` where the number is greater.
fn capped_number(digits: &[u8]) -> Option<u64>
    ensures exact { result
        ≡ (if is_number digits.now then Some (capped_value digits.now) else None) }
{
    if digits.is_empty() {
        return None;
    }
    let mut value = 0_u64;
    'digits: for digit in digits {
        if !digit.is_ascii_digit() {
            return None;
        }
        value = value
            .saturating_mul(10)
            .saturating_add(u64::from(*digit - b'0'));
    }
    Some(value)
}

fn exact_body_length(len: u64) -> Result<BodyLength, ResponseFault>
    ensures fields_length { result ≡ exact_body_length len }
    ensures err_of_fields { IfErr result IsFieldFault }
{
    if len > MAX_RESPONSE_BODY_BYTES as u64 {
        return Err(ResponseFault::TooLong(len));
    }
    Ok(BodyLength::Exactly(len as usize))
}

#[tactic(auto, unfolding(crate::specs::BodyLengths::length_by_field))]
fn single_length(bodiless: bool, value: &[u8]) -> Result<BodyLength, ResponseFault>
    ensures fields_length { result ≡ length_by_field bodiless (value.now ∷ []) }
    ensures err_of_fields { IfErr result IsFieldFault }
{
    match capped_number(value) {
        None => Err(ResponseFault::Length),
        Some(_) if bodiless => Ok(BodyLength::Empty),
        Some(len) => exact_body_length(len),
    }
}

#[tactic(auto, unfolding(crate::specs::BodyLengths::length_by_field))]
fn length_by_field(bodiless: bool, lengths: FieldLookup) -> Result<BodyLength, ResponseFault>
    ensures err_of_fields { IfErr result IsFieldFault }
    ensures fields_length { (values : List (List ℕ)) → IsLookupOf lengths.entry values
        → result ≡ length_by_field bodiless values }
{
    match lengths {
        FieldLookup::Absent if bodiless => Ok(BodyLength::Empty),
        FieldLookup::Absent => Ok(BodyLength::ToEnd),
        FieldLookup::Once(value) => single_length(bodiless, value),
        FieldLookup::Repeated => Err(ResponseFault::Length),
    }
}

// The length of the body after a head with this status.
#[tactic(auto, unfolding(crate::specs::BodyLengths::body_length_of))]
pub fn read_body_length(
    buf: &[u8],
    headers: &[HeaderSpan],
    status: u16,
) -> Result<BodyLength, ResponseFault>
    requires { All (IsHeaderWithin (length buf.now)) headers.now }
    ensures err_of_fields { IfErr result IsFieldFault }
    ensures fields_length { result
        ≡ body_length_of status (map (header_bytes buf.now) headers.now) }
{
    let FieldLookup::Absent = find_field(buf, headers, b"transfer-encoding") else {
        return Err(ResponseFault::Coding);
    };
    let bodiless = status == 204 || status == 304;
    length_by_field(bodiless, find_field(buf, headers, b"content-length"))
}
