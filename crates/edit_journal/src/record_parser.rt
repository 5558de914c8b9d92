// Parses a record, in bytes that may break off.
ghost use Rattle.std.specs.Prelude.{◌≡◌, ◌≤◌, ◌+◌, ◌-◌, nat_lt, if◌then◌else◌};
ghost use Rattle.edit_journal.specs.inner.RecordParts.{ReadsPart, IsMethodByte, IsRestOfContent};
ghost use Rattle.edit_journal.specs.inner.RecordParts.{IsRecordContent, IsRecordOf};

use crate::field_parsers::{FieldError, bytes_after, read_block, read_u16, read_u32};
use crate::limits::MAX_CONTENT_BYTES;
use crate::record_fields::read_fields_and_body;
use http_wire::{Field, MAX_BODY_BYTES, MAX_FIELD_LINES, Request};
use std::alloc::Global;
use xcap_io::Bytes;
use xml_names::{List, Text};

// The least number of fields: one, where the rest is longer than a body may be.
fn min_field_count(left: usize) -> usize
    ensures exact { result ≡ (if nat_lt (MAX_BODY_BYTES + 6) left then 1 else 0) }
{
    if left > MAX_BODY_BYTES + 6 { 1 } else { 0 }
}

// The number of fields, the fields and the body, which fill `left` bytes.
fn read_rest(alloc: Global, bytes: &[u8], left: usize) -> Result<(List<Field>, Bytes), FieldError>
    requires lower_bound { 6 ≤ left }
    requires upper_bound { left ≤ MAX_CONTENT_BYTES }
    ensures reads_rule { ReadsPart (λ value. (value.0, value.1)) (IsRestOfContent left) bytes.now
        result }
{
    let count = read_u16(
        bytes,
        min_field_count(left),
        ((left - 6) / 9).min(MAX_FIELD_LINES),
    )?;
    let mut fields = List::empty(alloc);
    let body = read_fields_and_body(alloc, bytes_after(bytes, 2), count, left - 2, &mut fields)?;
    Ok((fields, body))
}

// The method, in one byte.
fn read_method(alloc: Global, bytes: &[u8]) -> Result<Text, FieldError>
    ensures reads_rule { ReadsPart (λ text. text) IsMethodByte bytes.now result }
{
    match bytes.first() {
        None => Err(FieldError::Open),
        Some(1) => Ok(Text::from(alloc, "PUT")?),
        Some(2) => Ok(Text::from(alloc, "DELETE")?),
        Some(_) => Err(FieldError::Wrong),
    }
}

// What a record has after its length.
fn read_content(alloc: Global, bytes: &[u8], len: usize) -> Result<Request, FieldError>
    requires lower_bound { 11 ≤ len }
    requires upper_bound { len ≤ MAX_CONTENT_BYTES }
    ensures reads_rule { ReadsPart (λ request. request) (IsRecordContent len) bytes.now result }
{
    let method = read_method(alloc, bytes)?;
    let target = read_block(bytes_after(bytes, 1), 0, len - 11)?;
    let used = 5 + target.len();
    let (fields, body) = read_rest(alloc, bytes_after(bytes, used), len - used)?;
    Ok(Request {
        method,
        target: Bytes::from(alloc, target)?,
        closes: false,
        fields,
        body,
    })
}

/// The record at the front of the bytes.
pub(crate) fn read_record(alloc: Global, bytes: &[u8]) -> Result<Request, FieldError>
    ensures reads_rule { ReadsPart (λ request. request) IsRecordOf bytes.now result }
{
    let len = read_u32(bytes, 11, MAX_CONTENT_BYTES)?;
    read_content(alloc, bytes_after(bytes, 4), len)
}
