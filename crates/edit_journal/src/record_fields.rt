// Parses the header fields and the body of a record, in bytes that may break off.
ghost use Rattle.std.specs.Prelude.{◌≡◌, ◌≤◌, ◌<◌, ◌+◌, ◌-◌, ◌*◌, drop, take, length, IfOk, OnOk};
ghost use Rattle.std.specs.Prelude.{if◌then◌else◌, ◌==◌};
ghost use Rattle.http_wire.specs.declared.limits.TheConstants.{MAX_FIELD_LINES};
ghost use Rattle.edit_journal.specs.inner.RecordParts.{ReadsPart, IsFieldValue, IsFieldPart};
ghost use Rattle.edit_journal.specs.inner.RecordParts.{IsFieldsAndBody};
ghost use Rattle.edit_journal.specs.inner.RecordParts.{HasRoomForFields};

use crate::field_parsers::{FieldError, bytes_after, read_block, read_token};
use crate::limits::MAX_CONTENT_BYTES;
use http_wire::{Field, MAX_BODY_BYTES, token_text};
use std::alloc::{AllocError, Global};
use xcap_io::Bytes;
use xml_names::List;

impl From<AllocError> for FieldError {
    ghost use Rattle.edit_journal.specs.declared.field_parsers.FieldError.{FieldError};

    ghost from_gives = { λ _ stop. stop ≡ FieldError.NoMemory };

    fn from(_none: AllocError) -> FieldError {
        FieldError::NoMemory
    }
}

// The least length of a value: without a field after it, the rest may not be longer than a body.
fn min_value_len(others: usize, left: usize) -> usize
    ensures exact { result ≡ (if others == 0 then left - (MAX_BODY_BYTES + 8) else 0) }
{
    if others == 0 {
        left.saturating_sub(MAX_BODY_BYTES + 8)
    } else {
        0
    }
}

// The value of a field, where `left` bytes have it, `others` more fields and a body.
fn read_value(bytes: &[u8], others: usize, left: usize) -> Result<&[u8], FieldError>
    requires others_bounded { others < MAX_FIELD_LINES }
    requires room_left { 9 * others + 8 ≤ left }
    requires left_bounded { left ≤ MAX_CONTENT_BYTES }
    ensures reads_rule { ReadsPart (λ piece. piece.now) (IsFieldValue others left) bytes.now
        result }
{
    read_block(bytes, min_value_len(others, left), left - 8 - 9 * others)
}

fn new_field(alloc: Global, name: &[u8], value: &[u8]) -> Result<Field, AllocError>
    ensures ok { IfOk result (λ field. field ≡ record { name = name.now; value = value.now }) }
{
    Ok(Field {
        name: token_text(alloc, name)?,
        value: Bytes::from(alloc, value)?,
    })
}

// A field, where `left` bytes have it, `others` more fields and a body.
fn read_field(alloc: Global, bytes: &[u8], others: usize, left: usize) -> Result<Field, FieldError>
    requires others_bounded { others < MAX_FIELD_LINES }
    requires room_left { 9 * others + 13 ≤ left }
    requires left_bounded { left ≤ MAX_CONTENT_BYTES }
    ensures reads_rule { ReadsPart (λ field. field) (IsFieldPart others left) bytes.now result }
{
    let token = read_token(bytes, 1, left - 12 - 9 * others)?;
    let rest = bytes_after(bytes, 4 + token.len());
    let piece = read_value(rest, others, left - 4 - token.len())?;
    Ok(new_field(alloc, token, piece)?)
}

/// Reads this many fields and the body, which fill `left` bytes. The fields are appended to the
/// list.
pub(crate) fn read_fields_and_body(
    alloc: Global,
    bytes: &[u8],
    count: usize,
    left: usize,
    fields: &mut List<Field>,
) -> Result<Bytes, FieldError>
    requires count_bounded { count ≤ MAX_FIELD_LINES }
    requires room_left { HasRoomForFields count left }
    requires left_bounded { left ≤ MAX_CONTENT_BYTES }
    ensures reads_rule { ReadsPart (λ body. (drop (length fields.old) fields.new, body))
        (IsFieldsAndBody count left) bytes.now result }
    ensures keeps_prefix { OnOk result (take (length fields.old) fields.new ≡ fields.old) }
{
    if count == 0 {
        return Ok(Bytes::from(alloc, read_block(bytes, left - 4, left - 4)?)?);
    }
    let field = read_field(alloc, bytes, count - 1, left)?;
    let used = 8 + field.name.count() + field.value.len();
    fields.push(field)?;
    read_fields_and_body(
        alloc,
        bytes_after(bytes, used),
        count - 1,
        left - used,
        fields,
    )
}
