// Reads the record of a change.
ghost use Rattle.std.specs.Prelude.{◌≡◌, ◌++◌, ◌∷◌, [], Some, None, IfOk, IsErrOf, OnOk, OnErr};
ghost use Rattle.std.specs.Prelude.{chars, option_map};
ghost use Rattle.http_wire.specs.declared.request.Field.{Field as TheField};
ghost use Rattle.change_records.specs.ReadFields.{name_of};
ghost use Rattle.change_records.specs.Readings.{counted_fields, field_at, fields_of, method_at};
ghost use Rattle.change_records.specs.Readings.{parts_after, parts_of, request_of};
ghost use Rattle.change_records.specs.Readings.{known_field_at, request_with};
ghost use Rattle.change_records.specs.inner.RecordViews.{parts_view};
ghost use Rattle.change_records.specs.declared.record_reading.RecordFault.{RecordFault};

use crate::read_fields::ReadField;
use byte_blocks::block_at;
use http_wire::{Field, Request};
use std::alloc::{AllocError, Global};
use xcap_io::Bytes;
use xml_names::{List, Text};

/// Why no change was read.
#[derive(Clone, Copy, PartialEq, Eq)]
pub enum RecordFault {
    /// The bytes are no record.
    Damaged,
    /// Out of memory.
    NoMemory,
}

impl From<AllocError> for RecordFault {
    ghost use Rattle.change_records.specs.declared.record_reading.RecordFault.{RecordFault};

    ghost from_gives = { λ _ fault. fault ≡ RecordFault.NoMemory };

    fn from(_error: AllocError) -> RecordFault {
        RecordFault::NoMemory
    }
}

// The parts of a record: the method, the target, the body, and the bytes of the fields.
#[derive(Drop)]
struct RecordParts<'a> {
    method: &'static str,
    target: &'a [u8],
    body: &'a [u8],
    fields: &'a [u8],
}

fn method_at(number: u8) -> Option<&'static str>
    ensures exact { option_map (λ name. chars name.now) result ≡ method_at number }
{
    match number {
        1 => Some("PUT"),
        2 => Some("DELETE"),
        _ => None,
    }
}

fn parts_after<'a>(method: &'static str, bytes: &'a [u8]) -> Option<RecordParts<'a>>
    ensures exact { option_map parts_view result ≡ parts_after (chars method.now) bytes.now }
{
    let (target, bytes) = block_at(bytes)?;
    let (body, fields) = block_at(bytes)?;
    Some(RecordParts {
        method,
        target,
        body,
        fields,
    })
}

fn parts_of(bytes: &[u8]) -> Option<RecordParts<'_>>
    ensures exact { option_map parts_view result ≡ parts_of bytes.now }
{
    match bytes {
        [] => None,
        [number, rest @ ..] => parts_after(method_at(*number)?, rest),
    }
}

#[tactic(auto, using(crate::proofs::KeptFields::name_chars))]
fn make_field(alloc: Global, known: ReadField, value: &[u8]) -> Result<Field, AllocError>
    ensures exact { IfOk result
        (λ field. field ≡ record { name = name_of known; value = value.now }) }
{
    let name = Text::from(alloc, known.name())?;
    let value = Bytes::from(alloc, value)?;
    Ok(Field { name, value })
}

// The field whose value is the block at the front, and the bytes after it.
fn read_value(alloc: Global, known: ReadField, bytes: &[u8]) -> Result<(Field, &[u8]), RecordFault>
    ensures exact { IfOk result (λ x. known_field_at known bytes.now ≡ Some (x.0, x.1.now)) }
    ensures damaged { IsErrOf result RecordFault.Damaged → known_field_at known bytes.now ≡ None }
{
    match block_at(bytes) {
        None => Err(RecordFault::Damaged),
        Some((value, rest)) => Ok((make_field(alloc, known, value)?, rest)),
    }
}

// The field of this number, and the bytes after it.
fn read_numbered(alloc: Global, number: u8, bytes: &[u8]) -> Result<(Field, &[u8]), RecordFault>
    ensures exact { IfOk result (λ x. field_at (number ∷ bytes.now) ≡ Some (x.0, x.1.now)) }
    ensures damaged { IsErrOf result RecordFault.Damaged → field_at (number ∷ bytes.now) ≡ None }
{
    match ReadField::numbered(number) {
        None => Err(RecordFault::Damaged),
        Some(known) => read_value(alloc, known, bytes),
    }
}

fn read_field(alloc: Global, bytes: &[u8]) -> Result<(Field, &[u8]), RecordFault>
    ensures exact { IfOk result (λ x. field_at bytes.now ≡ Some (x.0, x.1.now)) }
    ensures damaged { IsErrOf result RecordFault.Damaged → field_at bytes.now ≡ None }
{
    match bytes {
        [] => Err(RecordFault::Damaged),
        [number, rest @ ..] => read_numbered(alloc, *number, rest),
    }
}

// Adds the field at the front, and returns the bytes after it.
fn push_field<'a>(
    alloc: Global,
    bytes: &'a [u8],
    fields: &mut List<Field>,
) -> Result<&'a [u8], RecordFault>
    ensures exact { IfOk result (λ rest. (field : TheField)
        × (field_at bytes.now ≡ Some (field, rest.now))
        × (fields.new ≡ fields.old ++ field ∷ [])) }
    ensures damaged { IsErrOf result RecordFault.Damaged → field_at bytes.now ≡ None }
{
    let (field, rest) = read_field(alloc, bytes)?;
    fields.push(field)?;
    Ok(rest)
}

// Adds `count` fields, which are all that the bytes have.
#[tactic(auto, using(crate::proofs::AddedFields::fields_step))]
fn read_fields(
    alloc: Global,
    bytes: &[u8],
    count: u8,
    fields: &mut List<Field>,
) -> Result<(), RecordFault>
    ensures exact { OnOk result
        (option_map (λ more. fields.old ++ more) (fields_of count bytes.now)
        ≡ Some fields.new) }
    ensures damaged { IsErrOf result RecordFault.Damaged → fields_of count bytes.now ≡ None }
{
    if count == 0 {
        return read_nothing(bytes);
    }
    let rest = push_field(alloc, bytes, fields)?;
    read_fields(alloc, rest, count - 1, fields)
}

fn read_nothing(bytes: &[u8]) -> Result<(), RecordFault>
    ensures exact { OnOk result (fields_of 0 bytes.now ≡ Some []) }
    ensures damaged { OnErr result (fields_of 0 bytes.now ≡ None) }
{
    match bytes {
        [] => Ok(()),
        [_, ..] => Err(RecordFault::Damaged),
    }
}

// The fields that are counted.
#[tactic(auto, using(crate::proofs::AddedFields::added_to_none))]
fn read_counted(alloc: Global, bytes: &[u8]) -> Result<List<Field>, RecordFault>
    ensures exact { IfOk result (λ fields. counted_fields bytes.now ≡ Some fields) }
    ensures damaged { IsErrOf result RecordFault.Damaged → counted_fields bytes.now ≡ None }
{
    match bytes {
        [] => Err(RecordFault::Damaged),
        [count, rest @ ..] => {
            let mut fields = List::empty(alloc);
            read_fields(alloc, rest, *count, &mut fields)?;
            Ok(fields)
        }
    }
}

// The request of a record, without its fields.
fn request_without_fields(alloc: Global, parts: &RecordParts) -> Result<Request, AllocError>
    ensures exact { IfOk result (λ request. request ≡ request_with (parts_view parts.now) []) }
{
    Ok(Request {
        method: Text::from(alloc, parts.method)?,
        target: Bytes::from(alloc, parts.target)?,
        closes: false,
        fields: List::empty(alloc),
        body: Bytes::from(alloc, parts.body)?,
    })
}

fn request_of_parts(alloc: Global, parts: &RecordParts) -> Result<Request, RecordFault>
    ensures exact { IfOk result
        (λ request. option_map (request_with (parts_view parts.now))
        (counted_fields parts.now.fields.now) ≡ Some request) }
    ensures damaged { IsErrOf result RecordFault.Damaged
        → counted_fields parts.now.fields.now ≡ None }
{
    let mut request = request_without_fields(alloc, parts)?;
    request.fields = read_counted(alloc, parts.fields)?;
    Ok(request)
}

/// The request whose record the bytes are.
///
/// # Errors
/// `Damaged` exactly where they are none, unless memory runs out.
pub fn read_change(alloc: Global, bytes: &[u8]) -> Result<Request, RecordFault>
    ensures exact { IfOk result (λ request. request_of bytes.now ≡ Some request) }
    ensures damaged { IsErrOf result RecordFault.Damaged → request_of bytes.now ≡ None }
{
    match parts_of(bytes) {
        None => Err(RecordFault::Damaged),
        Some(parts) => request_of_parts(alloc, &parts),
    }
}
