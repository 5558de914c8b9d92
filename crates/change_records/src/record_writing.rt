// Writes the record of a change.
ghost use Rattle.std.specs.Prelude.{◌≡◌, ◌<◌, ◌++◌, ◌∷◌, All, IfOk, OnOk, flat_map};
ghost use Rattle.std.specs.Prelude.{length};
ghost use Rattle.std.specs.List.{filter};
ghost use Rattle.change_records.specs.ReadFields.{kept_fields};
ghost use Rattle.change_records.specs.Records.{IsRecordable, change_record, field_bytes};
ghost use Rattle.change_records.specs.Records.{method_number, parts_text};
ghost use Rattle.change_records.specs.inner.WritableFields.{FitsBlockIfKept, is_kept};

use crate::read_fields::ReadField;
use byte_blocks::append_block;
use http_wire::{Field, Request};
use request_checks::Method;
use std::alloc::{AllocError, Global};

fn method_number(method: Method) -> u8
    ensures exact { result ≡ method_number method }
{
    match method {
        Method::Put => 1,
        Method::Delete => 2,
        Method::Get | Method::Head | Method::Other => 0,
    }
}

fn is_kept(field: &Field) -> bool
    ensures exact { result ≡ is_kept field.now }
{
    ReadField::of(&field.name).is_some()
}

// Appends a field, if it is kept.
#[tactic(auto, unfolding(crate::specs::Records::field_bytes))]
fn append_field(made: &mut Vec<u8>, field: &Field) -> Result<(), AllocError>
    requires writable { FitsBlockIfKept field.now }
    ensures appended { OnOk result (made.new.items ≡ made.old.items ++ field_bytes field.now) }
{
    match ReadField::of(&field.name) {
        None => Ok(()),
        Some(known) => {
            made.push(known.number())?;
            append_block(made, field.value.as_slice())
        }
    }
}

fn append_fields(made: &mut Vec<u8>, fields: &[Field]) -> Result<(), AllocError>
    requires writable { All FitsBlockIfKept fields.now }
    ensures appended { OnOk result
        (made.new.items ≡ made.old.items ++ flat_map field_bytes fields.now) }
{
    'fields: for field in fields {
        append_field(made, field)?;
    }
    Ok(())
}

// How many of the fields are kept.
fn count_kept(fields: &[Field]) -> usize
    ensures exact { result ≡ length (filter is_kept fields.now) }
{
    fields.iter().filter(|field| is_kept(field)).count()
}

// How many of the fields are kept, in a byte.
#[tactic(auto, using(crate::proofs::KeptFields::kept_count))]
fn count_byte(fields: &[Field]) -> u8
    requires few { length (kept_fields fields.now) < 256 }
    ensures exact { result ≡ length (kept_fields fields.now) }
{
    count_kept(fields) as u8
}

// Appends how many fields are kept, and these.
fn append_counted_fields(made: &mut Vec<u8>, fields: &[Field]) -> Result<(), AllocError>
    requires few { length (kept_fields fields.now) < 256 }
    requires writable { All FitsBlockIfKept fields.now }
    ensures appended { OnOk result (made.new.items ≡ made.old.items
        ++ length (kept_fields fields.now) ∷ flat_map field_bytes fields.now) }
{
    made.push(count_byte(fields))?;
    append_fields(made, fields)
}

// Appends all but the number of the method.
fn append_parts(made: &mut Vec<u8>, request: &Request) -> Result<(), AllocError>
    requires recordable { IsRecordable request.now }
    ensures appended { OnOk result (made.new.items ≡ made.old.items ++ parts_text request.now) }
{
    append_block(made, request.target.as_slice())?;
    append_block(made, request.body.as_slice())?;
    append_counted_fields(made, request.fields.as_slice())
}

/// The record of a request that has one.
///
/// # Errors
/// When out of memory.
pub fn change_record(alloc: Global, request: &Request) -> Result<Vec<u8>, AllocError>
    requires recordable { IsRecordable request.now }
    ensures exact { IfOk result (λ bytes. bytes.items ≡ change_record request.now) }
{
    let mut made = Vec::new(alloc);
    made.push(method_number(Method::of(request)))?;
    append_parts(&mut made, request)?;
    Ok(made)
}
