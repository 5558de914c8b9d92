// Writes the records of requests.
ghost use Rattle.std.specs.Prelude.{◌≡◌, ◌<◌, ◌^◌, ◌++◌, length, All, IfOk, OnOk, flat_map};
ghost use Rattle.std.specs.Int.{to_be_bytes};
ghost use Rattle.edit_journal.specs.Records.{method_number, length_prefixed, field_text};
ghost use Rattle.edit_journal.specs.Records.{record_content};
ghost use Rattle.edit_journal.specs.Records.{record_of, IsRecordable};
ghost use Rattle.edit_journal.specs.inner.WritableFields.{IsWritableField};

use http_wire::{Field, Request};
use std::alloc::{AllocError, Global};
use xcap_io::Bytes;
use xml_names::Text;

// The number of a recorded method, and 0 for any other.
#[tactic(auto, unfolding(crate::specs::Records::method_number))]
fn method_number(method: &Text) -> u8
    ensures exact { result ≡ method_number method.now }
{
    if method.is("PUT") {
        return 1;
    }
    if method.is("DELETE") {
        return 2;
    }
    0
}

// Appends a length and that many bytes.
#[tactic(auto, unfolding(crate::specs::Records::length_prefixed))]
fn append_block(made: &mut Bytes, bytes: &[u8]) -> Result<(), AllocError>
    requires { length bytes.now < 2 ^ 32 }
    ensures appended { OnOk result (made.new ≡ made.old ++ length_prefixed bytes.now) }
{
    made.extend(&(bytes.len() as u32).to_be_bytes())?;
    made.extend(bytes)
}

fn append_field(made: &mut Bytes, field: &Field) -> Result<(), AllocError>
    requires { IsWritableField field.now }
    ensures appended { OnOk result (made.new ≡ made.old ++ field_text field.now) }
{
    append_block(made, field.name.as_str().as_bytes())?;
    append_block(made, field.value.as_slice())
}

fn append_fields(made: &mut Bytes, fields: &[Field]) -> Result<(), AllocError>
    requires { All IsWritableField fields.now }
    ensures appended { OnOk result (made.new ≡ made.old ++ flat_map field_text fields.now) }
{
    'fields: for field in fields {
        append_field(made, field)?;
    }
    Ok(())
}

fn encode_content(alloc: Global, request: &Request) -> Result<Bytes, AllocError>
    requires { IsRecordable request.now }
    ensures ok { IfOk result (λ bytes. bytes ≡ record_content request.now) }
{
    let mut bytes = Bytes::new(alloc);
    bytes.push(method_number(&request.method))?;
    append_block(&mut bytes, request.target.as_slice())?;
    let fields = request.fields.as_slice();
    bytes.extend(&(fields.len() as u16).to_be_bytes())?;
    append_fields(&mut bytes, fields)?;
    append_block(&mut bytes, request.body.as_slice())?;
    Ok(bytes)
}

/// The record of a request that has one.
pub(crate) fn record_of(alloc: Global, request: &Request) -> Result<Bytes, AllocError>
    requires { IsRecordable request.now }
    ensures ok { IfOk result (λ bytes. bytes ≡ record_of request.now) }
{
    let content = encode_content(alloc, request)?;
    let mut made = Bytes::new(alloc);
    append_block(&mut made, content.as_slice())?;
    Ok(made)
}
