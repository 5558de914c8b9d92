// Writes the parts of a snapshot.
ghost use Rattle.std.specs.Prelude.{◌≡◌, ◌≤◌, ◌<◌, ◌++◌, ◌∷◌, [], length, IfOk, OnOk, IsErrOf};
ghost use Rattle.std.specs.Prelude.{OnErr};
ghost use Rattle.std.specs.Prelude.{encode_utf8_all};
ghost use Rattle.std.specs.Int.{w64, to_be_bytes};
ghost use Rattle.change_log.specs.declared.limits.TheConstants.{MAX_CONTENT_BYTES};
ghost use Rattle.state_snapshots.specs.Snapshots.{auid_number, document_part, home_bytes};
ghost use Rattle.state_snapshots.specs.Snapshots.{name_bytes, start_part};
ghost use Rattle.state_snapshots.specs.declared.parts.PartFault.{PartFault};
ghost use Rattle.state_snapshots.specs.PartViews.{start_view};
ghost use Rattle.byte_blocks.specs.Blocks.{block};

use crate::FORM_VERSION;
use crate::parts::{PartFault, Start};
use byte_blocks::append_block;
use change_log::MAX_CONTENT_BYTES;
use doc_names::{Auid, DocId, Home};
use std::alloc::{AllocError, Global};
use xml_names::Text;

fn append_byte(made: &mut Vec<u8>, byte: u8) -> Result<(), AllocError>
    ensures appended { OnOk result (made.new.items ≡ made.old.items ++ byte ∷ []) }
{
    made.push(byte)?;
    Ok(())
}

// Appends a number in eight bytes.
fn append_number(made: &mut Vec<u8>, number: u64) -> Result<(), AllocError>
    ensures appended { OnOk result (made.new.items ≡ made.old.items ++ to_be_bytes w64 number) }
{
    made.extend_from_slice(&number.to_be_bytes())
}

/// The start of a snapshot.
///
/// # Errors
/// When out of memory.
pub fn start_part(alloc: Global, start: &Start) -> Result<Vec<u8>, AllocError>
    ensures exact { IfOk result (λ part. part.items ≡ start_part (start_view start.now)) }
{
    let mut made = Vec::new(alloc);
    made.push(FORM_VERSION)?;
    append_number(&mut made, start.count)?;
    append_number(&mut made, start.next)?;
    made.extend_from_slice(start.root)?;
    Ok(made)
}

fn auid_number(auid: Auid) -> u8
    ensures exact { result ≡ auid_number auid }
{
    match auid {
        Auid::ResourceLists => 1,
        Auid::RlsServices => 2,
        Auid::XcapCaps => 3,
    }
}

// Appends a text as a block, if a log takes it.
fn append_text(made: &mut Vec<u8>, text: &Text) -> Result<(), PartFault>
    ensures appended { OnOk result
        (made.new.items ≡ made.old.items ++ block (encode_utf8_all text.now)) }
    ensures too_long { IsErrOf result PartFault.TooLong
        → MAX_CONTENT_BYTES < length (encode_utf8_all text.now) }
{
    let bytes = text.as_str().as_bytes();
    if bytes.len() > MAX_CONTENT_BYTES {
        return Err(PartFault::TooLong);
    }
    append_block(made, bytes)?;
    Ok(())
}

#[tactic(auto, using(byte_blocks::proofs::Reading::block_length))]
fn append_home(made: &mut Vec<u8>, home: &Home) -> Result<(), PartFault>
    ensures appended { OnOk result (made.new.items ≡ made.old.items ++ home_bytes home.now) }
    ensures too_long { IsErrOf result PartFault.TooLong
        → MAX_CONTENT_BYTES < length (home_bytes home.now) }
{
    match home {
        Home::Global => {
            append_byte(made, 0)?;
            Ok(())
        }
        Home::User(xui) => {
            append_byte(made, 1)?;
            append_text(made, xui)
        }
    }
}

#[tactic(auto, using(byte_blocks::proofs::Reading::block_length))]
fn append_name(made: &mut Vec<u8>, id: &DocId) -> Result<(), PartFault>
    ensures appended { OnOk result (made.new.items ≡ made.old.items ++ name_bytes id.now) }
    ensures too_long { IsErrOf result PartFault.TooLong
        → MAX_CONTENT_BYTES < length (name_bytes id.now) }
{
    append_byte(made, auid_number(id.auid))?;
    append_home(made, &id.home)?;
    append_text(made, &id.name)
}

// The part, if a log takes it.
fn within_limit(made: Vec<u8>) -> Result<Vec<u8>, PartFault>
    ensures same { IfOk result (λ part. part ≡ made) }
    ensures short { OnOk result (length made.items ≤ MAX_CONTENT_BYTES) }
    ensures too_long { OnErr result (MAX_CONTENT_BYTES < length made.items) }
{
    if made.len() > MAX_CONTENT_BYTES {
        return Err(PartFault::TooLong);
    }
    Ok(made)
}

/// The part of a document with its etag and its text.
///
/// # Errors
/// `TooLong` only where the part is longer than a log takes; `NoMemory` when out of memory.
pub fn document_part(
    alloc: Global,
    id: &DocId,
    etag: u64,
    text: &[u8],
) -> Result<Vec<u8>, PartFault>
    ensures exact { IfOk result (λ part. part.items
        ≡ document_part (record { id = id.now; tag = etag; text = text.now })) }
    ensures short { IfOk result (λ part. length part.items ≤ MAX_CONTENT_BYTES) }
    ensures too_long { IsErrOf result PartFault.TooLong → MAX_CONTENT_BYTES
        < length (document_part (record { id = id.now; tag = etag; text = text.now })) }
{
    let mut made = Vec::new(alloc);
    append_number(&mut made, etag)?;
    append_name(&mut made, id)?;
    made.extend_from_slice(text)?;
    within_limit(made)
}
