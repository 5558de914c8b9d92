// Writes entries.
ghost use Rattle.std.specs.Prelude.{◌≡◌, ◌<◌, ◌^◌, ◌++◌, length, IfOk, OnOk};
ghost use Rattle.std.specs.Int.{w64, to_be_bytes};
ghost use Rattle.log_entries.specs.Entries.{entry_bytes};

use crate::checksums::checksum;
use std::alloc::{AllocError, Global};

// What the checksum of an entry covers.
fn make_entry_body(alloc: Global, number: u64, content: &[u8]) -> Result<Vec<u8>, AllocError>
    ensures exact { IfOk result (λ v. v.items ≡ to_be_bytes w64 number ++ content.now) }
{
    let mut entry_body = Vec::new(alloc);
    entry_body.extend_from_slice(&number.to_be_bytes())?;
    entry_body.extend_from_slice(content)?;
    Ok(entry_body)
}

/// Adds an entry after the bytes that are there.
///
/// # Errors
/// When out of memory.
pub fn append_entry(
    alloc: Global,
    bytes: &mut Vec<u8>,
    mark: &[u8],
    number: u64,
    content: &[u8],
) -> Result<(), AllocError>
    requires short { length content.now < 2 ^ 32 }
    ensures exact { OnOk result (bytes.new.items ≡ bytes.old.items
        ++ entry_bytes mark.now (record { number = number; content = content.now })) }
{
    let entry_body = make_entry_body(alloc, number, content)?;
    bytes.extend_from_slice(mark)?;
    bytes.extend_from_slice(&(content.len() as u32).to_be_bytes())?;
    bytes.extend_from_slice(&checksum(mark, &entry_body).to_be_bytes())?;
    bytes.extend_from_slice(&entry_body)?;
    Ok(())
}
