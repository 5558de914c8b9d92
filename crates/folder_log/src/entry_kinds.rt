// The entries of a log's file, as bytes.
ghost use Rattle.std.specs.Prelude.{◌≡◌, ◌≤◌, ◌∷◌, [], length, IfOk};
ghost use Rattle.log_entries.specs.Entries.{entry_bytes};
ghost use Rattle.change_log.specs.declared.limits.TheConstants.{MAX_CONTENT_BYTES};
ghost use Rattle.folder_log.specs.FileFormat.{kind_at, kind_byte};

use log_entries::append_entry;
use std::alloc::{AllocError, Global};

/// What an entry of a log's file is.
#[derive(Clone, Copy)]
pub enum EntryKind {
    /// A part of the snapshot.
    Part,
    /// The end of the snapshot, with the number of the first change.
    SnapshotEnd,
    /// A change with its number.
    Change,
}

impl EntryKind {
    /// The first byte of the content of such an entry.
    pub(crate) fn byte(self) -> u8
        ensures exact { result ≡ kind_byte self }
    {
        match self {
            EntryKind::Part => 1,
            EntryKind::SnapshotEnd => 2,
            EntryKind::Change => 3,
        }
    }

    /// The kind of an entry whose content begins with this byte.
    pub(crate) fn from_byte(byte: u8) -> Option<EntryKind>
        ensures exact { result ≡ kind_at byte }
    {
        match byte {
            1 => Some(EntryKind::Part),
            2 => Some(EntryKind::SnapshotEnd),
            3 => Some(EntryKind::Change),
            _ => None,
        }
    }
}

/// The bytes of an entry of a kind.
pub(crate) fn entry_of_kind(
    alloc: Global,
    mark: &[u8],
    number: u64,
    kind: EntryKind,
    bytes: &[u8],
) -> Result<Vec<u8>, AllocError>
    requires short { length bytes.now ≤ MAX_CONTENT_BYTES }
    ensures exact { IfOk result (λ entry. entry.items
        ≡ entry_bytes mark.now
        (record { number = number; content = kind_byte kind ∷ bytes.now })) }
{
    let mut content = Vec::new(alloc);
    content.push(kind.byte())?;
    content.extend_from_slice(bytes)?;
    let mut entry = Vec::new(alloc);
    append_entry(alloc, &mut entry, mark, number, &content)?;
    Ok(entry)
}
