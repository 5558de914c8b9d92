// Reads the file of a log from the start.
ghost use Rattle.std.specs.Prelude.{◌≡◌, ◌≤◌, ℕ, List, drop, length, IfOk};
ghost use Rattle.change_log.specs.LogItems.{IsReadItem};
ghost use Rattle.folder_log.specs.FileFormat.{item_of_content, item_of_kind};
ghost use Rattle.folder_log.specs.Restarts.{mark_of};

use crate::entry_kinds::EntryKind;
use change_log::{LogCursor, LogItem};
use log_entries::entry_at;
use std::alloc::AllocError;

/// A place in the bytes of a log's file.
#[derive(Drop)]
pub struct FileCursor {
    pub(crate) bytes: Vec<u8>,
    pub(crate) at: usize,
    ghost within: { at ≤ length bytes.items },
}

impl FileCursor {
    /// The start of the bytes.
    pub(crate) fn new(bytes: Vec<u8>) -> FileCursor
        ensures all_left { result.bytes.items ≡ bytes.items }
        ensures at_start { result.at ≡ 0 }
    {
        FileCursor { bytes, at: 0 }
    }

    // The bytes that are left.
    fn rest(&self) -> &[u8]
        ensures exact { result.now ≡ drop self.now.at self.now.bytes.items }
    {
        &self.bytes[self.at..]
    }
}

/// The mark of a file.
pub(crate) fn file_mark(bytes: &[u8]) -> &[u8]
    ensures exact { result.now ≡ mark_of bytes.now }
{
    &bytes[..bytes.len().min(8)]
}

// What an entry is; its bytes replace those that were there.
fn read_entry(number: u64, content: &[u8], bytes: &mut Vec<u8>) -> Result<LogItem, AllocError>
    ensures exact { IfOk result (λ item.
        IsReadItem item bytes.new.items (item_of_content number content.now)) }
{
    bytes.clear();
    match content {
        [] => Ok(LogItem::Unknown),
        [byte, rest @ ..] => {
            bytes.extend_from_slice(rest)?;
            Ok(item_of_kind(EntryKind::from_byte(*byte), number))
        }
    }
}

fn item_of_kind(kind: Option<EntryKind>, number: u64) -> LogItem
    ensures exact { (bytes : List ℕ) → IsReadItem result bytes (item_of_kind kind number bytes) }
{
    match kind {
        Some(EntryKind::Part) => LogItem::Part,
        Some(EntryKind::SnapshotEnd) => LogItem::First(number),
        Some(EntryKind::Change) => LogItem::Change(number),
        None => LogItem::Unknown,
    }
}

impl LogCursor for FileCursor {
    ghost use Rattle.folder_log.specs.LogOpenings.{remaining_items};

    ghost left = { λ cursor. remaining_items cursor.bytes.items cursor.at };

    fn read(&mut self, bytes: &mut Vec<u8>) -> Result<LogItem, AllocError> {
        let Some((number, content, rest)) = entry_at(file_mark(&self.bytes), self.rest()) else {
            bytes.clear();
            return Ok(LogItem::End);
        };
        let left = rest.len();
        let item = read_entry(number, content, bytes)?;
        self.at = self.bytes.len() - left;
        Ok(item)
    }
}
