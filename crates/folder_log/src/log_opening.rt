// Opens a log: its file is read as entries, and these as what a log holds.
ghost use Rattle.std.specs.Prelude.{◌≡◌, ◌-◌, ◌∷◌, ℕ, length, map, None, Some};
ghost use Rattle.std.specs.Prelude.{IfOk, OnErr, IsErrOf};
ghost use Rattle.log_disk.specs.DiskHistories.{disk_history};
ghost use Rattle.log_entries.specs.Entries.{leading_entries};
ghost use Rattle.change_log.specs.LogContents.{Contents, next_number};
ghost use Rattle.change_log.specs.LogItems.{IsReadAs, part, first, change, no_scan};
ghost use Rattle.change_log.specs.LogItems.{scan_items};
ghost use Rattle.folder_log.specs.FileFormat.{item_of, item_of_content, item_of_kind};
ghost use Rattle.folder_log.specs.FolderLogs.{log_parts};
ghost use Rattle.folder_log.specs.LogOpenings.{IsOpenedLog, remaining_items};
ghost use Rattle.folder_log.specs.Restarts.{IsFoundInFile, mark_of};
ghost use Rattle.folder_log.specs.inner.Scanners.{AgreesWithHistory, ScansItem, new_parts, scan_of};
ghost use Rattle.folder_log.specs.declared.log_opening.OpenFault.{OpenFault};

use crate::entry_kinds::EntryKind;
use crate::file_cursor::file_mark;
use crate::{FileCursor, FolderLog};
use change_log::{LogHistory, MAX_CONTENT_BYTES};
use log_disk::{Disk, FolderCalls};
use log_entries::{entry_at, has_entry};

/// Why a log wasn't opened.
#[derive(Clone, Copy, PartialEq, Eq)]
pub enum OpenFault {
    /// From this place on the bytes are no entry, and they are more than a crash leaves.
    Damaged(usize),
    /// The entry at this place isn't one that comes there, or none ends the snapshot.
    Unknown(usize),
}

// What was read of a file so far.
#[derive(Drop)]
pub(crate) struct Scanner {
    pub(crate) history: LogHistory,
    pub(crate) next: u64,
    pub(crate) is_ended: bool,
}

impl Scanner {
    fn new() -> Scanner
        ensures nothing_read { scan_of result ≡ no_scan }
        ensures agrees { AgreesWithHistory result }
    {
        Scanner {
            history: LogHistory::new(),
            next: 1,
            is_ended: false,
        }
    }

    // A part of the snapshot.
    fn scan_part(&mut self, bytes: &[u8]) -> bool
        requires { AgreesWithHistory self.old }
        ensures scans { ScansItem self.old (part bytes.now) result self.new }
        ensures agrees { AgreesWithHistory self.new }
    {
        if self.is_ended {
            return false;
        }
        self.history.record_found_part(bytes);
        true
    }

    // The end of the snapshot.
    fn scan_first(&mut self, number: u64) -> bool
        requires { AgreesWithHistory self.old }
        ensures scans { ScansItem self.old (first number) result self.new }
        ensures agrees { AgreesWithHistory self.new }
    {
        if self.is_ended {
            return false;
        }
        self.history.record_found_first(number);
        self.next = number;
        self.is_ended = true;
        true
    }

    fn scan_change(&mut self, number: u64, bytes: &[u8]) -> bool
        requires { AgreesWithHistory self.old }
        ensures scans { ScansItem self.old (change number bytes.now) result self.new }
        ensures agrees { AgreesWithHistory self.new }
    {
        if !self.is_ended {
            return false;
        }
        if number != self.next || number == u64::MAX {
            return false;
        }
        self.history.record_found_change(bytes);
        self.next += 1;
        true
    }

    // An entry of a kind.
    fn scan_kind(&mut self, kind: EntryKind, number: u64, bytes: &[u8]) -> bool
        requires { AgreesWithHistory self.old }
        ensures scans { ScansItem self.old (item_of_kind (Some kind) number bytes.now)
            result self.new }
        ensures agrees { AgreesWithHistory self.new }
    {
        match kind {
            EntryKind::Part => self.scan_part(bytes),
            EntryKind::SnapshotEnd => self.scan_first(number),
            EntryKind::Change => self.scan_change(number, bytes),
        }
    }

    // An entry whose content begins with this byte.
    fn scan_after_byte(&mut self, byte: u8, number: u64, bytes: &[u8]) -> bool
        requires { AgreesWithHistory self.old }
        ensures scans { ScansItem self.old (item_of_content number (byte ∷ bytes.now))
            result self.new }
        ensures agrees { AgreesWithHistory self.new }
    {
        match EntryKind::from_byte(byte) {
            None => false,
            Some(kind) => self.scan_kind(kind, number, bytes),
        }
    }

    fn scan_entry(&mut self, number: u64, content: &[u8]) -> bool
        requires { AgreesWithHistory self.old }
        ensures scans { ScansItem self.old (item_of_content number content.now) result self.new }
        ensures agrees { AgreesWithHistory self.new }
    {
        match content {
            [] => false,
            [byte, bytes @ ..] => self.scan_after_byte(*byte, number, bytes),
        }
    }
}

// Reads the entries that are whole in the bytes, and returns the bytes after them; or the bytes at
// whose front is an entry that doesn't come there.
fn scan_file<'a>(
    mark: &[u8],
    start: Scanner,
    bytes: &'a [u8],
) -> Result<(Scanner, &'a [u8]), &'a [u8]>
    requires { AgreesWithHistory start }
    ensures scanned { IfOk result (λ x. scan_items (scan_of start)
        (map item_of (leading_entries mark.now bytes.now).0) ≡ Some (scan_of x.0)) }
    ensures rest { IfOk result (λ x. x.1.now ≡ (leading_entries mark.now bytes.now).1) }
    ensures agrees { IfOk result (λ x. AgreesWithHistory x.0) }
    ensures refused { OnErr result (scan_items (scan_of start)
        (map item_of (leading_entries mark.now bytes.now).0) ≡ None) }
{
    let mut scanner = start;
    let mut rest = bytes;
    while let Some((number, content, after)) = entry_at(mark, rest) {
        if !scanner.scan_entry(number, content) {
            return Err(rest);
        }
        rest = after;
    }
    Ok((scanner, rest))
}

// The log that was read.
fn log_of<C: FolderCalls + Drop>(disk: Disk<C>, scanner: Scanner) -> FolderLog<C>
    ensures exact { log_parts result
        ≡ new_parts (disk_history disk) scanner.history.log scanner.next }
{
    FolderLog {
        disk,
        history: scanner.history,
        mark: [0, 0, 0, 0, 0, 0, 0, 0],
        draft_mark: [0, 0, 0, 0, 0, 0, 0, 0],
        next: scanner.next,
        is_begun: false,
        has_draft: false,
        is_torn: false,
        is_stopped: false,
    }
}

// What the bytes of a file are read as.
fn scan_bytes(bytes: &[u8]) -> Result<Scanner, OpenFault>
    ensures found { IfOk result (λ scanner. IsFoundInFile bytes.now (scan_of scanner).contents) }
    ensures read_as { IfOk result (λ scanner.
        IsReadAs (remaining_items bytes.now 0) (scan_of scanner).contents) }
    ensures agrees { IfOk result (λ scanner. AgreesWithHistory scanner) }
    ensures next { IfOk result (λ scanner. scanner.next
        ≡ next_number (scan_of scanner).contents) }
    ensures nothing_found { OnErr result ((c : Contents) → ¬ (IsFoundInFile bytes.now c)) }
    ensures place { (place : ℕ) → IsErrOf result (OpenFault.Damaged place)
        → place ≡ length bytes.now - length (leading_entries (mark_of bytes.now) bytes.now).1 }
{
    if bytes.is_empty() {
        return Ok(Scanner::new());
    }
    let mark = file_mark(bytes);
    let (scanner, rest) = match scan_file(mark, Scanner::new(), bytes) {
        Ok(scanned) => scanned,
        Err(rest) => return Err(OpenFault::Unknown(bytes.len().saturating_sub(rest.len()))),
    };
    let place = bytes.len().saturating_sub(rest.len());
    if has_entry(mark, rest) || rest.len() > 29 + MAX_CONTENT_BYTES {
        return Err(OpenFault::Damaged(place));
    }
    if !scanner.is_ended {
        return Err(OpenFault::Unknown(place));
    }
    Ok(scanner)
}

/// Opens the log in a folder whose file has these bytes, and was synced with the folder. Changes
/// can be appended when a snapshot was written.
///
/// # Errors
/// Where a restart finds nothing in the bytes.
pub fn open_log<C: FolderCalls + Drop>(
    calls: C,
    bytes: Vec<u8>,
) -> Result<(FolderLog<C>, FileCursor), OpenFault>
    ensures opened { IfOk result (λ x.
        IsOpenedLog bytes.items (log_parts x.0) (remaining_items x.1.bytes.items x.1.at)) }
    ensures nothing_found { OnErr result ((c : Contents) → ¬ (IsFoundInFile bytes.items c)) }
    ensures place { (place : ℕ) → IsErrOf result (OpenFault.Damaged place)
        → place ≡ length bytes.items - length
        (leading_entries (mark_of bytes.items) bytes.items).1 }
{
    let scanner = match scan_bytes(&bytes) {
        Ok(scanner) => scanner,
        Err(fault) => return Err(fault),
    };
    let disk = Disk::new(calls, &bytes);
    Ok((log_of(disk, scanner), FileCursor::new(bytes)))
}
