//! A log of changes in a folder (`FolderLog`): one file, a write and a sync for each change.
//! A snapshot takes the file's place by a rename; `open_log` opens such a file, `FileCursor` reads
//! it.
//! Upward: the contracts of `ChangeLog`; and whatever a crash leaves of the folder at any moment,
//! a restart finds in it what the log's history says of that moment, or by chance other bytes have
//! the mark and the checksum of an entry (`HasSoundParts`, `FindsPossibleContents`). Nothing is
//! assumed of the checksum. The form of the file is this project's own; no standard defines it.
#![tactic(auto)]

mod entry_kinds;
mod file_cursor;
mod folder_log;
mod log_opening;

pub use file_cursor::FileCursor;
pub use folder_log::FolderLog;
pub use log_opening::{OpenFault, open_log};
