//! The calls on a folder of the system.
//! It has the file `log`, its draft `log.new`, and `lock`, which is locked as long as the folder is
//! open. All three are readable by their owner alone.
//! Upward: nothing is proved but that it is safe. That a call does what its answer says is trusted,
//! as `log_disk` states it: a write puts its bytes after those that are there, a sync returns when
//! the disk has them, and a rename happens whole or not at all (POSIX.1-2017, rename, fdatasync).
#![tactic(auto)]

mod folder_opening;
mod std_folder;

pub use folder_opening::{FolderOpenFault, open_folder};
pub use std_folder::StdFolder;
