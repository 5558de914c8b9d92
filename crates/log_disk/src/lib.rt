//! A folder with one file, on a disk that may crash at any moment, and the calls on it.
//! `FolderCalls` are the calls, `Disk` keeps what they answered, and `MemFolder` is one in memory
//! that fails by a plan.
//! Upward: after each answer contracts see what is on the disk for certain (`FolderState`), and
//! what a crash may leave (`CrashMayLeave`) is a definition on it. That a call does what its answer
//! says is trusted, and no clause says that a call succeeds. The model is this project's own.
#![tactic(auto)]

mod disk;
mod folder_calls;
mod folder_history;
mod mem_folder;

pub use disk::Disk;
pub use folder_calls::{FolderCalls, FolderFault};
pub use folder_history::FolderHistory;
pub use mem_folder::{FaultPlan, MemFolder};
