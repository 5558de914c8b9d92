//! A log of changes that outlasts a crash, as a server uses it (`ChangeLog`).
//! It has a snapshot in parts, and the changes since, each with the next number; `LogCursor` reads
//! one from the start.
//! Upward: a change that was appended is found by every restart, one whose append failed by some
//! or by none, and the contracts say so of every moment (`HoldsAtEachMoment`); after a failed sync
//! every later change is refused. What is beneath the trait is an adapter. The model is this
//! project's own; no standard defines it.
#![tactic(auto)]

mod change_log;
mod limits;
mod log_cursor;
mod log_history;

pub use change_log::{AppendFault, ChangeLog, SnapshotFault};
pub use limits::MAX_CONTENT_BYTES;
pub use log_cursor::{LogCursor, LogItem};
pub use log_history::LogHistory;
