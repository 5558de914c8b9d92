//! The entries of a log's file: their form, and which of them are whole in some bytes.
//! An entry has a mark, a length, a checksum and a number (`append_entry`, `entry_at`,
//! `has_entry`). Upward: an entry that was written is read again, whatever comes after it, and
//! nothing is assumed of the checksum. The form is this project's own; no standard defines it.
#![tactic(auto)]

mod checksums;
mod entry_reading;
mod entry_writing;

pub use entry_reading::{entry_at, has_entry};
pub use entry_writing::append_entry;
