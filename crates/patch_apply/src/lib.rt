//! Reads a text as a diff document, and applies it to a replica of its document.
//! Promises upward that the answer, or the first fault with its number, is the one that
//! `patch_rules` specifies, whoever wrote the diff document (`apply_notice`, by `IsApplyAnswer`),
//! that a text is read exactly where it is a diff document (`read_notice`, by `NoticeAnswer`), and
//! that after a fault and when out of memory the replica is as it was.
//! The standards are RFC 5874 (xcap-diff) and RFC 5261 (patch operations).
//! Operations are counted over all documents of one diff document. Of a `sel` the parts of the
//! document's name are compared, not the root.
#![tactic(auto)]

mod apply_diffs;
mod attributes;
mod diff_reader;
mod document_ids;
mod document_outcomes;
mod edits;
mod elements;
mod fault;
mod locations;
mod nodes;
mod operations;
mod replica;

pub use apply_diffs::apply_notice;
pub use diff_reader::{Notice, read_notice};
pub use fault::{ApplyFault, NoticeFault};
pub use replica::{Applied, Replica, ReplicaVersion};
