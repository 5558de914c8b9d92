//! What a change inserts into the tree of a stored document.
use crate::printed_tree::PrintedTree;
use edit_ops::Staged;

/// What a change inserts, with all its memory.
#[derive(Drop)]
pub enum StagedTree {
    /// The root that replaces the tree, shared with the change record.
    Whole(PrintedTree),
    /// What is inserted into the tree in place.
    InPlace(Staged),
}
