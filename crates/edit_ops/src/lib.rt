//! Changes of a document's tree, where each element is afterwards, and change records. A change is
//! made in place, in two steps or as a new tree; from change records (`EditNote`) xcap-diff
//! documents are written.
//! Promises upward that a change makes exactly the `edited` tree, that every element beside it is
//! found unchanged where `moved` says (`KeepsOtherElements`), that a record is `note_of` its change
//! and tree, and that its weight is the length of its operation's text, at most `usize::MAX`.
//! The standards are RFC 4825, sections 8.2.3, 8.2.4 and 8.4, RFC 5874 and RFC 5261.
//! The memory for a change is outside the tree until the change is made (`Staged`), as contracts
//! don't see a vector's capacity.
#![tactic(auto)]

mod apply;
mod change;
mod edit;
mod edit_note;
mod lent_notes;
mod moved_path_laws;
mod moved_paths;
mod printed_lengths;
mod rebuild_tree;
mod record_bindings;
mod record_lengths;
mod record_weight;
mod recorded_tree;
mod staged_change;

pub use apply::apply_change;
pub use change::Change;
pub use edit::Edit;
pub use edit_note::EditNote;
pub use lent_notes::Notes;
pub use moved_path_laws::elements_beside_a_change_stay;
pub use moved_paths::{moved, path_through};
pub use printed_lengths::{element_len, printed_len_after};
pub use rebuild_tree::{rebuilt, without_children};
pub use recorded_tree::RecordedTree;
pub use staged_change::{Staged, apply_staged, stage};
