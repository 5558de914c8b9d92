//! Reads diff documents: their form, and the names, patch actions, selectors and contents in them.
//! Promises upward that each part is the one that `patch_rules` specifies, or refused with the
//! error that it specifies, and that names are compared by what they mean in their scopes.
//! The standards are RFC 5874 (xcap-diff) and RFC 5261 (patch operations).
#![tactic(auto)]

mod diff_names;
mod document_elements;
mod expanded_names;
mod operation_content;
mod operation_error;
mod patch_actions;
mod patch_forms;
mod selectors;

pub use diff_names::{are_known_attributes, plain_value};
pub use document_elements::{
    documents, is_body_unchanged, is_notice, new_tag, operations_of_document, previous_tag,
};
pub use expanded_names::{attr_names_agree, has_attr, names_agree};
pub use operation_content::{content_value, has_only_comments, is_blank, sole_element};
pub use operation_error::OperationError;
pub use patch_actions::{PatchAction, Position, read_patch_action};
pub use selectors::selector_for;
