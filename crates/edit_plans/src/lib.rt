//! Plans the change that a PUT or a DELETE of a node makes, or returns why it makes none. It does
//! so by one descent to the parent and its children, before there is a new document. Upward: each
//! result is what the definitions of `edit_rules` state, which try every insertion point, make the
//! change, and select and validate in the new document (`plan_put`, `plan_attr`, `plan_delete`,
//! `put_spot`). The standard is RFC 4825, sections 8.2.1 to 8.2.5 and 8.4.
//! A change of attributes is an exchange of the element's start tag. Plans are made in documents
//! without faults, as a store's are.
#![tactic(auto)]

mod attribute_changes;
mod child_attributes;
mod child_changes;
mod delete_node;
mod insert_child;
mod insertion_points;
mod parent;
mod put_attribute;
mod put_element;
mod remove_child;
mod replace_child;
mod root_changes;
mod siblings;
mod spots;

pub use delete_node::plan_delete;
pub use edit_rules::{EditRefusal, NoParent, Spot};
pub use put_attribute::plan_attr;
pub use put_element::plan_put;
pub use spots::put_spot;
