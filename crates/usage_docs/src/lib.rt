//! The document types as one table of element kinds, their keys and references, and computed
//! documents. The types are resource-lists and rls-services; computed are the index of services
//! and the capabilities document.
//! Promises upward the exact validity of a document (`IsValidDocument`), the form of its
//! references (`MeetsConstraints`), its first clash of keys (`IsFirstClash`), its first fault
//! (`HasFirstFault`), and the exact computed documents.
//! The standards are RFC 4826, and RFC 4825, section 12 for the capabilities.
//! The first attribute of a name counts. `constraints` and `first_clash` don't need a valid
//! document: elements without a kind are passed over.
#![tactic(auto)]

mod address_states;
mod attributes;
mod capabilities;
mod child_scan;
mod content_parts;
mod element_maker;
mod insertion_laws;
mod key_repeats;
mod path_trail;
mod reference_forms;
mod schema_table;
mod service_index;
mod service_lengths;
mod service_uris;
mod validation;
mod validation_laws;
mod validation_result;
mod validity;

pub use attributes::{are_attrs_allowed, key_of, key_value, value_of};
pub use capabilities::capabilities_document;
pub use content_parts::{END, may_follow, part_of};
pub use insertion_laws::insertion_is_local;
pub use key_repeats::Clash;
pub use reference_forms::are_references_formed;
pub use schema_table::{ElementKind, Key, is_root, kind_of, root_kind};
pub use service_index::{INDEX_LIMIT, IndexBuilder, IndexFault};
pub use service_uris::{ServiceUris, services};
pub use validation::{
    Fault, clash_below, constraints, first_clash, first_fault, is_formed_child, is_valid_child,
    schema,
};
pub use validation_laws::each_tree_has_one_judgement;
