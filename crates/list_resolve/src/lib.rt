//! Flat lists of services: the addresses of all entries that a service's list and references lead
//! to. Upward: `flat_list` returns exactly the list that the walk of the stored documents defines
//! (`IsFlatList`, `flat_list_of`), for every web of references, circles among them, and each
//! service address has exactly one result (`services_have_one_flat_list`).
//! The standard is RFC 4826, sections 3 and 4; the limits on chains and references are this
//! server's own.
#![tactic(auto)]

mod document_place;
mod fault;
mod flat_documents;
mod flat_lists;
mod laws;
mod reference;
mod resolution;
mod scoped_element;
mod uri_collector;
mod visit_chain;
mod walk;

pub use fault::FlatFault;
pub use flat_documents::flat_document;
pub use flat_lists::flat_list;
pub use laws::services_have_one_flat_list;
