//! GET and HEAD of documents and their nodes, of feeds, and of flat lists. A feed is what became
//! of a document or an element since a version, a flat list a service's addresses with references
//! resolved.
//! Promises upward for each the exact reply of the machine on the store's contents (clause
//! `machine_reply` of `get_document`, `get_node`, `get_feed`, `get_element_feed` and
//! `get_flat_list`), and that the contents are unchanged.
//! The standards are RFC 4825, sections 7 and 8.3, RFC 4826, sections 3 and 4, RFC 5874, section
//! 3, RFC 5875, section 4.3, and RFC 9110, sections 9.3 and 13.
//! A GET of a node makes its text before it checks the conditions, so a 304 costs what the text
//! costs.
#![tactic(auto)]

mod document_lookup;
mod documents;
mod element_feeds;
mod feed_replies;
mod feeds;
mod flat_lists;
mod lent_replies;
mod nodes;
mod service_index;
mod text_replies;

pub use documents::get_document;
pub use element_feeds::get_element_feed;
pub use feeds::{Feed, get_feed};
pub use flat_lists::get_flat_list;
pub use lent_replies::{lend_document, lend_node};
pub use nodes::get_node;
