//! PUT and DELETE of documents and of their nodes.
//! Promises upward that each reply and each change are those of the abstract machine
//! (`put_document`, `put_node`, `delete_document`, `delete_node`, by `DecidesAnswer`). They are
//! decided before anything is changed: a change then has all its memory reserved, and only has to
//! be committed.
//! The standard is RFC 4825, sections 8.2, 8.4 and 11, with the conditions of RFC 9110, section
//! 13.
//! A fragment is read with the levels left at its edit target, of 64; with none left each text is
//! `not-xml-frag`. The reply to the DELETE of a document has no etag.
#![tactic(auto)]

mod conflicts;
mod decision;
mod decisions;
mod documents;
mod fragment_puts;
mod nodes;
mod plan;
mod refusal_replies;
mod request_bodies;

pub use decision::Decision;
pub use documents::{delete_document, put_document};
pub use nodes::{delete_node, missing_parent_reply, put_node};
