//! Names of documents: application usages with their AUIDs and namespaces, homes, and printed
//! names.
//! Promises upward that `same` is equality part by part (`same_id`), and the exact text of a
//! printed name (`id_text`).
//! The standards are RFC 4825, section 6.2, RFC 4826, and RFC 3986 for the escapes.
#![tactic(auto)]

mod doc_id;
mod escapes;
mod print;
mod usages;

pub use doc_id::{Auid, DocId, Home};
pub use escapes::{push_escaped_octets, push_escaped_part};
pub use print::print_doc_id;
pub use usages::Usage;
