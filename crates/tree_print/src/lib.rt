//! Printing documents, elements and attribute bodies.
//! Promises upward that the printed bytes are the print of the tree (`document_print`, `print`)
//! and of the value (`body_print`), in UTF-8.
//! The standards are XML 1.0 (fifth edition) and Namespaces in XML 1.0, and RFC 4825 (section
//! 15.2.2) for attribute bodies.
#![tactic(auto)]

mod escapes;
mod lent_print;
mod output;
mod parts;
mod pieces;
mod printing;

pub use lent_print::LentPrint;
pub use pieces::{Pieces, print_pieces};
pub use printing::{is_empty_prefix, print_att_value, print_document, print_element};
