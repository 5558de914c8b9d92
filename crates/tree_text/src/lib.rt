//! Reading texts of XML documents, fragments and attribute bodies.
//! Promises upward that a text is read exactly as its grammar says, each fault with its place
//! (`IsTextResult`, `IsBodyResult`), and without the places as what it spells
//! (`bytes_are_read_as_they_spell`), and that what `tree_print` prints is read back
//! (`prints_are_read_back`).
//! The standards are XML 1.0 (fifth edition) and Namespaces in XML 1.0, for the texts of RFC
//! 4825.
//! A foreign encoding is reported before every other fault, at the end of its declaration, and
//! `<!DOCTYPE` at its `<`.
#![tactic(auto)]

mod attribute_bodies;
mod attribute_meanings;
mod bindings;
mod document_reader;
mod elements;
mod empty_elements;
mod fault;
mod names;
mod namespaces;
mod print_laws;
mod raw_attribute;
mod reading_laws;
mod start_tags;
mod text_span;

pub use attribute_bodies::read_att_value;
pub use document_reader::{read_document, read_fragment};
pub use fault::{TextFault, ValueFault};
pub use print_laws::{
    prints_are_read_back, prints_spell_what_was_printed, scopes_leave_xmlns_unbound,
};
pub use reading_laws::{
    bodies_have_one_answer, bytes_are_read_as_they_spell, texts_have_one_answer,
};
pub use tree_print::{print_att_value, print_document, print_element};
