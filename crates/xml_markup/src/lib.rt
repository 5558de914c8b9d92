//! Markup beside elements: the XML declaration, comments, CDATA sections, processing instructions.
//! Also what surrounds the root element.
//! Promises upward that each call reads exactly what its rule spells (`Gives`), or returns why it
//! stops, with the rest of the text there; and that a comment that is read can occur in a tree.
//! The standard is XML 1.0 (fifth edition).
#![tactic(auto)]

mod markup;
mod xml_declaration;

pub use markup::{cdata_section, comment, epilog, processing_instruction, prolog};
pub use xml_declaration::{optional_declaration, skip_bom};
