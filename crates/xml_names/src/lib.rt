//! Names and texts of XML: characters, lists, names, attributes, and what declarations bind
//! prefixes to. Also the lengths of their prints.
//! Contracts see a text as its characters. Promised upward are the classes of characters
//! (`is_name`), what is bound in lists of declarations (`bound_uri`, `in_scope_bindings`), and how
//! names, values and texts are printed (`print_attr`, `print_text`). There are no trees here.
//! The standards are XML 1.0 (fifth edition) and Namespaces in XML 1.0. Names are compared as
//! written; prefixes are ordered by code point.
#![tactic(auto)]

mod bindings;
mod characters;
mod escaped_lengths;
mod indexed_decls;
mod inline_text;
mod limits;
mod list;
mod names;
mod prefixes;
mod read_error;
mod references;
mod scope_laws;
mod small_text;
mod small_text_storage;
mod tag_lengths;
mod text;
mod text_storage;

pub use bindings::in_scope_bindings;
pub use characters::{is_char, is_name, is_name_char, is_name_start, is_space};
pub use escaped_lengths::{escaped_text_len, escaped_value_len, is_plain_text, is_plain_value};
pub use indexed_decls::{IndexedDecls, index_decls};
pub use limits::MAX_LEVELS;
pub use list::List;
pub use names::{
    Attr, Decl, LocalName, Name, Prefix, copy_attrs, copy_decls, push_decl, same_attrs, same_decls,
};
pub use prefixes::{is_xml_prefix, is_xmlns_prefix, nearest_uri, non_empty_uri, xml_uri};
pub use read_error::ReadError;
pub use references::{text_reference, value_reference};
pub use scope_laws::bindings_are_those_of_the_scope;
pub use small_text::SmallText;
pub use tag_lengths::{attr_len, attrs_len, decl_len, decls_len, name_len};
pub use text::Text;
