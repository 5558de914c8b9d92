//! The tokens that documents, selectors and addresses are made of, read from the front of a text.
//! They are characters by their classes, names, references and values.
//! Promises upward that each call reads exactly what its rule spells (`IsSameResult`), or returns
//! why it stops, with the rest of the text there.
//! The standards are XML 1.0 (fifth edition) and Namespaces in XML 1.0.
#![tactic(auto)]

mod attribute_values;
mod character_classes;
mod character_runs;
mod digit_runs;
mod encoding_characters;
mod fault_kind;
mod parse_error;
mod plain_characters;
mod raw_name;
mod text_buffers;
mod text_offsets;
mod tokens;

pub use attribute_values::{
    is_quote, push_raw, push_reference_piece, quote, raw_run, reference, reference_follows, value,
};
pub use character_classes::{Class, run};
pub use character_runs::{
    content_run, equals_ignoring_case, normalize_lines, starts_with_word, strip_word, up_to,
};
pub use digit_runs::digits;
pub use encoding_characters::is_letter;
pub use fault_kind::FaultKind;
pub use parse_error::ParseError;
pub use raw_name::{
    RawName, common_qname, end_tag, owned_qname, qname, tag_front_len, to_owned_name,
};
pub use text_buffers::{chars_of_text, empty_text, name_part, text_of};
pub use text_offsets::{rest_before, rest_offset};
pub use tokens::{
    ascii_letter, equals, is_space_next, letter, name, required_spaces, spaces, starts_with_name,
    word,
};
