//! Attributes and declarations as written in a start tag.
use crate::text_span::Size;
use xml_names::{Name, Text};

/// An attribute or a declaration in a start tag.
#[derive(Drop)]
pub struct RawAttribute<'a> {
    pub name: Name,
    /// Its value, as read.
    pub value: Text,
    /// How many characters of white space come before it.
    pub gap: usize,
    /// How many characters it has.
    pub size: Size<'a>,
}
