//! A kept document.
use xml_tree::Element;

/// The tree of a document, and the number of the change that made it.
#[derive(Drop)]
pub struct MirrorEntry {
    pub tree: Element,
    pub number: u64,
}
