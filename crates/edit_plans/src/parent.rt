//! The element that a change goes into.
use usage_docs::ElementKind;
use xml_tree::{Element, LinkedScope, Path};

/// The element that a change goes into, with what is known of it once it is found.
#[derive(Drop)]
pub(crate) struct Parent<'a> {
    pub(crate) element: &'a Element,
    pub(crate) path: &'a Path,
    /// Its element kind, if it has one.
    pub(crate) kind: Option<ElementKind>,
    /// The scope inside it.
    pub(crate) scope: &'a LinkedScope<'a>,
}
