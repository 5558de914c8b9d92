//! The edit target of a PUT: what its address means in a document (RFC 4825, section 8.2.1).

use xml_tree::Path;

/// What the address of a PUT means in a document: its edit target.
#[derive(Drop)]
pub enum Spot {
    /// It selects the element at this path.
    Over(Path),
    /// Its last step selects nothing, and the other steps the element at this path: the parent.
    Under(Path),
    /// It has one step, which selects nothing: the element would be beside the root.
    Beside,
    /// It names an attribute of the element at this path.
    Value(Path),
}

/// There is no parent: at most this many of the address's first steps select an element.
#[derive(Clone, Copy)]
pub struct NoParent {
    pub steps: usize,
}
