//! Faults of a text beside its form.

/// A kind of fault, which has a place in the text.
#[derive(Clone, Copy, PartialEq, Eq)]
pub enum FaultKind {
    /// The XML declaration names an encoding that isn't read.
    Encoded,
    /// There is a document type before the root element.
    Doctyped,
    /// A start tag is at this depth.
    Depth(usize),
    /// A name has an unbound prefix, or a declaration isn't allowed.
    Unbound,
    /// A prefix is declared again, or an attribute has the expanded name of an earlier one.
    Repeated,
}
