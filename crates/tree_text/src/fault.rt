//! Why a text or a body can't be read.

use thiserror::Error;

/// Why bytes are no document or fragment. Places are byte offsets. Of several faults the one with
/// the least place is reported; of faults at one place the first in this order: `TooDeep`,
/// `Namespace`, `RepeatedAttribute`, `NotUtf8`, `Doctype`.
#[derive(Debug, PartialEq, Eq, Drop, Error)]
pub enum TextFault {
    /// The bytes aren't UTF-8, or a whole XML declaration names another encoding than UTF-8 and
    /// US-ASCII.
    #[error("not UTF-8")]
    NotUtf8,
    /// The longest beginning of a document ends here.
    #[error("not well-formed at byte {0}")]
    NotWellFormed(usize),
    /// A name here has an unbound prefix, or is a declaration that isn't allowed (Namespaces in
    /// XML 1.0, sections 3 and 5).
    #[error("namespace error at byte {0}")]
    Namespace(usize),
    /// The tag already has a declaration of this prefix, or an attribute of the same expanded
    /// name (section 6.3).
    #[error("attribute repeated at byte {0}")]
    RepeatedAttribute(usize),
    /// A start tag that is deeper than the limit begins here.
    #[error("too deep at byte {0}")]
    TooDeep(usize),
    /// A document type declaration begins here.
    #[error("document type at byte {0}")]
    Doctype(usize),
}

/// Why bytes are no body that spells a value. The place is a byte offset.
#[derive(Debug, PartialEq, Eq, Drop, Error)]
pub enum ValueFault {
    /// The bytes aren't UTF-8.
    #[error("not UTF-8")]
    NotUtf8,
    /// Here is a `<`, a `&` that begins no reference, or a character that isn't a Char: the first
    /// of them.
    #[error("not a value at byte {0}")]
    NotValue(usize),
}
