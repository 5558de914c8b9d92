//! Limits of documents. They are this server's own; no standard sets any.

/// The greatest depth of a document, the root element being 1.
pub const MAX_LEVELS: usize = 64;
