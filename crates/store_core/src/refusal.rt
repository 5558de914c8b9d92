//! Why a change of a document is refused.

use usage_docs::Clash;

/// Why the store refuses a change. Of several reasons the first in this order is reported.
#[derive(Drop)]
pub enum StoreRefusal {
    /// Another document has the address of this service.
    ServiceTaken(Clash),
    /// The document would have this many bytes, more than `MAX_DOCUMENT_BYTES`.
    TooLarge(usize),
    /// As many documents are stored as the limits allow.
    TooMany,
    /// All documents together would have this many bytes, more than the limits allow.
    StoreFull(u64),
    /// The user has as many documents as the limits allow one user.
    HomeTooMany,
    /// The user's documents together would have this many bytes, more than the limits allow one
    /// user.
    HomeFull(u64),
    /// The greatest number has been used.
    NoNumber,
}
