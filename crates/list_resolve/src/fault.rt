//! Why there is no flat list.

use thiserror::Error;
use xml_names::ReadError;

/// Why there is no flat list, or out of memory.
pub(crate) type FlatError = ReadError<FlatFault>;

/// Why a service has no flat list, or a flat list no document.
#[derive(Clone, Copy, Debug, Drop, PartialEq, Eq, Error)]
pub enum FlatFault {
    /// The document isn't stored, or has no service with this address.
    #[error("no such service")]
    NoService,
    /// The walk meets more than `MARK_LIMIT` references.
    #[error("too many references")]
    TooWide,
    /// The printed document would have this many bytes, which is too many.
    #[error("{0} bytes are too many")]
    TooLarge(usize),
}
