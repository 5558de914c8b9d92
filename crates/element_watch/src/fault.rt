//! Why there is no xcap-diff document about an element.
ghost use Rattle.std.specs.Prelude.{◌≡◌};
ghost use Rattle.element_watch.specs.declared.fault.ElementFault.TheVariants as faults;

use std::alloc::AllocError;
use thiserror::Error;

/// Why there is no xcap-diff document about an element.
#[derive(Clone, Copy, Debug, Drop, PartialEq, Eq, Error)]
pub enum ElementFault {
    /// Its document isn't stored.
    #[error("the document is gone")]
    Gone,
    /// The etag is neither its document's own nor the one before a retained change.
    #[error("the version isn't known")]
    Unknown,
    /// Out of memory.
    #[error("out of memory")]
    NoMemory,
}

impl From<AllocError> for ElementFault {
    ghost from_gives = { λ _ e. e ≡ faults.NoMemory };

    fn from(_error: AllocError) -> Self {
        ElementFault::NoMemory
    }
}
