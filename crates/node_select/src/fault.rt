//! Why a text isn't a selector.

use thiserror::Error;

/// Why a text isn't a selector. Places are byte offsets.
#[derive(Debug, PartialEq, Eq, Drop, Error)]
pub enum SelectorFault {
    /// The longest beginning of a selector ends here.
    #[error("not a selector at byte {0}")]
    BadSelector(usize),
    /// The text has the form of a selector. Here begins the first name whose prefix isn't bound.
    #[error("unbound prefix at byte {0}")]
    UnboundPrefix(usize),
}
