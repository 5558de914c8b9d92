//! What is wrong with an operation.

use thiserror::Error;

/// What is wrong with an operation (RFC 5261, section 5.1).
#[derive(Clone, Copy, Debug, Drop, Error)]
pub enum OperationError {
    /// Its attributes are no directive.
    #[error("directive")]
    Directive,
    /// A prefix isn't bound, or is bound differently at the place that it changes.
    #[error("prefix")]
    Prefix,
    /// Its selector selects nothing.
    #[error("nothing selected")]
    Unlocated,
    /// It would remove the root, or put something beside it.
    #[error("root")]
    RootTouched,
    /// Its content doesn't fit its action.
    #[error("kinds of nodes")]
    WrongNodes,
    /// White space that it removes isn't there.
    #[error("white space")]
    NoSpace,
}
