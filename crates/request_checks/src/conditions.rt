//! Outcomes of a request's conditions.

/// The outcome of a request's conditions (RFC 9110, section 13.2.2).
#[derive(Clone, Copy, PartialEq, Eq)]
pub enum Outcome {
    /// A condition field can't be read.
    Unreadable,
    /// The request goes on.
    Go,
    /// The client already has what it asks for.
    NotModified,
    /// A condition doesn't hold.
    Failed,
}
