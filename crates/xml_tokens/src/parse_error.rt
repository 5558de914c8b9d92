//! Why reading stops.
ghost use Rattle.std.specs.Prelude.{◌≡◌};
ghost use Rattle.xml_tokens.specs.declared.parse_error.ParseError.TheVariants.{Memory};

use crate::fault_kind::FaultKind;
use std::alloc::{AllocError, AllocFailed};

/// Why reading stops, and the rest of the text there.
#[derive(Drop)]
pub enum ParseError<'a> {
    /// After the longest beginning.
    Syntax(&'a str),
    /// At the place of a fault of this kind.
    Faulty(FaultKind, &'a str),
    /// Out of memory.
    Memory,
}

impl From<AllocError> for ParseError<'_> {
    ghost from_gives = { λ _ e. e ≡ Memory };

    fn from(_error: AllocError) -> Self {
        ParseError::Memory
    }
}

impl<T: Drop> From<AllocFailed<T>> for ParseError<'_> {
    ghost from_gives = { λ _ e. e ≡ Memory };

    fn from(_error: AllocFailed<T>) -> Self {
        ParseError::Memory
    }
}
