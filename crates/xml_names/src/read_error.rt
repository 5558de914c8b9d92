//! Why a call has no result: a fault, or out of memory.
ghost use Rattle.std.specs.Prelude.{◌≡◌};
ghost use Rattle.xml_names.specs.declared.read_error.ReadError.TheVariants as errors;

use std::alloc::{AllocError, AllocFailed};
use std::fmt::Display;
use thiserror::Error;

/// Why something isn't read or made: it has a fault, or memory ran out.
#[derive(Debug, PartialEq, Eq, Drop, Error)]
pub enum ReadError<F: Display> {
    /// This fault.
    #[error("{0}")]
    Fault(F),
    /// Out of memory.
    #[error("out of memory")]
    NoMemory,
}

impl<F: Drop + Display> From<AllocError> for ReadError<F> {
    ghost from_gives = { λ _ e. e ≡ errors.NoMemory };

    fn from(_error: AllocError) -> Self {
        ReadError::NoMemory
    }
}

impl<T: Drop, F: Drop + Display> From<AllocFailed<T>> for ReadError<F> {
    ghost from_gives = { λ _ e. e ≡ errors.NoMemory };

    fn from(_error: AllocFailed<T>) -> Self {
        ReadError::NoMemory
    }
}
