// Why there is no response.
ghost use Rattle.std.specs.Prelude.{◌≡◌};
ghost use Rattle.xcap_client.specs.declared.response_fault.FillError.TheVariants as stops;
ghost use Rattle.xcap_client.specs.declared.response_fault.ResponseFault.TheVariants as faults;
ghost use Rattle.xcap_client.specs.ReadFaults.{response_fault_of};

use std::alloc::AllocError;
use thiserror::Error;

/// Why there is no response.
#[derive(Clone, Copy, Debug, Drop, PartialEq, Eq, Error)]
pub enum ResponseFault {
    /// A read of the source failed, and its count of such faults rose.
    #[error("a read failed")]
    ReadFailed,
    /// The bytes don't begin with the head of a response.
    #[error("head")]
    Head,
    /// There is a `Transfer-Encoding`.
    #[error("coding")]
    Coding,
    /// There is more than one `Content-Length`, or one that is no number.
    #[error("length")]
    Length,
    /// The body's length in bytes, which is more than the limit; without a `Content-Length`, the
    /// first number beyond the limit.
    #[error("too-long {0}")]
    TooLong(u64),
    /// The number of bytes of the body that came, and the number that were due.
    #[error("short {0} {1}")]
    Short(u64, u64),
    /// Out of memory.
    #[error("out of memory")]
    NoMemory,
}

// Why a read into the buffer failed.
#[derive(Clone, Copy, PartialEq, Eq)]
pub(crate) enum FillError {
    ReadFailed,
    NoMemory,
}

impl From<AllocError> for FillError {
    ghost from_gives = { λ _ stop. stop ≡ stops.NoMemory };

    fn from(_error: AllocError) -> Self {
        FillError::NoMemory
    }
}

impl From<AllocError> for ResponseFault {
    ghost from_gives = { λ _ fault. fault ≡ faults.NoMemory };

    fn from(_error: AllocError) -> Self {
        ResponseFault::NoMemory
    }
}

impl From<FillError> for ResponseFault {
    ghost from_gives = { λ stop fault. fault ≡ response_fault_of stop };

    fn from(stop: FillError) -> Self {
        match stop {
            FillError::ReadFailed => ResponseFault::ReadFailed,
            FillError::NoMemory => ResponseFault::NoMemory,
        }
    }
}
