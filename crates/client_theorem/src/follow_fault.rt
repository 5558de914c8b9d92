//! Why a document couldn't be followed.
ghost use Rattle.std.specs.Prelude.{◌≡◌};
ghost use Rattle.client_theorem.specs.FollowFaults.{apply_fault, notice_fault};
ghost use Rattle.client_theorem.specs.declared.follow_fault.FollowFault.TheVariants as faults;

use patch_apply::{ApplyFault, NoticeFault};
use std::alloc::AllocError;
use thiserror::Error;
use xml_names::ReadError;

/// Why a document couldn't be followed, the first reason in this order.
#[derive(Debug, Drop, PartialEq, Eq, Error)]
pub enum FollowFault {
    /// The replica is empty.
    #[error("nothing is held")]
    Nothing,
    /// The replica's tag isn't one that this server gives: a number from 1 to the greatest of 64
    /// bits, in digits and without leading zero.
    #[error("the tag is no number")]
    BadTag,
    /// The reply has this status, which isn't 200.
    #[error("status {0}")]
    Status(u16),
    /// The body of the reply is no diff document.
    #[error("{0}")]
    Notice(NoticeFault),
    /// The diff document can't be applied.
    #[error("{0}")]
    Apply(ApplyFault),
    /// Out of memory.
    #[error("out of memory")]
    NoMemory,
}

impl From<AllocError> for FollowFault {
    ghost from_gives = { λ _ fault. fault ≡ faults.NoMemory };

    fn from(_error: AllocError) -> Self {
        FollowFault::NoMemory
    }
}

impl From<ReadError<NoticeFault>> for FollowFault {
    ghost from_gives = { λ error fault. fault ≡ notice_fault error };

    fn from(error: ReadError<NoticeFault>) -> Self {
        match error {
            ReadError::Fault(fault) => FollowFault::Notice(fault),
            ReadError::NoMemory => FollowFault::NoMemory,
        }
    }
}

impl From<ReadError<ApplyFault>> for FollowFault {
    ghost from_gives = { λ error fault. fault ≡ apply_fault error };

    fn from(error: ReadError<ApplyFault>) -> Self {
        match error {
            ReadError::Fault(fault) => FollowFault::Apply(fault),
            ReadError::NoMemory => FollowFault::NoMemory,
        }
    }
}
