// Why a follower learned nothing.
ghost use Rattle.std.specs.Prelude.{◌≡◌};
ghost use Rattle.client_follower.specs.declared.follower_fault.FollowerFault.TheVariants as faults;
ghost use Rattle.client_follower.specs.FollowerFaults.{fault_of_apply, fault_of_client, of_notice};
ghost use Rattle.client_follower.specs.FollowerFaults.{fault_of_text};

use patch_apply::{ApplyFault, NoticeFault};
use std::alloc::AllocError;
use thiserror::Error;
use tree_text::TextFault;
use xcap_client::ClientFault;
use xml_names::ReadError;

/// Why a follower learned nothing. It is then as it was.
#[derive(Debug, Drop, Error)]
pub enum FollowerFault {
    /// The call failed, or its response was refused.
    #[error("{0}")]
    Client(ClientFault),
    /// The response has a document and no etag.
    #[error("a document without a tag")]
    BadTag,
    /// The response has an etag, and its body is no document of at most `MAX_LEVELS` levels.
    #[error("no document: {0}")]
    BadText(TextFault),
    /// The body of a feed's response is no diff document.
    #[error("{0}")]
    BadNotice(NoticeFault),
    /// The diff document can't be applied to the replica.
    #[error("{0}")]
    Apply(ApplyFault),
    /// Out of memory.
    #[error("out of memory")]
    NoMemory,
}

impl From<AllocError> for FollowerFault {
    ghost from_gives = { λ _ fault. fault ≡ faults.NoMemory };

    fn from(_error: AllocError) -> Self {
        FollowerFault::NoMemory
    }
}

impl From<ClientFault> for FollowerFault {
    ghost from_gives = { λ client fault. fault ≡ fault_of_client client };

    fn from(fault: ClientFault) -> Self {
        match fault {
            ClientFault::NoMemory => FollowerFault::NoMemory,
            other => FollowerFault::Client(other),
        }
    }
}

impl From<ReadError<TextFault>> for FollowerFault {
    ghost from_gives = { λ error fault. fault ≡ fault_of_text error };

    fn from(error: ReadError<TextFault>) -> Self {
        match error {
            ReadError::Fault(fault) => FollowerFault::BadText(fault),
            ReadError::NoMemory => FollowerFault::NoMemory,
        }
    }
}

impl From<ReadError<NoticeFault>> for FollowerFault {
    ghost from_gives = { λ error fault. fault ≡ of_notice error };

    fn from(error: ReadError<NoticeFault>) -> Self {
        match error {
            ReadError::Fault(fault) => FollowerFault::BadNotice(fault),
            ReadError::NoMemory => FollowerFault::NoMemory,
        }
    }
}

impl From<ReadError<ApplyFault>> for FollowerFault {
    ghost from_gives = { λ error fault. fault ≡ fault_of_apply error };

    fn from(error: ReadError<ApplyFault>) -> Self {
        match error {
            ReadError::Fault(fault) => FollowerFault::Apply(fault),
            ReadError::NoMemory => FollowerFault::NoMemory,
        }
    }
}
