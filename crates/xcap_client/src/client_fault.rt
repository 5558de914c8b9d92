// Why a call of the client gave no response.
ghost use Rattle.std.specs.Prelude.{◌≡◌};
ghost use Rattle.xcap_client.specs.declared.client_fault.ClientFault.TheVariants as faults;
ghost use Rattle.xcap_client.specs.Exchanges.{exchange_fault};

use crate::ResponseFault;
use std::alloc::AllocError;
use thiserror::Error;
use xcap_io::Failed;
use xml_names::Text;

/// Why a call gave no response.
#[derive(Debug, Drop, Error)]
pub enum ClientFault {
    /// The peer didn't connect, or a write or a read failed: its count of such faults rose.
    #[error("the peer failed")]
    PeerFault,
    /// The status is no success. Where the body is an error document, this is the error that it
    /// names (RFC 4825, section 11).
    #[error("refused {0}")]
    Refused(u16, Option<Text>),
    /// The bytes that came are no response.
    #[error("bad response: {0}")]
    BadResponse(ResponseFault),
    /// Out of memory.
    #[error("out of memory")]
    NoMemory,
}

impl From<AllocError> for ClientFault {
    ghost from_gives = { λ _ fault. fault ≡ faults.NoMemory };

    fn from(_error: AllocError) -> Self {
        ClientFault::NoMemory
    }
}

impl From<Failed> for ClientFault {
    ghost from_gives = { λ _ fault. fault ≡ faults.PeerFault };

    fn from(_failed: Failed) -> Self {
        ClientFault::PeerFault
    }
}

impl From<ResponseFault> for ClientFault {
    ghost from_gives = { λ response fault. fault ≡ exchange_fault response };

    fn from(fault: ResponseFault) -> Self {
        match fault {
            ResponseFault::ReadFailed => ClientFault::PeerFault,
            ResponseFault::NoMemory => ClientFault::NoMemory,
            other => ClientFault::BadResponse(other),
        }
    }
}
