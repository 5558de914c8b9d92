//! Why a target is refused.
ghost use Rattle.std.specs.Prelude.{◌≡◌};
ghost use Rattle.xcap_uri.specs.readers.Targets.{error_of};

use node_select::SelectorFault;
use thiserror::Error;
use xml_names::ReadError;

/// Why a target is refused. Of several faults the first in this order is reported: `OutsideRoot`,
/// `BadEscape`, then `BadShape` or `UnknownAuid`, then `BadQuery`, then `BadSelector` or
/// `UnboundPrefix`.
#[derive(Clone, Copy, Debug, Drop, PartialEq, Eq, Error)]
pub enum UriFault {
    /// It is not under the root.
    #[error("outside the root")]
    OutsideRoot,
    /// Its first segment is no AUID.
    #[error("unknown application usage")]
    UnknownAuid,
    /// Its segments name nothing.
    #[error("no address of a document")]
    BadShape,
    /// A `%` without two hexadecimal digits, or octets that aren't UTF-8.
    #[error("bad escape")]
    BadEscape,
    /// The query isn't a sequence of bindings.
    #[error("bad query")]
    BadQuery,
    /// A prefix in the selector is not bound.
    #[error("unbound prefix")]
    UnboundPrefix,
    /// The text after the separator is no selector.
    #[error("bad selector")]
    BadSelector,
}

/// The target's fault for a fault of its selector.
pub fn uri_error(error: ReadError<SelectorFault>) -> ReadError<UriFault>
    ensures exact { result ≡ error_of error }
{
    match error {
        ReadError::Fault(SelectorFault::BadSelector(_)) => ReadError::Fault(UriFault::BadSelector),
        ReadError::Fault(SelectorFault::UnboundPrefix(_)) => {
            ReadError::Fault(UriFault::UnboundPrefix)
        }
        ReadError::NoMemory => ReadError::NoMemory,
    }
}
