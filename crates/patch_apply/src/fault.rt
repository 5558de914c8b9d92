//! Why a text is no diff document, and why a diff document can't be applied.
ghost use Rattle.std.specs.Prelude.{◌≡◌};
ghost use Rattle.patch_apply.specs.inner.OutcomeViews.{fault_of_operation};

use patch_parse::OperationError;
use thiserror::Error;
use xml_names::Text;

/// Why bytes are no diff document.
#[derive(Clone, Copy, Debug, Drop, PartialEq, Eq, Error)]
pub enum NoticeFault {
    /// They are no XML document that has the form of a diff document (RFC 5874, section 3).
    #[error("not a notice")]
    NotADiff,
}

/// Why a diff document can't be applied. Of several faults the first is reported, in the order of
/// `document`s and of the operations in them. Operations are counted from 1 over the whole diff
/// document; a number beyond the greatest `usize` is reported as the greatest.
#[derive(Debug, Drop, PartialEq, Eq, Error)]
pub enum ApplyFault {
    /// It is about another document.
    #[error("another document")]
    WrongDocument,
    /// It starts from another tag than the replica's, or the replica is empty.
    #[error("another tag")]
    WrongTag { held: Option<Text>, wanted: Text },
    /// The selector of this operation selects nothing.
    #[error("operation {0}: nothing selected")]
    Unlocated(usize),
    /// A prefix of this operation isn't bound, or is bound differently at the place that it
    /// changes.
    #[error("operation {0}: prefix")]
    NamespacePrefix(usize),
    /// This operation has attributes that are no directive.
    #[error("operation {0}: directive")]
    Directive(usize),
    /// This operation would remove the root, or put something beside it.
    #[error("operation {0}: root")]
    RootOperation(usize),
    /// The content of this operation doesn't fit its action.
    #[error("operation {0}: kinds of nodes")]
    NodeTypes(usize),
    /// White space that this operation removes isn't there.
    #[error("operation {0}: white space")]
    Whitespace(usize),
}

/// The fault of the operation of a number.
pub(crate) fn fault_of_operation(error: OperationError, number: usize) -> ApplyFault
    ensures exact { result ≡ fault_of_operation number error }
{
    match error {
        OperationError::Directive => ApplyFault::Directive(number),
        OperationError::Prefix => ApplyFault::NamespacePrefix(number),
        OperationError::Unlocated => ApplyFault::Unlocated(number),
        OperationError::RootTouched => ApplyFault::RootOperation(number),
        OperationError::WrongNodes => ApplyFault::NodeTypes(number),
        OperationError::NoSpace => ApplyFault::Whitespace(number),
    }
}
