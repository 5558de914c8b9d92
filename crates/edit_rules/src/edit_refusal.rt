//! Why a PUT or DELETE of a node makes no change (RFC 4825, sections 8.2.3 to 8.2.5 and 8.4).

use thiserror::Error;
use usage_docs::Fault;

/// Why there is no change. The first of these that applies is returned, in this order.
#[derive(Debug, Drop, Error)]
pub enum EditRefusal {
    /// Nothing is selected.
    #[error("nothing is selected")]
    NotFound,
    /// The address wouldn't select what was put there.
    #[error("the address would not select what is put there")]
    CannotInsert,
    /// The address would still select something.
    #[error("the address would still select something")]
    CannotDelete,
    /// The resulting document would have this fault, its first one.
    #[error("the document would not be one of its usage")]
    Faulty(Fault),
}
