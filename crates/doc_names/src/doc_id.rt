//! Names of documents (RFC 4825, section 6.2). Two names are equal where their parts are, so they
//! serve as keys of maps.
ghost use Rattle.std.specs.Prelude.{◌≡◌, ◌↔◌, IsTrue, IfOk};
ghost use Rattle.doc_names.specs.NameEquality.{same_id};

use std::alloc::{AllocError, Global};
use xml_names::Text;

/// An application usage.
#[derive(Clone, Copy, PartialEq, Eq, Hash)]
pub enum Auid {
    ResourceLists,
    RlsServices,
    XcapCaps,
}

/// The home of a document: the global tree or a user's.
#[derive(Drop, PartialEq, Eq, Hash)]
pub enum Home {
    /// Under `global`.
    Global,
    /// Under `users`, with this XCAP user identifier.
    User(Text),
}

/// The name of a document.
#[derive(Drop, PartialEq, Eq, Hash)]
pub struct DocId {
    pub auid: Auid,
    pub home: Home,
    pub name: Text,
}

impl Home {
    /// An equal home.
    ///
    /// # Errors
    /// `AllocError` when out of memory.
    pub fn copy(&self, alloc: Global) -> Result<Home, AllocError>
        ensures equal_copy { IfOk result (λ made. made ≡ self.now) }
    {
        match self {
            Home::Global => Ok(Home::Global),
            Home::User(xui) => {
                let xui = xui.copy(alloc)?;
                Ok(Home::User(xui))
            }
        }
    }
}

impl DocId {
    /// An equal name.
    ///
    /// # Errors
    /// `AllocError` when out of memory.
    pub fn copy(&self, alloc: Global) -> Result<DocId, AllocError>
        ensures equal_copy { IfOk result (λ made. made ≡ self.now) }
    {
        let home = self.home.copy(alloc)?;
        let name = self.name.copy(alloc)?;
        Ok(DocId {
            auid: self.auid,
            home,
            name,
        })
    }

    /// Whether two names are equal. Does not allocate.
    pub fn same(&self, other: &DocId) -> bool
        ensures equal_iff { IsTrue result ↔ (self.now ≡ other.now) }
        ensures exact { result ≡ same_id self.now other.now }
    {
        self == other
    }
}
