//! The limits of the store. They are this server's own; no standard sets any. A change that would
//! break `MAX_DOCUMENT_BYTES` or one of the limits of a store gets a 507.
ghost use Rattle.std.specs.Prelude.{◌≡◌};
ghost use Rattle.store_core.specs.State.{default_limits};
ghost use Rattle.store_core.specs.inner.HomeSums.{limits_homes};

/// The greatest number of documents where no other limit is given: 1,000.
pub const DEFAULT_DOCUMENTS: usize = 1_000;

/// The greatest number of bytes of a printed document: 262,144.
pub const MAX_DOCUMENT_BYTES: usize = 262_144;

/// The greatest number of bytes of all printed documents together where no other limit is given:
/// 33,554,432.
pub const DEFAULT_BYTES: u64 = 33_554_432;

/// The greatest limit of documents that may be given: 2^32.
pub const MAX_DOCUMENT_LIMIT: usize = 4_294_967_296;

/// The greatest limit of bytes that may be given: 2^60.
pub const MAX_BYTE_LIMIT: u64 = 1_152_921_504_606_846_976;

/// The greatest number of retained change records of a document: 64, the newest ones. A feed from
/// a version before them gets a 410.
pub const MAX_NOTES: usize = 64;

/// The greatest weight of a document's retained records together: 65,536 bytes of operations,
/// unless the newest record alone weighs more. Older records are dropped.
pub const MAX_WEIGHT: usize = 65_536;

/// What a store may hold, as it is given when the store is made.
#[derive(Clone, Copy)]
pub struct Limits {
    /// The greatest number of documents, at most `MAX_DOCUMENT_LIMIT`.
    pub documents: usize,
    /// The greatest number of bytes of all printed documents together, at most `MAX_BYTE_LIMIT`.
    pub bytes: u64,
    /// The greatest number of documents of one user, of all application usages; no limit if there
    /// is none.
    pub home_documents: Option<usize>,
    /// The greatest number of bytes of all printed documents of one user together; no limit if
    /// there is none.
    pub home_bytes: Option<u64>,
}

impl Limits {
    /// The limits where no others are given: `DEFAULT_DOCUMENTS`, `DEFAULT_BYTES`, and none for one
    /// user. Does not allocate.
    pub fn usual() -> Limits
        ensures exact { result ≡ default_limits }
    {
        Limits {
            documents: DEFAULT_DOCUMENTS,
            bytes: DEFAULT_BYTES,
            home_documents: None,
            home_bytes: None,
        }
    }

    // Whether the documents of one user are limited.
    pub(crate) fn limits_homes(&self) -> bool
        ensures exact { result ≡ limits_homes self.now }
    {
        self.home_documents.is_some() || self.home_bytes.is_some()
    }
}
