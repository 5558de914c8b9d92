// The limits of records and journals. They are this server's own; no standard sets any.

/// The greatest number of bytes of a record after its length: 300,000. The record of a request that
/// was read from a connection has fewer.
pub const MAX_CONTENT_BYTES: usize = 300_000;

/// The greatest number of bytes of a record, its length included: 300,004.
pub const MAX_RECORD_BYTES: usize = MAX_CONTENT_BYTES + 4;

/// The greatest number of bytes of an old journal that are read: 4,294,967,296. A longer one is
/// refused as too long.
pub const MAX_JOURNAL_BYTES: u64 = 4_294_967_296;
