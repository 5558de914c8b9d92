// The limits of a log.

/// The greatest number of bytes of a change, or of a part of a snapshot: 1,048,576.
pub const MAX_CONTENT_BYTES: usize = 1_048_576;
