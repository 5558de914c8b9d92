// The limits of requests. They are this server's own, as RFC 9110 (section 5.4) and RFC 9112
// (sections 3 and 7.1.1) allow.

/// The greatest number of bytes of a head, from its first line to the empty one: 16,384. A longer
/// head gets a 400.
pub const MAX_HEAD_BYTES: usize = 16_384;

/// The greatest number of field lines of a head: 64. A head with more gets a 400.
pub const MAX_FIELD_LINES: usize = 64;

/// The greatest number of bytes of a body, after decoding: 262,144. A longer body gets a 413.
pub const MAX_BODY_BYTES: usize = 262_144;

/// The greatest number of digits of a chunk size: 16. A size with more gets a 400.
pub const MAX_DIGITS: usize = 16;

/// The greatest number of bytes of a chunk line, its line end included: 256. A longer line gets a
/// 400.
pub const MAX_LINE_BYTES: usize = 256;

/// The greatest number of bytes of a chunk line without its line end: 254.
pub const MAX_LINE: usize = MAX_LINE_BYTES - 2;

/// The greatest number of bytes of all trailer lines of a body together: 16,384. More get a 400.
pub const MAX_TRAILER_BYTES: usize = 16_384;

/// The greatest number of requests of a connection: 1,000. The reply to the last one closes it.
pub const MAX_REQUESTS: usize = 1_000;

/// The greatest number of buffered bytes of a connection: a head and a body.
pub const MAX_HELD_BYTES: usize = MAX_HEAD_BYTES + MAX_BODY_BYTES;
