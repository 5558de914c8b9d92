// The reasons for which a connection ends.

/// Why a connection ended (RFC 9112, section 9).
#[derive(Clone, Copy, PartialEq, Eq)]
pub enum CloseReason {
    /// After a reply that closes it, or at the end of its bytes.
    Closed,
    /// A read failed, and the stream's counter of read faults rose.
    ReadFailed,
    /// A write failed, and the stream's counter of write faults rose.
    WriteFailed,
}
