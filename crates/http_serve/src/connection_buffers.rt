//! The buffers for serving connections.
ghost use Rattle.std.specs.Prelude.{◌≡◌, []};

use http_wire::RequestReader;
use std::alloc::{AllocError, Global};
use xcap_io::WriteBuffer;

/// The buffers of all connections, which are served one after the other: a request reader and a
/// write buffer.
#[derive(Drop)]
pub struct ConnectionBuffers {
    pub(crate) alloc: Global,
    pub(crate) request_reader: RequestReader,
    pub(crate) write_buffer: WriteBuffer,
    ghost idle: { write_buffer ≡ [] },
}

impl ConnectionBuffers {
    /// Allocates all memory that connections need, except for their requests and replies, which
    /// are allocated by `alloc`.
    ///
    /// # Errors
    /// `NoMemory` when out of memory.
    pub fn new(alloc: Global) -> Result<ConnectionBuffers, AllocError> {
        Ok(ConnectionBuffers {
            alloc,
            request_reader: RequestReader::new(alloc)?,
            write_buffer: WriteBuffer::new(),
        })
    }
}
