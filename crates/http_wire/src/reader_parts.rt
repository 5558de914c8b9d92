//! Parts of the reader, for readers that are given bytes in another way.

pub use crate::chunk_decoder::{ChunkState, next_state};
pub use crate::framing::{Framing, read_framing};
pub use crate::head_scan::{HeadScan, rescan_head, scan_head};
pub use crate::limits::MAX_HELD_BYTES;
pub use crate::request::make_request;
