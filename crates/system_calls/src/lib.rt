//! The calls of the system for sockets and streams, each function one call and its answer.
//! This crate is the edge that is trusted.
//! Promises upward of the bytes of a stream only what the stream itself shows of them, that counts
//! are within the buffer that was lent, and nothing of where bytes come from or go to: that
//! `listen` binds the address, `connect` reaches it, and that a socket carries one connection's
//! bytes is what `tools/try-deployment` tries.
//! The interface is POSIX.1-2017's, by way of Rattle's `std`.
//! A time-out or an option that the system doesn't have is passed over.
#![tactic(auto)]

mod clock;
mod sockets;
mod streams;

pub use clock::now;
pub use sockets::{
    Accepted, accept, connect, listen, set_nodelay, set_read_timeout, set_write_timeout,
};
pub use streams::{read, write};
