//! A peer whose connections lead to a server in memory.
//! Promises upward that what is written on a connection is served at the first read after it, as
//! the bytes of one connection of the server, and that its replies are then read (`ReadsFromPeer`,
//! `ServesWritten`); a write and a read fail exactly where the buffers are full (`WritesToPeer`,
//! `IsReplyBufferSpent`).
//! The model is the project's own; no standard defines it.
//! An incomplete request is a 400 at the first read after it. Replies beyond the room are dropped,
//! and the server doesn't learn of it.
#![tactic(auto)]

mod peer;
mod replies;
mod serve_bytes;
mod server_end;
mod written_bytes;

pub use peer::ServerPeer;
