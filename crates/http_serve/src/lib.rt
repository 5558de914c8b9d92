//! Serves connections, one after the other, with any `Machine` that answers requests. One
//! connection to its end is `serve_stream`, the connections of a port are `serve_streams`. Upward:
//! the bytes written on each connection, the machine's state afterwards and the edits that
//! watchers were notified of are what the machine's steps give for the requests in the
//! connections' bytes (`ServesStream`, `ServesPort`); a connection or a port fails only if its
//! fault counter rose. The standard is HTTP/1.1 by RFC 9112.
//! What watchers are notified of is any type (`Machine::Edit`), so connections know no documents.
#![tactic(auto)]

mod accept_loop;
mod connection;
mod connection_buffers;
mod item_answers;
mod machine;
mod sent_replies;

pub use accept_loop::{ServeSummary, StopReason, serve_streams};
pub use connection::serve_stream;
pub use connection_buffers::ConnectionBuffers;
pub use http_wire::CloseReason;
pub use item_answers::{answer_next, notify_of_edit};
pub use machine::{Machine, MachineReply};
