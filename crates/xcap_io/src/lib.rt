//! Byte sources and sinks, ports and peers, in memory and over real streams and TCP sockets. Ports
//! accept connections, and peers make them. Each call adds the bytes that it read or wrote to the
//! stream's state (`GivesBytes`, `TakesBytes`, `AcceptsNext`, `Connects`); bytes read are the next
//! ones left where the stream shows them, and a call fails only if a fault counter rose
//! (`CountsFaults`, `CountRises`). The model is this project's own; no standard defines it.
//! What an object doesn't show of its state is None, not an empty list: real streams don't show
//! what is left, nor sockets which connections are to come.
#![tactic(auto)]

mod address_history;
mod bytes;
mod full_writes;
mod io_pair;
mod mem_peer;
mod mem_port;
mod mem_stream;
mod mem_streams;
mod std_streams;
mod streams;
mod tcp;
mod tcp_peer;
mod traffic_log;
mod write_buffer;

pub use address_history::AddressHistory;
pub use bytes::Bytes;
pub use full_writes::write_all;
pub use io_pair::IoPair;
pub use mem_peer::MemPeer;
pub use mem_port::MemPort;
pub use mem_stream::MemStream;
pub use std_streams::{StdSink, StdSource};
pub use streams::{Failed, Line, Peer, Port, Sink, Source, count_fault};
pub use tcp::TcpPort;
pub use tcp_peer::TcpPeer;
pub use traffic_log::TrafficLog;
pub use write_buffer::{WriteBuffer, flush, put};
