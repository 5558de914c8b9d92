//! Requests read from bytes that are given as they come (`RequestFeed`); nothing here waits.
//! So a server can have one for each of many connections. Upward: what `next` returns is
//! the first item of the bytes given, however they were cut, or that none is complete in them
//! (`IsNextOf`); `next_at_end` returns the item where a read found their end (`IsLastOf`); and the
//! law says that the requests that came are those with which all bytes given begin
//! (`HasReadRequests`). Its buffers grow by need, within the limit of `http_wire`, and are freed
//! when nothing is held. HTTP/1.1 by RFC 9112.
#![tactic(auto)]

mod chunk_data;
mod item_reader;
mod laws;
mod read_buffer;
mod request_feed;

pub use http_wire::Asked;
pub use laws::requests_come_in_order;
pub use request_feed::RequestFeed;
