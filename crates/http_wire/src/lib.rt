//! The requests of a connection, read from its bytes however they are cut, and the replies written
//! to it. Upward: `next_request` returns the first item of the connection's bytes
//! (`ReadsNextRequest`, `IsNextItem`, `IsFirstItem`), and a read or write fails only if its fault
//! counter rose; the laws say that the bytes have one sequence of items (`IsItemSequence`) and that
//! bytes given so far decide. The limits are in `limits`. HTTP/1.1 by RFC 9112, with the fields of
//! RFC 9110. A chunked body is decoded as it comes, into a second buffer, so nothing is copied
//! until the request is whole. Chunk lines have a grammar of this crate's own.
#![tactic(auto)]

mod body_decoder;
mod chunk_decoder;
mod close_reason;
mod framing;
mod head_scan;
mod laws;
mod lent_reply;
mod limits;
pub mod reader_parts;
mod reply_writer;
mod request;
mod request_reader;
mod request_sequence;

pub use close_reason::CloseReason;
// Lookup of fields by name, and comparing and trimming, which readers of other fields use too.
pub use framing::{FieldLookup, find_field, is_same_ignoring_case, trim_end, trim_start};
pub use laws::{
    bytes_have_one_item_sequence, complete_items_stay_first, given_bytes_determine_first_item,
};
pub use lent_reply::LentReply;
pub use limits::{MAX_BODY_BYTES, MAX_FIELD_LINES, MAX_HEAD_BYTES, MAX_REQUESTS};
pub use reply_writer::{write_lent, write_lent_through, write_reply, write_reply_through};
pub use request::{Asked, Field, Request, token_text};
pub use request_reader::{ReadFault, RequestReader};
pub use request_sequence::next_request;
