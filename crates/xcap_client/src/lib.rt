//! The client: requests written, responses read, and the calls that fetch, put and remove a
//! resource. A request goes to a sink, a response comes from a source, and a call is one exchange
//! over a connection of its own.
//! Promises upward that on the connection the peer took exactly the request, or a proper prefix of
//! it where a write failed (`write_request`, `ConnectsOnce`); that the answer is the meaning of
//! the response's bytes, of which there is one (`IsResponseOf`, `bytes_say_one_thing`); and that
//! each fault has its cause (`peer_faults_have_causes`).
//! The standards are RFC 4825, sections 7, 8 and 11, RFC 9110 and RFC 9112.
//! A fault of the length comes before the status. Bytes after the body don't count, and a tag
//! that can't be read is none.
#![tactic(auto)]

mod address;
mod asks;
mod body_length;
mod calls;
mod client_fault;
mod error_documents;
mod etags;
mod exchange_laws;
mod exchanges;
mod head_scan;
mod laws;
mod read_buffer;
mod request;
mod response;
mod response_fault;

pub use asks::copy_user;
pub use body_length::MAX_RESPONSE_BODY_BYTES;
pub use calls::{fetch, put, remove};
pub use client_fault::ClientFault;
pub use exchange_laws::{bytes_say_one_thing, known_bytes_decide, requests_are_understood};
pub use laws::{calls_make_one_connection, peer_faults_have_causes};
pub use request::{Ask, write_request};
pub use response::{Response, read_response};
pub use response_fault::ResponseFault;
