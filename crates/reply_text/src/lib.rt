//! The bytes of HTTP replies: statuses, media types, the head and the body. Each reply is exactly
//! `sent_reply` of its parts, and each media type `media_type`. The standards are RFC 9112,
//! sections 2.1, 4, 5, 6.2 and 9.6, and RFC 9110, sections 8.3, 8.8.3, 10.2.1 and 15.
//! A head is written into a buffer of 384 bytes within the reply, so `fixed`, `method`, `with` and
//! `lent` neither allocate nor fail.
#![tactic(auto)]

mod head_buffer;
mod media_types;
mod replies;
mod statuses;

pub use media_types::{MediaType, media_type};
pub use replies::Reply;
pub use statuses::reason;
