//! Following a document of this server, end to end: from a version held to the present one. A
//! subscriber requests the feed of the changes since its version, and applies the diff document of
//! the reply.
//! Promises upward that the request asks for exactly that feed, and that the server lets its
//! sender read it (`requests_ask_for_feeds`); what comes of the reply, with each fault and its
//! cause (`update_replica`, by `FollowsFeed`); and that a subscriber with a version since which the
//! server has the changes then has exactly the server's version (`HoldsCurrentVersion`).
//! The standards are RFC 5874 (xcap-diff), RFC 5875, section 4.3, and RFC 9110, section 9.3.1; the
//! address of a feed is this server's own.
//! A document of nobody has no feed (`has_feed`). The subscriber's copy may be one of another
//! document: then a diff document that names one is refused.
#![tactic(auto)]

mod feed_requests;
mod follow_fault;
mod laws;
mod replica_updates;

pub use feed_requests::{feed_request, has_feed};
pub use follow_fault::FollowFault;
pub use laws::requests_ask_for_feeds;
pub use replica_updates::{is_within_levels, update_replica};
