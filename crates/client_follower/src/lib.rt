//! A follower: it fetches a document, and keeps a replica up to date by the document's feed. Also
//! laws on the connections that the client's calls begin.
//! Promises upward that each round asks for the changes since the replica's etag, and for the
//! document where the feed doesn't suffice (`RunsRound`, `StartsFollower`); that after a fault the
//! follower is as it was; and that a call and a start begin at most one connection, a round at most
//! two (`calls_begin_one_connection`, `rounds_begin_at_most_two_connections`).
//! The standards are RFC 4825, sections 7 and 8, RFC 5874 and RFC 5875.
#![tactic(auto)]

mod feed_paths;
mod feed_rounds;
mod fetched_documents;
mod follower;
mod follower_fault;
mod laws;

pub use feed_paths::user_as_str;
pub use feed_rounds::Round;
pub use follower::Follower;
pub use follower_fault::FollowerFault;
pub use laws::{
    calls_begin_one_connection, rounds_begin_at_most_two_connections, starts_begin_one_connection,
};
