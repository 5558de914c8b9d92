//! The decision on a request, before anything is changed.
use reply_text::Reply;
use store_core::Prepared;

/// The decision on a request, before anything is changed.
#[derive(Drop)]
pub enum Decision {
    /// The request gets this reply, and changes nothing.
    Stays(Reply),
    /// The request makes this change, for which all memory is reserved, and gets this reply once
    /// it is made.
    Changes { reply: Reply, prepared: Prepared },
}
