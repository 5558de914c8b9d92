//! Replies to conditions (RFC 9110, sections 13.1.1 and 13.1.2).
ghost use Rattle.std.specs.Prelude.{◌≡◌, IfOk};
ghost use Rattle.request_checks.specs.Conditions.{IsConditionReply, outcome_reply};

use crate::{Outcome, outcome};
use http_wire::Request;
use reply_text::Reply;
use std::alloc::{AllocError, Global};
use xcap_io::Bytes;

// The reply of an outcome; None where the request goes on. Does not allocate.
fn outcome_reply(alloc: Global, outcome: Outcome, tag: Option<u64>, closes: bool) -> Option<Reply>
    ensures exact { result ≡ outcome_reply outcome tag closes }
{
    match outcome {
        Outcome::Unreadable => Some(Reply::fixed(400, closes)),
        Outcome::Go => None,
        Outcome::NotModified => Some(Reply::with(304, tag, None, Bytes::new(alloc), closes)),
        Outcome::Failed => Some(Reply::fixed(412, closes)),
    }
}

/// The reply that the conditions of a request give in place of what it asks: 400 where they can't
/// be read, 304 where a reading client already has the document, else 412; None where they hold.
/// The arguments are those of `outcome`.
///
/// # Errors
/// `AllocError` when out of memory.
pub fn condition_reply(
    alloc: Global,
    request: &Request,
    tag: Option<u64>,
    exists: bool,
    reading: bool,
) -> Result<Option<Reply>, AllocError>
    ensures exact { IfOk result (λ reply. IsConditionReply request.now tag exists reading reply) }
{
    let outcome = outcome(alloc, request, tag, exists, reading)?;
    Ok(outcome_reply(alloc, outcome, tag, request.closes))
}
