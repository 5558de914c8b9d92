//! GET and HEAD of feeds (RFC 5874, section 3; RFC 9110, sections 9.3.1 and 9.3.2).
ghost use Rattle.std.specs.Prelude.{IfOk};
ghost use Rattle.xcap_machine.specs.Answers.{reply_only};
ghost use Rattle.xcap_machine.specs.Feeds.{ReadsFeed};

use crate::feed_replies::notice_reply;
use doc_names::DocId;
use http_wire::Request;
use patch_write::{gone_notice, notice};
use reply_text::Reply;
use request_checks::Method;
use std::alloc::{AllocError, Global};
use store_core::{Since, Store};
use xcap_uri::{Mode, Root};

/// A requested feed: the diff processing mode, the tag of the version that the client has, and the
/// document.
#[derive(Clone, Copy)]
pub struct Feed<'a> {
    pub mode: Mode,
    pub tag: u64,
    pub doc: &'a DocId,
}

/// The reply to a GET or HEAD of a feed: the diff document of the document's changes since the
/// version with the tag, or the one that says the document is gone, where it isn't stored; 410
/// where the tag is neither the document's own nor the one before a retained change. Conditions
/// are ignored. HEAD gets the head of GET's reply.
///
/// # Errors
/// `AllocError` when out of memory.
pub fn get_feed(
    alloc: Global,
    root: &Root,
    store: &Store,
    feed: Feed<'_>,
    method: Method,
    request: &Request,
) -> Result<Reply, AllocError>
    ensures machine_reply { IfOk result (λ r. ReadsFeed
        (record { root = root.now; content = store.now.content })
        (record { mode = feed.entry.mode; tag = feed.entry.tag; id = feed.entry.doc.now })
        (record { method = method; request = request.now }) (reply_only r)) }
{
    let text = match store.since(feed.doc, feed.tag) {
        Since::Gone => gone_notice(alloc, root, feed.doc, feed.tag)?,
        Since::Unknown => return Ok(Reply::fixed(410, request.closes)),
        Since::Changes(notes) => notice(alloc, feed.mode, root, feed.doc, feed.tag, &notes)?,
    };
    Ok(notice_reply(text, method, request.closes))
}
