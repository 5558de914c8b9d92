//! GET and HEAD of feeds of elements (RFC 5874, section 3; RFC 9110, sections 9.3.1 and 9.3.2).
ghost use Rattle.std.specs.Prelude.{IfOk};
ghost use Rattle.xcap_machine.specs.Answers.{reply_only};
ghost use Rattle.xcap_machine.specs.ElementFeeds.{ReadsElementFeed};

use crate::feed_replies::notice_reply;
use element_watch::{ElementFault, Watch, element_notice};
use http_wire::Request;
use patch_write::gone_notice;
use reply_text::Reply;
use request_checks::Method;
use std::alloc::{AllocError, Global};
use store_core::Store;
use xcap_uri::Root;

/// The reply to a GET or HEAD of the feed of an element: its diff document since the version of
/// the document with the tag, or the diff document that says the document is gone, where it isn't
/// stored; 410 where the tag is neither the document's own nor the one before a retained change.
/// Conditions are ignored. HEAD gets the head of GET's reply.
///
/// # Errors
/// `AllocError` when out of memory.
pub fn get_element_feed(
    alloc: Global,
    root: &Root,
    store: &Store,
    watch: Watch<'_>,
    method: Method,
    request: &Request,
) -> Result<Reply, AllocError>
    ensures machine_reply { IfOk result (λ r. ReadsElementFeed
        (record { root = root.now; content = store.now.content })
        (record {
          tag = watch.entry.tag;
          watched =
              record {
                doc = watch.entry.doc.now;
                selector = watch.entry.selector.now;
                raw = watch.entry.raw.now;
              };
        })
        (record { method = method; request = request.now }) (reply_only r)) }
{
    let text = match element_notice(alloc, store, root, watch) {
        Ok(text) => text,
        Err(ElementFault::Gone) => gone_notice(alloc, root, watch.doc, watch.tag)?,
        Err(ElementFault::Unknown) => return Ok(Reply::fixed(410, request.closes)),
        Err(ElementFault::NoMemory) => return Err(AllocError),
    };
    Ok(notice_reply(text, method, request.closes))
}
