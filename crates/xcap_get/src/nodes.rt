//! GET and HEAD of nodes of documents (RFC 4825, sections 7.6, 7.9, 7.10 and 8.3).
ghost use Rattle.std.specs.Prelude.{◌≤◌, IfOk};
ghost use Rattle.xml_names.specs.declared.limits.TheConstants.{MAX_LEVELS};
ghost use Rattle.xml_tree.specs.Tree.{height};
ghost use Rattle.reply_bodies.specs.Nodes.{encode_optional, found_text, node_media_type};
ghost use Rattle.xcap_machine.specs.Answers.{reply_only};
ghost use Rattle.xcap_machine.specs.ReadRequests.{ReadsNode, AnswersWithFound};

use crate::document_lookup::{DocumentLookup, find_resource};
use crate::text_replies::text_reply;
use doc_names::DocId;
use http_wire::Request;
use node_select::Selector;
use reply_bodies::{found_text, node_media_type};
use reply_text::Reply;
use request_checks::{Method, condition_reply};
use std::alloc::{AllocError, Global};
use store_core::Store;
use xml_tree::Element;

// The reply with a node of a document, which is looked up before the conditions are tested. Its
// tag is the document's.
fn node_reply(
    alloc: Global,
    root: &Element,
    tag: u64,
    selector: &Selector,
    method: Method,
    request: &Request,
) -> Result<Reply, AllocError>
    requires height_bounded { height root.now ≤ MAX_LEVELS }
    ensures sends_found { IfOk result
        (λ r. AnswersWithFound (encode_optional (found_text root.now selector.now)) tag
        (node_media_type selector.now.end) (record { method = method; request = request.now })
        (reply_only r)) }
{
    let Some(text) = found_text(alloc, root, selector)? else {
        return Ok(Reply::fixed(404, request.closes));
    };
    if let Some(reply) = condition_reply(alloc, request, Some(tag), true, true)? {
        return Ok(reply);
    }
    let media = node_media_type(&selector.end);
    Ok(text_reply(Some(tag), media, text, method, request.closes))
}

/// The reply to a GET or HEAD of a node of a document: what the selector finds, as it is sent,
/// with the document's tag; 404 where there is no document or nothing is found; else as for
/// documents. Nodes of computed documents are read like those of stored ones.
///
/// # Errors
/// `AllocError` when out of memory.
pub fn get_node(
    alloc: Global,
    store: &Store,
    doc: &DocId,
    selector: &Selector,
    method: Method,
    request: &Request,
) -> Result<Reply, AllocError>
    ensures machine_reply { IfOk result
        (λ r. ReadsNode store.now.content doc.now selector.now
        (record { method = method; request = request.now }) (reply_only r)) }
{
    match find_resource(alloc, store, doc)? {
        DocumentLookup::Absent => Ok(Reply::fixed(404, request.closes)),
        DocumentLookup::BeyondLimit => Ok(Reply::fixed(507, request.closes)),
        DocumentLookup::Held(root, tag) => node_reply(alloc, root, tag, selector, method, request),
        DocumentLookup::Computed(root, tag) => node_reply(
            alloc, &root, tag, selector, method, request,
        ),
    }
}
