//! GET and HEAD of documents (RFC 4825, sections 7.3 and 8.3).
ghost use Rattle.std.specs.Prelude.{◌≡◌, Some, IfOk, IfSome, encode_utf8_all};
ghost use Rattle.xml_tree.specs.Tree.{Tree};
ghost use Rattle.xml_tree.specs.Print.{document_print};
ghost use Rattle.request_checks.specs.MediaTypes.{document_media_type};
ghost use Rattle.request_checks.specs.Methods.{reply_for_method};
ghost use Rattle.xcap_machine.specs.Answers.{found_reply, reply_only};
ghost use Rattle.xcap_machine.specs.ReadRequests.{ReadsDocument, AnswersWithFound};
ghost use Rattle.xcap_machine.specs.Resources.{IsResourceOf, there};
ghost use Rattle.xcap_get.specs.inner.StoredDocuments.{IsStoredWithTag};

use crate::document_lookup::{DocumentLookup, find_resource};
use crate::text_replies::text_reply;
use doc_names::{DocId, Home};
use http_wire::Request;
use reply_text::{MediaType, Reply};
use request_checks::{Method, condition_reply, document_media_type};
use std::alloc::{AllocError, Global};
use store_core::Store;
use tree_print::print_document;
use xml_tree::Element;

// The reply with a document that is printed here, and only where the conditions pass.
fn document_reply(
    alloc: Global,
    root: &Element,
    tag: u64,
    media: MediaType,
    method: Method,
    request: &Request,
) -> Result<Reply, AllocError>
    ensures sends_found { IfOk result
        (λ r. AnswersWithFound (Some (encode_utf8_all (document_print root.now))) tag media
        (record { method = method; request = request.now }) (reply_only r)) }
{
    if let Some(reply) = condition_reply(alloc, request, Some(tag), true, true)? {
        return Ok(reply);
    }
    let text = print_document(alloc, root)?;
    Ok(text_reply(Some(tag), media, text, method, request.closes))
}

// The reply to a GET or HEAD of any document, which is printed here.
fn get_and_print(
    alloc: Global,
    store: &Store,
    doc: &DocId,
    method: Method,
    request: &Request,
) -> Result<Reply, AllocError>
    ensures machine_reply { IfOk result
        (λ r. ReadsDocument store.now.content doc.now
        (record { method = method; request = request.now }) (reply_only r)) }
{
    let media = document_media_type(doc.auid);
    match find_resource(alloc, store, doc)? {
        DocumentLookup::Absent => Ok(Reply::fixed(404, request.closes)),
        DocumentLookup::BeyondLimit => Ok(Reply::fixed(507, request.closes)),
        DocumentLookup::Held(root, tag) => document_reply(alloc, root, tag, media, method, request),
        DocumentLookup::Computed(root, tag) => document_reply(
            alloc, &root, tag, media, method, request,
        ),
    }
}

// ---- stored documents

// The tag of a user's document, if it is stored.
fn stored_tag(store: &Store, doc: &DocId) -> Option<u64>
    ensures tag_of_stored { IfSome result (λ tag. IsStoredWithTag store.now.content doc.now tag) }
{
    let Home::User(_) = &doc.home else {
        return None;
    };
    match store.get(doc) {
        Some((_, tag)) => Some(tag),
        None => None,
    }
}

// The reply with a user's document that is stored with this tag, as the store prints it.
fn printed_reply(
    store: &mut Store,
    doc: &DocId,
    tag: u64,
    method: Method,
    closes: bool,
) -> Result<Reply, AllocError>
    requires stored_there { IsStoredWithTag store.old.content doc.now tag }
    ensures sends_printed { IfOk result
        (λ r. (t : Tree) × IsResourceOf store.old.content doc.now (there t tag)
        × (r ≡ reply_for_method method
        (found_reply (Some tag) (document_media_type doc.now.auid)
        (encode_utf8_all (document_print t)) closes))) }
    ensures contents_unchanged { store.new ≡ store.old }
{
    let Some(text) = store.print(doc)? else {
        unreachable!()
    };
    let media = document_media_type(doc.auid);
    Ok(text_reply(Some(tag), media, text, method, closes))
}

// The reply for a document that is stored with this tag: its print, where the conditions pass.
fn stored_reply(
    alloc: Global,
    store: &mut Store,
    doc: &DocId,
    tag: u64,
    method: Method,
    request: &Request,
) -> Result<Reply, AllocError>
    requires stored_there { IsStoredWithTag store.old.content doc.now tag }
    ensures machine_reply { IfOk result
        (λ r. ReadsDocument store.old.content doc.now
        (record { method = method; request = request.now }) (reply_only r)) }
    ensures contents_unchanged { store.new ≡ store.old }
{
    match condition_reply(alloc, request, Some(tag), true, true)? {
        Some(reply) => Ok(reply),
        None => printed_reply(store, doc, tag, method, request.closes),
    }
}

/// The reply to a GET or HEAD of a document: its print with its tag, 404 where there is none, 507
/// for an index of services beyond its limit, and 304, 400 or 412 where the conditions call for
/// it. HEAD gets the head of GET's reply.
///
/// # Errors
/// `AllocError` when out of memory.
pub fn get_document(
    alloc: Global,
    store: &mut Store,
    doc: &DocId,
    method: Method,
    request: &Request,
) -> Result<Reply, AllocError>
    ensures machine_reply { IfOk result
        (λ r. ReadsDocument store.old.content doc.now
        (record { method = method; request = request.now }) (reply_only r)) }
    ensures contents_unchanged { store.new ≡ store.old }
{
    match stored_tag(store, doc) {
        Some(tag) => stored_reply(alloc, store, doc, tag, method, request),
        None => get_and_print(alloc, store, doc, method, request),
    }
}
