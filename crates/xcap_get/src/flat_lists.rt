//! GET and HEAD of flat lists (RFC 4826, section 4; RFC 9110, sections 9.3.1 and 9.3.2).
ghost use Rattle.std.specs.Prelude.{◌≡◌, None, IfOk, encode_utf8_all};
ghost use Rattle.xml_names.specs.ReadErrors.{ResultSatisfies};
ghost use Rattle.xml_tree.specs.Print.{document_print};
ghost use Rattle.reply_text.specs.ReplyHeads.{plain_reply};
ghost use Rattle.reply_text.specs.declared.media_types.MediaType.TheVariants as medias;
ghost use Rattle.request_checks.specs.Methods.{reply_for_method};
ghost use Rattle.xcap_machine.specs.Answers.{found_reply, reply_only};
ghost use Rattle.xcap_machine.specs.FlatLists.{IsFlatDocument, ReadsFlatList, flat_fault_status};

use doc_names::DocId;
use http_wire::Request;
use list_resolve::{FlatFault, flat_document, flat_list};
use reply_text::{MediaType, Reply};
use request_checks::{Method, reply_for_method};
use std::alloc::{AllocError, Global};
use store_core::Store;
use tree_print::print_document;
use xcap_uri::Root;
use xml_names::{ReadError, Text};
use xml_tree::Element;

// The document of a flat list, or why there is none.
fn build_flat_document(
    alloc: Global,
    root: &Root,
    store: &Store,
    doc: &DocId,
    service: &Text,
) -> Result<Element, ReadError<FlatFault>>
    ensures list_document { ResultSatisfies
        (IsFlatDocument root.now store.now.content doc.now service.now) result }
{
    let uris = flat_list(alloc, store, root, doc, service.as_str())?;
    let made = flat_document(alloc, uris.as_slice())?;
    Ok(made)
}

// The reply with a document, or for HEAD the head of that reply. It has no tag.
fn flat_list_reply(
    alloc: Global,
    document: &Element,
    method: Method,
    closes: bool,
) -> Result<Reply, AllocError>
    ensures ok { IfOk result
        (λ r. r ≡ reply_for_method method
        (found_reply None medias.ResourceLists
        (encode_utf8_all (document_print document.now)) closes)) }
{
    let text = print_document(alloc, document)?;
    let reply = Reply::with(200, None, Some(MediaType::ResourceLists), text, closes);
    Ok(reply_for_method(method, reply))
}

// The reply where there is no flat list, or no document of one.
fn flat_refusal_reply(fault: FlatFault, closes: bool) -> Reply
    ensures fault_reply { result ≡ plain_reply (flat_fault_status fault) closes }
{
    match fault {
        FlatFault::NoService => Reply::fixed(404, closes),
        FlatFault::TooWide => Reply::fixed(507, closes),
        FlatFault::TooLarge(_) => Reply::fixed(507, closes),
    }
}

/// The reply to a GET or HEAD of a flat list: the document of the addresses of the service with
/// this address in a document; 404 where the document isn't stored or has no such service; 507
/// where its references are more than the `MARK_LIMIT` of `list_resolve`, or the reply's document
/// would have more bytes than its `DOCUMENT_LIMIT`. Conditions are ignored. HEAD gets the head of
/// GET's reply.
///
/// # Errors
/// `AllocError` when out of memory.
pub fn get_flat_list(
    alloc: Global,
    root: &Root,
    store: &Store,
    doc: &DocId,
    service: &Text,
    method: Method,
    request: &Request,
) -> Result<Reply, AllocError>
    ensures machine_reply { IfOk result
        (λ r. ReadsFlatList (record { root = root.now; content = store.now.content })
        doc.now service.now (record { method = method; request = request.now }) (reply_only r)) }
{
    match build_flat_document(alloc, root, store, doc, service) {
        Ok(document) => flat_list_reply(alloc, &document, method, request.closes),
        Err(ReadError::Fault(fault)) => Ok(flat_refusal_reply(fault, request.closes)),
        Err(ReadError::NoMemory) => Err(AllocError),
    }
}
