//! PUT and DELETE of documents (RFC 4825, sections 8.2 and 8.4).
ghost use Rattle.std.specs.Prelude.{◌≡◌, false, is_some, IfOk, Some};
ghost use Rattle.doc_names.specs.DocIds.{IsAddressable};
ghost use Rattle.doc_names.specs.Usages.{usage_of};
ghost use Rattle.edit_ops.specs.declared.change.Change.TheVariants as changes;
ghost use Rattle.store_core.specs.ChangePreconditions.{MayRequest, MayBeDocument};
ghost use Rattle.store_core.specs.ValidStates.{IsUserHome};
ghost use Rattle.request_checks.specs.MediaTypes.{document_media_type};
ghost use Rattle.xcap_machine.specs.Resources.{version_of};
ghost use Rattle.xcap_machine.specs.DocumentWrites.{DeletesDocument, PutsBody, PutsDocument};
ghost use Rattle.xcap_machine.specs.DocumentWrites.{change_answer, delete_reply, put_answer};
ghost use Rattle.xcap_machine.specs.DocumentWrites.{put_change};
ghost use Rattle.xcap_machine.specs.inner.AnswerCases.{version_tag};
ghost use Rattle.xcap_put.specs.Decisions.{DecidesAnswer};

use crate::Decision;
use crate::decisions::decide_change;
use crate::refusal_replies::refusal_reply;
use crate::request_bodies::{Body, read_request_body};
use doc_names::{DocId, Usage};
use edit_ops::Change;
use http_wire::Request;
use reply_text::Reply;
use request_checks::{condition_reply, document_media_type};
use std::alloc::{AllocError, Global};
use store_core::Store;
use xml_tree::{Element, Path};

// The tag of a document, if it is stored.
fn tag_of(store: &Store, doc: &DocId) -> Option<u64>
    ensures exact { result ≡ version_tag (version_of store.now.content doc.now) }
{
    let (_, tag) = store.get(doc)?;
    Some(tag)
}

// ---- PUT

// The change of a PUT of a document: it replaces the stored one, or it is new.
fn put_change(exists: bool, root: Element) -> Change
    ensures replaces_or_creates { result ≡ put_change exists root }
{
    if exists {
        return Change::Replace {
            at: Path::root(),
            element: root,
        };
    }
    Change::CreateDocument { root }
}

// Puts a tree that is a document of its usage, where one is stored or not.
fn put_tree(
    alloc: Global,
    store: &mut Store,
    doc: DocId,
    usage: Usage,
    root: Element,
    exists: bool,
    closes: bool,
) -> Result<Decision, AllocError>
    requires exists_iff { exists ≡ is_some (version_of store.old.content doc) }
    requires readable { IsAddressable doc }
    requires user_document { IsUserHome doc.home }
    requires usage_of_doc { usage_of doc.auid ≡ Some usage }
    requires may_be { MayBeDocument usage root }
    ensures decides_put { IfOk result
        (λ d. DecidesAnswer (λ a. a ≡ put_answer store.old.content doc closes root) store.new d) }
    ensures contents_unchanged { store.new.content ≡ store.old.content }
{
    decide_change(alloc, store, doc, put_change(exists, root), exists, closes)
}

// Puts a document after the conditions passed, where one is stored or not.
fn put_document_body(
    alloc: Global,
    store: &mut Store,
    doc: DocId,
    usage: Usage,
    exists: bool,
    request: &Request,
) -> Result<Decision, AllocError>
    requires exists_iff { exists ≡ is_some (version_of store.old.content doc) }
    requires readable { IsAddressable doc }
    requires user_document { IsUserHome doc.home }
    requires usage_of_doc { usage_of doc.auid ≡ Some usage }
    ensures decides_by_body { IfOk result (λ d.
        DecidesAnswer (PutsBody usage (document_media_type doc.auid) request.now
        (put_answer store.old.content doc request.now.closes)) store.new d) }
    ensures contents_unchanged { store.new.content ≡ store.old.content }
{
    let media = document_media_type(doc.auid);
    match read_request_body(alloc, usage, media, request)? {
        Body::Refused(reply) => Ok(Decision::Stays(reply)),
        Body::Document(root) => put_tree(alloc, store, doc, usage, root, exists, request.closes),
    }
}

/// Decides a PUT of a document of this usage: 201 where it is new and 200 where it replaces the
/// stored one, both with the new tag. Replies without a change: 400 or 412 for the conditions, 415
/// for the media type, 409 where the text is no document of the usage or a service address in it
/// is another document's, 507 beyond a limit.
///
/// # Errors
/// `AllocError` when out of memory.
pub fn put_document(
    alloc: Global,
    store: &mut Store,
    doc: DocId,
    usage: Usage,
    request: &Request,
) -> Result<Decision, AllocError>
    requires readable { IsAddressable doc }
    requires user_document { IsUserHome doc.home }
    requires usage_of_doc { usage_of doc.auid ≡ Some usage }
    ensures decides_put { IfOk result
        (λ d. DecidesAnswer (PutsDocument store.old.content doc usage request.now) store.new d) }
    ensures contents_unchanged { store.new.content ≡ store.old.content }
{
    let tag = tag_of(store, &doc);
    let exists = tag.is_some();
    match condition_reply(alloc, request, tag, exists, false)? {
        Some(reply) => Ok(Decision::Stays(reply)),
        None => put_document_body(alloc, store, doc, usage, exists, request),
    }
}

// ---- DELETE

// Removes a stored document.
fn remove_document(
    alloc: Global,
    store: &mut Store,
    doc: DocId,
    closes: bool,
) -> Result<Decision, AllocError>
    requires stored_there { MayRequest store.old.content doc changes.RemoveDocument }
    ensures decides_removal { IfOk result (λ d.
        DecidesAnswer (λ a. a ≡ change_answer store.old.content doc changes.RemoveDocument closes
        (delete_reply closes)) store.new d) }
    ensures contents_unchanged { store.new.content ≡ store.old.content }
{
    match store.prepare(doc, Change::RemoveDocument)? {
        Ok(prepared) => Ok(Decision::Changes {
            reply: Reply::fixed(200, closes),
            prepared,
        }),
        Err(refusal) => {
            let reply = refusal_reply(alloc, refusal, closes)?;
            Ok(Decision::Stays(reply))
        }
    }
}

// Decides a DELETE of a stored document with this tag.
fn delete_stored_document(
    alloc: Global,
    store: &mut Store,
    doc: DocId,
    tag: u64,
    request: &Request,
) -> Result<Decision, AllocError>
    requires tag_of_version { Some tag ≡ version_tag (version_of store.old.content doc) }
    ensures decides_removal { IfOk result
        (λ d. DecidesAnswer (DeletesDocument store.old.content doc request.now) store.new d) }
    ensures contents_unchanged { store.new.content ≡ store.old.content }
{
    match condition_reply(alloc, request, Some(tag), true, false)? {
        Some(reply) => Ok(Decision::Stays(reply)),
        None => remove_document(alloc, store, doc, request.closes),
    }
}

/// Decides a DELETE of a document: 200, without a tag. Replies without a change: 404 where the
/// document isn't stored, 400 or 412 for the conditions, 507 where the greatest number has been
/// given.
///
/// # Errors
/// `AllocError` when out of memory.
pub fn delete_document(
    alloc: Global,
    store: &mut Store,
    doc: DocId,
    request: &Request,
) -> Result<Decision, AllocError>
    ensures decides_removal { IfOk result
        (λ d. DecidesAnswer (DeletesDocument store.old.content doc request.now) store.new d) }
    ensures contents_unchanged { store.new.content ≡ store.old.content }
{
    match tag_of(store, &doc) {
        Some(tag) => delete_stored_document(alloc, store, doc, tag, request),
        None => Ok(Decision::Stays(Reply::fixed(404, request.closes))),
    }
}
