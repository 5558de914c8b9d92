//! Replies whose body is lent by the store (RFC 4825, sections 7.3, 7.6 and 8.3).
ghost use Rattle.std.specs.Prelude.{◌≡◌, ◌≤◌, false, Some, IfOk, if◌then◌else◌};
ghost use Rattle.xml_names.specs.Markup.{byte_len};
ghost use Rattle.xml_names.specs.declared.limits.TheConstants.{MAX_LEVELS};
ghost use Rattle.xml_tree.specs.Print.{print};
ghost use Rattle.xml_tree.specs.Tree.{height};
ghost use Rattle.node_select.specs.declared.selector.End.TheVariants as ends;
ghost use Rattle.reply_bodies.specs.Nodes.{encode_optional, found_text};
ghost use Rattle.reply_text.specs.declared.media_types.MediaType.TheVariants as medias;
ghost use Rattle.request_checks.specs.declared.method.Method.TheVariants as methods;
ghost use Rattle.xcap_uri.specs.Targets.{is_element_end};
ghost use Rattle.xcap_machine.specs.ReadRequests.{AnswersWithFound, ReadsDocument, ReadsNode};
ghost use Rattle.xcap_get.specs.LentReplies.{LendsFound, LendsIf, is_stored_home};

use doc_names::{DocId, Home};
use http_wire::{LentReply, Request};
use node_select::{End, Selector, select};
use reply_text::MediaType;
use request_checks::{condition_reply, document_media_type};
use std::alloc::{AllocError, Global};
use store_core::Store;
use tree_print::LentPrint;
use xml_tree::{Element, element_at, printed_len};

// The reply to a GET with what was found, where the conditions pass.
fn lend_found<'a>(
    alloc: Global,
    body: LentPrint<'a>,
    tag: u64,
    media: MediaType,
    request: &Request,
) -> Result<Option<LentReply<'a>>, AllocError>
    ensures lends_found { IfOk result (λ lent. LendsFound
        (AnswersWithFound (Some body.entry) tag media
        (record { method = methods.Get; request = request.now })) lent) }
{
    match condition_reply(alloc, request, Some(tag), true, true)? {
        Some(reply) => {
            // Dropped by calls, whose proofs are made once, rather than at each exit.
            drop(reply);
            drop(body);
            Ok(None)
        }
        None => Ok(Some(LentReply::new(200, Some(tag), media, body, request.closes))),
    }
}

// ---- documents

/// The reply to a GET of a document, whose body is the document's print, lent by the store: None
/// exactly where the document isn't a stored one of a user, or the machine's reply is no 200.
///
/// # Errors
/// `AllocError` when out of memory for the conditions of the request.
pub fn lend_document<'a>(
    alloc: Global,
    store: &'a Store,
    doc: &DocId,
    request: &Request,
) -> Result<Option<LentReply<'a>>, AllocError>
    ensures lends_stored { IfOk result (λ lent. LendsIf (is_stored_home doc.now.home)
        (ReadsDocument store.now.content doc.now
        (record { method = methods.Get; request = request.now })) lent) }
{
    let Home::User(_) = &doc.home else {
        return Ok(None);
    };
    match store.lend(doc) {
        None => Ok(None),
        Some((body, tag)) => lend_found(alloc, body, tag, document_media_type(doc.auid), request),
    }
}

// ---- elements

// The reply to a GET of an element of a document, by the selector's steps.
fn lend_selected<'a>(
    alloc: Global,
    root: &'a Element,
    tag: u64,
    selector: &Selector,
    request: &Request,
) -> Result<Option<LentReply<'a>>, AllocError>
    requires height_bounded { height root.now ≤ MAX_LEVELS }
    requires length_bounded { byte_len (print root.now) ≤ 4294967295 }
    requires of_element { selector.now.end ≡ ends.Element }
    ensures lends_found { IfOk result (λ lent. LendsFound
        (AnswersWithFound (encode_optional (found_text root.now selector.now)) tag medias.Element
        (record { method = methods.Get; request = request.now })) lent) }
{
    let Some(path) = select(alloc, root, selector) else {
        return Ok(None);
    };
    let Some(element) = element_at(root, &path) else {
        return Ok(None);
    };
    let body = LentPrint::element(element, printed_len(element));
    lend_found(alloc, body, tag, MediaType::Element, request)
}

// The reply to a GET of an element of a document.
fn lend_element<'a>(
    alloc: Global,
    store: &'a Store,
    doc: &DocId,
    selector: &Selector,
    request: &Request,
) -> Result<Option<LentReply<'a>>, AllocError>
    requires of_element { selector.now.end ≡ ends.Element }
    ensures lends_stored { IfOk result (λ lent. LendsIf (is_stored_home doc.now.home)
        (ReadsNode store.now.content doc.now selector.now
        (record { method = methods.Get; request = request.now })) lent) }
{
    let Home::User(_) = &doc.home else {
        return Ok(None);
    };
    match store.get(doc) {
        None => Ok(None),
        Some((root, tag)) => lend_selected(alloc, root, tag, selector, request),
    }
}

/// The reply to a GET of a node of a document, whose body is the print of an element, lent by the
/// store: None exactly where the node isn't an element or the document isn't a stored one of a
/// user, or the machine's reply is no 200.
///
/// # Errors
/// `AllocError` when out of memory for the conditions of the request.
pub fn lend_node<'a>(
    alloc: Global,
    store: &'a Store,
    doc: &DocId,
    selector: &Selector,
    request: &Request,
) -> Result<Option<LentReply<'a>>, AllocError>
    ensures lends_stored { IfOk result (λ lent. LendsIf
        (if is_element_end selector.now.end then is_stored_home doc.now.home else false)
        (ReadsNode store.now.content doc.now selector.now
        (record { method = methods.Get; request = request.now })) lent) }
{
    match &selector.end {
        End::Element => lend_element(alloc, store, doc, selector, request),
        End::Attribute { .. } => Ok(None),
        End::Namespaces => Ok(None),
    }
}
