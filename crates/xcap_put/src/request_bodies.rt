//! The body of a PUT of a document (RFC 4825, section 8.2.2).
ghost use Rattle.std.specs.Prelude.{◌≡◌, ◌≤◌, [], IfOk, Ok};
ghost use Rattle.xml_tree.specs.Proper.{IsProperTree};
ghost use Rattle.xml_tree.specs.Tree.{height};
ghost use Rattle.reply_bodies.specs.declared.conflicts.ErrorBody.TheVariants as conflicts;
ghost use Rattle.xcap_machine.specs.Answers.{error_reply};
ghost use Rattle.xcap_machine.specs.DocumentWrites.{PutsBody, PutsParsedBody, text_conflict};
ghost use Rattle.xcap_machine.specs.inner.AnswerCases.{PutsParsedText};
ghost use Rattle.xcap_put.specs.declared.request_bodies.Body.TheVariants.{Refused};
ghost use Rattle.xcap_put.specs.inner.ReadBodies.{IsReadBody};

use crate::conflicts::{conflict_reply, fault_conflict};
use doc_names::Usage;
use http_wire::Request;
use reply_bodies::ErrorBody;
use reply_text::{MediaType, Reply};
use request_checks::has_media_type;
use std::alloc::{AllocError, Global};
use tree_text::{TextFault, read_document};
use usage_docs::first_fault;
use xml_names::{MAX_LEVELS, ReadError};
use xml_tree::Element;

/// The body of a PUT, as it was read.
#[derive(Drop)]
pub(crate) enum Body {
    /// It is refused with this reply.
    Refused(Reply),
    /// It is parsed as this tree, which is a document of the usage.
    Document(Element),
}

/// The error for a text that can't be parsed: `malformed`, unless the text isn't UTF-8.
pub(crate) fn text_conflict(malformed: ErrorBody, fault: TextFault) -> ErrorBody
    ensures fault_reply { result ≡ text_conflict malformed fault }
{
    match fault {
        TextFault::NotUtf8 => ErrorBody::NotUtf8,
        TextFault::NotWellFormed(_) => malformed,
        TextFault::Namespace(_) => malformed,
        TextFault::RepeatedAttribute(_) => malformed,
        TextFault::TooDeep(_) => malformed,
        TextFault::Doctype(_) => malformed,
    }
}

// A body that is no document.
fn text_refusal_reply(alloc: Global, fault: TextFault, closes: bool) -> Result<Body, AllocError>
    ensures fault_reply { IfOk result (λ body.
        body ≡ Refused (error_reply (text_conflict conflicts.NotWellFormed fault) closes)) }
{
    let body = text_conflict(ErrorBody::NotWellFormed, fault);
    let reply = conflict_reply(alloc, &body, closes)?;
    Ok(Body::Refused(reply))
}

// Checks a tree that was parsed.
fn check_document(
    alloc: Global,
    usage: Usage,
    root: Element,
    closes: bool,
) -> Result<Body, AllocError>
    requires proper { IsProperTree [] root }
    requires height_bounded { height root ≤ MAX_LEVELS }
    ensures comes_of_tree { IfOk result
        (λ body.
        IsReadBody (λ answer a. PutsParsedText usage (Ok root) closes answer a) usage body) }
{
    match first_fault(alloc, usage, &root) {
        None => Ok(Body::Document(root)),
        Some(fault) => {
            drop(root);
            let body = fault_conflict(alloc, &fault)?;
            let reply = conflict_reply(alloc, &body, closes)?;
            Ok(Body::Refused(reply))
        }
    }
}

// Reads a body of the usage's media type.
fn parse_body(alloc: Global, usage: Usage, request: &Request) -> Result<Body, AllocError>
    ensures comes_of_text { IfOk result
        (λ body. IsReadBody (λ answer a. PutsParsedBody usage request.now answer a) usage body) }
{
    match read_document(alloc, request.body.as_slice(), MAX_LEVELS) {
        Ok(root) => check_document(alloc, usage, root, request.closes),
        Err(ReadError::Fault(fault)) => text_refusal_reply(alloc, fault, request.closes),
        Err(ReadError::NoMemory) => Err(AllocError),
    }
}

/// Reads the body of a PUT of a document of this usage, whose media type is `media`.
pub(crate) fn read_request_body(
    alloc: Global,
    usage: Usage,
    media: MediaType,
    request: &Request,
) -> Result<Body, AllocError>
    ensures comes_of_body { IfOk result
        (λ body. IsReadBody (λ answer a. PutsBody usage media request.now answer a) usage body) }
{
    if !has_media_type(request, media) {
        return Ok(Body::Refused(Reply::fixed(415, request.closes)));
    }
    parse_body(alloc, usage, request)
}
