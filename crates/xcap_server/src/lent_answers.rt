// Answers whose body is lent by the store: those to a GET of a stored document, or of an element in
// one (RFC 4825, section 8.3).
ghost use Rattle.std.specs.Prelude.{◌≡◌, ℕ, List, IfOk};
ghost use Rattle.request_checks.specs.Methods.{method_of};
ghost use Rattle.request_checks.specs.declared.method.Method.TheVariants as methods;
ghost use Rattle.xcap_get.specs.LentReplies.{LendsFoundReply, LendsIf, is_get, is_lendable};
ghost use Rattle.xcap_machine.specs.Requests.{AnswersByTarget};
ghost use Rattle.xcap_machine.specs.inner.AnswerCases.{ReadsTarget};

use crate::request_decisions::is_permitted;
use http_wire::{LentReply, Request};
use request_checks::Method;
use std::alloc::{AllocError, Global};
use store_core::Store;
use xcap_get::{lend_document, lend_node};
use xcap_uri::{Root, Target, read_target};
use xml_names::ReadError;

fn is_get(request: &Request) -> bool
    ensures exact { result ≡ is_get (method_of request.now.method) }
{
    match Method::of(request) {
        Method::Get => true,
        Method::Head => false,
        Method::Put => false,
        Method::Delete => false,
        Method::Other => false,
    }
}

// What is lent in reply to a GET that the user may make.
fn lend_target<'a>(
    alloc: Global,
    store: &'a Store,
    target: &Target,
    request: &Request,
) -> Result<Option<LentReply<'a>>, AllocError>
    ensures lends_read { IfOk result (λ lent. (root : List ℕ) → LendsIf (is_lendable target.now)
        (ReadsTarget (record { root = root; content = store.now.content }) target.now
        (record { method = methods.Get; request = request.now })) lent) }
{
    match target {
        Target::Document(doc) => lend_document(alloc, store, doc, request),
        Target::Node(doc, selector) => lend_node(alloc, store, doc, selector, request),
        Target::Deep(_, _) => Ok(None),
        Target::Feed { .. } => Ok(None),
        Target::ElementFeed { .. } => Ok(None),
        Target::Flat { .. } => Ok(None),
    }
}

// What is lent in reply to a GET.
fn lend_permitted<'a>(
    alloc: Global,
    store: &'a Store,
    target: &Target,
    request: &Request,
) -> Result<Option<LentReply<'a>>, AllocError>
    ensures lends_answer { IfOk result (λ lent. (root : List ℕ) → LendsIf (is_lendable target.now)
        (AnswersByTarget (record { root = root; content = store.now.content }) target.now
        methods.Get request.now) lent) }
{
    if !is_permitted(target, false, request) {
        return Ok(None);
    }
    lend_target(alloc, store, target, request)
}

// What is lent in reply to a request.
pub(crate) fn lend_answer<'a>(
    alloc: Global,
    root: &Root,
    store: &'a Store,
    request: &Request,
) -> Result<Option<LentReply<'a>>, AllocError>
    ensures lends_found { IfOk result (λ lent.
        LendsFoundReply root.now store.now.content request.now lent) }
{
    if !is_get(request) {
        return Ok(None);
    }
    match read_target(alloc, root, request.target.as_slice()) {
        Ok(target) => {
            let lent = lend_permitted(alloc, store, &target, request);
            drop(target);
            lent
        }
        Err(ReadError::Fault(_)) => Ok(None),
        Err(ReadError::NoMemory) => Err(AllocError),
    }
}
