// Decides a request on the stored documents (RFC 4825, section 8): by its target, its method, the
// user's rights, and then by what is stored. Nothing is changed here.
ghost use Rattle.std.specs.Prelude.{◌≡◌, ◌≢◌, true, false, None, Some, IsOk, IsTrue, IfOk};
ghost use Rattle.std.specs.Prelude.{MatchResult};
ghost use Rattle.doc_names.specs.Usages.{usage_of};
ghost use Rattle.reply_text.specs.Statuses.{is_status};
ghost use Rattle.reply_text.specs.ReplyHeads.{plain_reply};
ghost use Rattle.xcap_uri.specs.Targets.{IsReadableTarget, rest_under_root};
ghost use Rattle.request_checks.specs.Methods.{is_reading};
ghost use Rattle.request_checks.specs.Rights.{is_allowed};
ghost use Rattle.request_checks.specs.declared.method.Method.{Method as TheMethod};
ghost use Rattle.request_checks.specs.declared.method.Method.TheVariants as methods;
ghost use Rattle.store_core.specs.ValidStates.{IsUserHome};
ghost use Rattle.xcap_machine.specs.Answers.{reply_only};
ghost use Rattle.xcap_machine.specs.ServerStates.{ServerState};
ghost use Rattle.xcap_machine.specs.Requests.{AnswersByTarget, IsAnswer, fault_status};
ghost use Rattle.xcap_machine.specs.StandardRequests.{DeletesTarget, IsWritableTarget, PutsTarget};
ghost use Rattle.xcap_machine.specs.StandardRequests.{auid_of, home_of, is_read_only};
ghost use Rattle.xcap_machine.specs.inner.AnswerCases.{ReadsTarget};
ghost use Rattle.xcap_put.specs.Decisions.{DecidesAnswer};
ghost use Rattle.xcap_server.specs.inner.WritableTargets.{IsWriting, target_of, usage_to_write};

use crate::targets::{WritableTarget, auid_of, home_of, is_read_only, writable_target};
use doc_names::Usage;
use element_watch::Watch;
use http_wire::Request;
use reply_text::Reply;
use request_checks::{Method, is_allowed};
use std::alloc::{AllocError, Global};
use store_core::Store;
use xcap_get::{Feed, get_document, get_element_feed, get_feed, get_flat_list, get_node};
use xcap_put::{
    Decision, delete_document, delete_node, missing_parent_reply, put_document, put_node,
};
use xcap_uri::{Root, Target, UriFault, read_target};
use xml_names::ReadError;

// A reply without tag and body, and no change.
fn plain_decision(status: u16, request: &Request) -> Decision
    requires valid_status { IsTrue (is_status status) }
    requires plain_status { (status ≢ 304) × (status ≢ 405) × (status ≢ 409) }
    ensures exact { result ≡ Decision.Stays (plain_reply status request.now.closes) }
{
    Decision::Stays(Reply::fixed(status, request.closes))
}

// ---- by method

// The reply to GET and HEAD.
fn get_target(
    alloc: Global,
    root: &Root,
    store: &mut Store,
    target: &Target,
    method: Method,
    request: &Request,
) -> Result<Reply, AllocError>
    ensures machine_reply { IfOk result
        (λ reply. ReadsTarget (record { root = root.now; content = store.old.content })
        target.now (record { method = method; request = request.now }) (reply_only reply)) }
    ensures contents_unchanged { store.new.content ≡ store.old.content }
{
    match target {
        Target::Document(doc) => get_document(alloc, store, doc, method, request),
        Target::Node(doc, selector) => get_node(alloc, store, doc, selector, method, request),
        Target::Deep(_, _) => Ok(Reply::fixed(404, request.closes)),
        Target::Feed { mode, tag, doc } => {
            let feed = Feed {
                mode: *mode,
                tag: *tag,
                doc,
            };
            get_feed(alloc, root, store, feed, method, request)
        }
        Target::ElementFeed {
            tag,
            doc,
            selector,
            raw,
        } => {
            let watch = Watch {
                tag: *tag,
                doc,
                selector,
                raw,
            };
            get_element_feed(alloc, root, store, watch, method, request)
        }
        Target::Flat { doc, service } => get_flat_list(
            alloc, root, store, doc, service, method, request,
        ),
    }
}

// Decides a PUT, which the user may make, in a usage that stores documents.
fn put_target(
    alloc: Global,
    root: &Root,
    store: &mut Store,
    target: WritableTarget,
    usage: Usage,
    request: &Request,
) -> Result<Decision, AllocError>
    requires not_read_only { is_read_only (target_of target) ≡ false }
    requires readable { IsReadableTarget (target_of target) }
    requires writable { IsWritableTarget (target_of target) }
    requires user_document { IsUserHome (home_of (target_of target)) }
    requires usage_of_doc { usage_of (auid_of (target_of target)) ≡ Some usage }
    ensures machine_decision { IfOk result
        (λ d. DecidesAnswer (PutsTarget (record { root = root.now; content = store.old.content })
        (target_of target) usage request.now) store.new d) }
    ensures contents_unchanged { store.new.content ≡ store.old.content }
{
    match target {
        WritableTarget::Document(doc) => put_document(alloc, store, doc, usage, request),
        WritableTarget::Node(doc, selector) => {
            put_node(alloc, store, root, doc, usage, &selector, request)
        }
        WritableTarget::Deep(auid, home) => {
            let reply = missing_parent_reply(alloc, root, auid, &home, request)?;
            Ok(Decision::Stays(reply))
        }
    }
}

// Decides a DELETE, which the user may make, in a usage that stores documents.
fn delete_target(
    alloc: Global,
    store: &mut Store,
    target: WritableTarget,
    usage: Usage,
    request: &Request,
) -> Result<Decision, AllocError>
    requires not_read_only { is_read_only (target_of target) ≡ false }
    requires usage_of_doc { usage_of (auid_of (target_of target)) ≡ Some usage }
    ensures machine_decision { IfOk result
        (λ d. DecidesAnswer
        (DeletesTarget store.old.content (target_of target) usage request.now) store.new d) }
    ensures contents_unchanged { store.new.content ≡ store.old.content }
{
    match target {
        WritableTarget::Document(doc) => delete_document(alloc, store, doc, request),
        WritableTarget::Node(doc, selector) => {
            delete_node(alloc, store, doc, usage, &selector, request)
        }
        WritableTarget::Deep(_, _) => Ok(plain_decision(404, request)),
    }
}

// ---- who may do it

// Whether the user may read there, or write.
pub(crate) fn is_permitted(target: &Target, writes: bool, request: &Request) -> bool
    ensures allowed_by_right { result
        ≡ is_allowed writes (auid_of target.now) (home_of target.now) request.now.fields }
{
    is_allowed(writes, auid_of(target), home_of(target), request)
}

// The usage of a target where the user may write, if documents of it are stored.
fn usage_to_write(target: &Target, request: &Request) -> Option<Usage>
    ensures exact { result ≡ usage_to_write target.now request.now }
{
    if !is_permitted(target, true, request) {
        return None;
    }
    auid_of(target).stored_usage()
}

// What a PUT or a DELETE writes, in a usage that stores documents.
#[derive(Drop)]
struct WriteAccess {
    target: WritableTarget,
    usage: Usage,
}

// What a PUT or a DELETE of a target writes, or the reply where it may not be made.
fn write_access(target: Target, request: &Request) -> Result<WriteAccess, Reply>
    ensures continues_or_replies { MatchResult result
        (λ access. (is_read_only target ≡ false) × (target_of access.target ≡ target)
        × (usage_to_write target request.now ≡ Some access.usage))
        (λ reply. (server : ServerState) (method : TheMethod) → IsWriting method
        → AnswersByTarget server target method request.now (reply_only reply)) }
{
    let usage = usage_to_write(&target, request);
    let Some(writable) = writable_target(target) else {
        return Err(Reply::method(true, request.closes));
    };
    match usage {
        Some(usage) => Ok(WriteAccess {
            target: writable,
            usage,
        }),
        None => {
            drop(writable);
            Err(Reply::fixed(403, request.closes))
        }
    }
}

// ---- all in order

// Decides a GET or HEAD.
fn decide_read(
    alloc: Global,
    root: &Root,
    store: &mut Store,
    target: &Target,
    method: Method,
    request: &Request,
) -> Result<Decision, AllocError>
    requires reading_method { is_reading method ≡ true }
    ensures machine_decision { IfOk result
        (λ d. DecidesAnswer
        (AnswersByTarget (record { root = root.now; content = store.old.content })
        target.now method request.now) store.new d) }
    ensures contents_unchanged { store.new.content ≡ store.old.content }
{
    if !is_permitted(target, false, request) {
        return Ok(plain_decision(403, request));
    }
    let reply = get_target(alloc, root, store, target, method, request)?;
    Ok(Decision::Stays(reply))
}

// Decides a PUT.
fn decide_put(
    alloc: Global,
    root: &Root,
    store: &mut Store,
    target: Target,
    request: &Request,
) -> Result<Decision, AllocError>
    requires readable { IsReadableTarget target }
    requires writable { IsWritableTarget target }
    ensures machine_decision { IfOk result
        (λ d. DecidesAnswer
        (AnswersByTarget (record { root = root.now; content = store.old.content })
        target methods.Put request.now) store.new d) }
    ensures contents_unchanged { store.new.content ≡ store.old.content }
{
    match write_access(target, request) {
        Ok(access) => put_target(alloc, root, store, access.target, access.usage, request),
        Err(reply) => Ok(Decision::Stays(reply)),
    }
}

// Decides a DELETE.
fn decide_delete(
    alloc: Global,
    root: &Root,
    store: &mut Store,
    target: Target,
    request: &Request,
) -> Result<Decision, AllocError>
    ensures machine_decision { IfOk result
        (λ d. DecidesAnswer
        (AnswersByTarget (record { root = root.now; content = store.old.content })
        target methods.Delete request.now) store.new d) }
    ensures contents_unchanged { store.new.content ≡ store.old.content }
{
    match write_access(target, request) {
        Ok(access) => delete_target(alloc, store, access.target, access.usage, request),
        Err(reply) => Ok(Decision::Stays(reply)),
    }
}

fn decide_target(
    alloc: Global,
    root: &Root,
    store: &mut Store,
    target: Target,
    method: Method,
    request: &Request,
) -> Result<Decision, AllocError>
    requires readable { IsReadableTarget target }
    requires writable { IsWritableTarget target }
    ensures machine_decision { IfOk result
        (λ d. DecidesAnswer
        (AnswersByTarget (record { root = root.now; content = store.old.content })
        target method request.now) store.new d) }
    ensures contents_unchanged { store.new.content ≡ store.old.content }
{
    match method {
        Method::Get | Method::Head => {
            let decision = decide_read(alloc, root, store, &target, method, request);
            drop(target);
            decision
        }
        Method::Put => decide_put(alloc, root, store, target, request),
        Method::Delete => decide_delete(alloc, root, store, target, request),
        Method::Other => {
            let reply = Reply::method(is_read_only(&target), request.closes);
            drop(target);
            Ok(Decision::Stays(reply))
        }
    }
}

// Decides a request whose target can't be read.
fn decide_fault(fault: UriFault, request: &Request) -> Decision
    ensures fault_reply { result
        ≡ Decision.Stays (plain_reply (fault_status fault) request.now.closes) }
{
    match fault {
        UriFault::OutsideRoot | UriFault::UnknownAuid => plain_decision(404, request),
        UriFault::BadShape
        | UriFault::BadEscape
        | UriFault::BadQuery
        | UriFault::UnboundPrefix
        | UriFault::BadSelector => plain_decision(400, request),
    }
}

pub(crate) fn decide(
    alloc: Global,
    root: &Root,
    store: &mut Store,
    request: &Request,
) -> Result<Decision, AllocError>
    ensures machine_decision { IfOk result
        (λ d. DecidesAnswer (IsAnswer root.now store.old.content request.now) store.new d) }
    ensures outside_is_ok { rest_under_root root.now request.now.target ≡ None → IsOk result }
    ensures contents_unchanged { store.new.content ≡ store.old.content }
{
    match read_target(alloc, root, request.target.as_slice()) {
        Ok(target) => decide_target(alloc, root, store, target, Method::of(request), request),
        Err(ReadError::Fault(fault)) => Ok(decide_fault(fault, request)),
        Err(ReadError::NoMemory) => Err(AllocError),
    }
}
