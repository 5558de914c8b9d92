//! Decisions on changes of documents: prepared with all their memory, or refused.
ghost use Rattle.std.specs.Prelude.{◌≡◌, IfOk, if◌then◌else◌};
ghost use Rattle.store_core.specs.ChangePreconditions.{MayRequest};
ghost use Rattle.xcap_machine.specs.Answers.{tagged_reply};
ghost use Rattle.xcap_machine.specs.DocumentWrites.{change_answer, put_reply};
ghost use Rattle.xcap_put.specs.Decisions.{DecidesAnswer};
ghost use Rattle.xcap_put.specs.inner.RequestPlans.{AsksForPlan, answer_of_plan};

use crate::Decision;
use crate::plan::Plan;
use crate::refusal_replies::refusal_reply;
use doc_names::DocId;
use edit_ops::Change;
use reply_text::Reply;
use std::alloc::{AllocError, Global};
use store_core::Store;
use xcap_io::Bytes;

// The reply to a PUT: 200 where something was there, else 201.
fn put_reply(alloc: Global, exists: bool, tag: u64, closes: bool) -> Reply
    ensures exact { result ≡ tagged_reply (if exists then 200 else 201) tag closes }
{
    if exists {
        return Reply::with(200, Some(tag), None, Bytes::new(alloc), closes);
    }
    Reply::with(201, Some(tag), None, Bytes::new(alloc), closes)
}

/// Decides a change of a document. The reply has the document's new tag: 201 where what is written
/// is new, and 200 where it replaces something. A change that the store refuses gets 409 where a
/// service address is another document's, 507 beyond a limit.
///
/// # Errors
/// `AllocError` when out of memory.
pub(crate) fn decide_change(
    alloc: Global,
    store: &mut Store,
    doc: DocId,
    change: Change,
    exists: bool,
    closes: bool,
) -> Result<Decision, AllocError>
    requires change_asked { MayRequest store.old.content doc change }
    ensures decides_change { IfOk result (λ d.
        DecidesAnswer (λ a. a ≡ change_answer store.old.content doc change closes
        (put_reply exists closes)) store.new d) }
    ensures contents_unchanged { store.new.content ≡ store.old.content }
{
    match store.prepare(doc, change)? {
        Ok(prepared) => Ok(Decision::Changes {
            reply: put_reply(alloc, exists, prepared.note().next(), closes),
            prepared,
        }),
        Err(refusal) => {
            let reply = refusal_reply(alloc, refusal, closes)?;
            Ok(Decision::Stays(reply))
        }
    }
}

/// Decides by a plan.
///
/// # Errors
/// `AllocError` when out of memory.
pub(crate) fn decide_plan(
    alloc: Global,
    store: &mut Store,
    doc: DocId,
    plan: Plan,
    closes: bool,
) -> Result<Decision, AllocError>
    requires change_asked { AsksForPlan store.old.content doc plan }
    ensures decides_by_plan { IfOk result
        (λ d. DecidesAnswer (λ a. a ≡ answer_of_plan store.old.content doc closes plan) store.new
        d) }
    ensures contents_unchanged { store.new.content ≡ store.old.content }
{
    match plan {
        Ok(planned) => decide_change(alloc, store, doc, planned.change, planned.exists, closes),
        Err(reply) => Ok(Decision::Stays(reply)),
    }
}
