//! Replies to changes that aren't made (RFC 4825, section 11; RFC 4918, section 11.5).
ghost use Rattle.std.specs.Prelude.{◌≡◌, IfOk};
ghost use Rattle.xcap_machine.specs.Answers.{error_reply};
ghost use Rattle.xcap_machine.specs.NodeWrites.{plan_refusal_reply};
ghost use Rattle.xcap_machine.specs.DocumentWrites.{clash_field, fault_conflict, refusal_reply};
ghost use Rattle.reply_bodies.specs.declared.conflicts.ErrorBody.TheVariants as conflicts;

use crate::conflicts::{conflict_reply, fault_conflict, uniqueness_conflict};
use edit_plans::EditRefusal;
use reply_bodies::ErrorBody;
use reply_text::Reply;
use std::alloc::{AllocError, Global};
use store_core::StoreRefusal;
use usage_docs::{Clash, Fault};

// The reply where another document has a service address.
fn uniqueness_failure_reply(alloc: Global, clash: Clash, closes: bool) -> Result<Reply, AllocError>
    ensures ok { IfOk result
        (λ reply. reply ≡ error_reply (conflicts.Unique (clash_field clash)) closes) }
{
    let body = uniqueness_conflict(alloc, &clash)?;
    conflict_reply(alloc, &body, closes)
}

/// The reply to a change that the store refuses: a conflict, or 507 beyond a limit.
pub(crate) fn refusal_reply(
    alloc: Global,
    refusal: StoreRefusal,
    closes: bool,
) -> Result<Reply, AllocError>
    ensures ok { IfOk result (λ reply. reply ≡ refusal_reply refusal closes) }
{
    match refusal {
        StoreRefusal::ServiceTaken(clash) => uniqueness_failure_reply(alloc, clash, closes),
        StoreRefusal::TooLarge(_) => Ok(Reply::fixed(507, closes)),
        StoreRefusal::TooMany => Ok(Reply::fixed(507, closes)),
        StoreRefusal::StoreFull(_) => Ok(Reply::fixed(507, closes)),
        StoreRefusal::HomeTooMany => Ok(Reply::fixed(507, closes)),
        StoreRefusal::HomeFull(_) => Ok(Reply::fixed(507, closes)),
        StoreRefusal::NoNumber => Ok(Reply::fixed(507, closes)),
    }
}

// The reply to a change that would give a document this fault.
fn fault_refusal_reply(alloc: Global, fault: Fault, closes: bool) -> Result<Reply, AllocError>
    ensures fault_reply { IfOk result (λ reply. reply
        ≡ error_reply (fault_conflict fault) closes) }
{
    let body = fault_conflict(alloc, &fault)?;
    conflict_reply(alloc, &body, closes)
}

/// The reply to a change of a node for which there is no planned change.
pub(crate) fn unplanned(alloc: Global, why: EditRefusal, closes: bool) -> Result<Reply, AllocError>
    ensures ok { IfOk result (λ reply. reply ≡ plan_refusal_reply why closes) }
{
    match why {
        EditRefusal::NotFound => Ok(Reply::fixed(404, closes)),
        EditRefusal::CannotInsert => conflict_reply(alloc, &ErrorBody::CannotInsert, closes),
        EditRefusal::CannotDelete => conflict_reply(alloc, &ErrorBody::CannotDelete, closes),
        EditRefusal::Faulty(fault) => fault_refusal_reply(alloc, fault, closes),
    }
}
