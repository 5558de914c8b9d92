//! The reply to what was read on a connection, and the notice of the edit that was made.
ghost use Rattle.std.specs.Prelude.{◌≡◌, ◌≢◌, ℕ, suc, true, None, IsTrue, IfOk, OnErr};
ghost use Rattle.std.specs.Prelude.{MatchOption, option_to_list};
ghost use Rattle.reply_text.specs.ReplyHeads.{plain_reply};
ghost use Rattle.reply_text.specs.Statuses.{is_status};
ghost use Rattle.http_serve.specs.ItemAnswers.{AnswersNextRequest};
ghost use Rattle.http_serve.specs.inner.AskedRequests.{HasRequest};
ghost use Rattle.http_serve.specs.ItemAnswers.{IsNoneOrReadRequest};
ghost use Rattle.http_serve.specs.ReplyBytes.{StepsInBytes};

use crate::machine::{Machine, MachineReply};
use http_wire::Asked;
use reply_text::Reply;
use std::alloc::AllocError;
use watchers::Watchers;

// The fixed reply with this status.
fn closing_reply<E>(status: u16) -> MachineReply<E>
    requires valid_status { IsTrue (is_status status) }
    requires plain_status { (status ≢ 304) × (status ≢ 405) × (status ≢ 409) }
    ensures fixed_reply { result.reply ≡ plain_reply status true }
    ensures no_change { result.edit ≡ None }
{
    MachineReply {
        reply: Reply::fixed(status, true),
        edit: None,
    }
}

/// The reply to a reader's result, which closes the connection where there was no request or no
/// memory for it; None at the end of the connection.
///
/// # Errors
/// `AllocError` where the machine is out of memory for a request; it is then unchanged.
pub(crate) fn try_answer<M: Machine>(
    machine: &mut M,
    asked: &Asked,
) -> Result<Option<MachineReply<M::Edit>>, AllocError>
    requires request_read { IsNoneOrReadRequest asked.now }
    requires room_left { M.takes machine.old 1 }
    ensures request_answer { IfOk result (λ answer. MatchOption answer
        ((asked.now ≡ Asked.End) × (machine.new ≡ machine.old))
        (λ answered. AnswersNextRequest
        (StepsInBytes M.steps) machine.old asked.now answered.reply answered.edit machine.new)) }
    ensures err_of_request { OnErr result (HasRequest asked.now × (machine.new ≡ machine.old)) }
    ensures takes_one_fewer { (n : ℕ) → M.takes machine.old (suc n) → M.takes machine.new n }
{
    match asked {
        Asked::Request(request) => match machine.answer(request) {
            Ok(answered) => Ok(Some(answered)),
            Err(AllocError) => Err(AllocError),
        },
        Asked::Bad => Ok(Some(closing_reply(400))),
        Asked::TooLong => Ok(Some(closing_reply(413))),
        Asked::Coded => Ok(Some(closing_reply(501))),
        Asked::NoMemory => Ok(Some(closing_reply(503))),
        Asked::End => Ok(None),
    }
}

/// `try_answer`, and the fixed 503 where the machine is out of memory.
pub fn answer_next<M: Machine>(machine: &mut M, asked: &Asked) -> Option<MachineReply<M::Edit>>
    requires request_read { IsNoneOrReadRequest asked.now }
    requires room_left { M.takes machine.old 1 }
    ensures request_answer { MatchOption result
        ((asked.now ≡ Asked.End) × (machine.new ≡ machine.old))
        (λ answered. AnswersNextRequest
        (StepsInBytes M.steps) machine.old asked.now answered.reply answered.edit machine.new) }
    ensures takes_one_fewer { (n : ℕ) → M.takes machine.old (suc n) → M.takes machine.new n }
{
    match try_answer(machine, asked) {
        Ok(answer) => answer,
        Err(AllocError) => Some(closing_reply(503)),
    }
}

/// Notifies the watchers of an edit, if there is one.
pub fn notify_of_edit<E, W: Watchers<E>>(watchers: &mut W, edit: &Option<E>)
    ensures notifies_watchers { W.keeps (option_to_list edit.now) watchers.old watchers.new }
{
    let Some(edit) = edit else {
        return;
    };
    watchers.notify(edit);
}
