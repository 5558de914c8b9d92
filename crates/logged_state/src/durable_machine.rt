//! Machines whose changes are appended to a log before they are made.
ghost use Rattle.std.specs.Prelude.{◌≡◌, ◌<◌, ◌-◌, ◌^◌, ℕ, List, Option, Some, IfOk, OnErr, true};
ghost use Rattle.reply_text.specs.ReplyHeads.{SentReply};
ghost use Rattle.http_wire.specs.declared.request.Request.{Request as TheRequest};
ghost use Rattle.request_checks.specs.Methods.{method_of};
ghost use Rattle.change_log.specs.LogContents.{next_number};
ghost use Rattle.change_log.specs.LogStates.{kept_contents};
ghost use Rattle.change_records.specs.Records.{IsRecordable, is_writing, kept_request};
ghost use Rattle.logged_state.specs.DurableAnswers.{Answers, FindsChange};

use change_log::ChangeLog;
use http_serve::MachineReply;
use http_wire::Request;
use std::alloc::AllocError;

/// An object that answers requests, one after the other, and appends each change to a log before
/// it makes it.
pub trait DurableMachine {
    /// The edit that is reported for a change.
    type Edit: Drop;

    /// Relates a state, a request, the reply, the state after it, and the edit.
    ghost steps: { Self → TheRequest → SentReply → Self → Option Self.Edit → Type 0 };

    /// A snapshot of these parts, with this next number, is of the state.
    ghost begins: { List (List ℕ) → ℕ → Self → Type 0 };

    /// Answers a request. If it makes a change, that is appended to the log first; where it can't
    /// be appended, the reply is the 500, and the machine is unchanged.
    ///
    /// # Errors
    /// `AllocError` when out of memory; then nothing has changed.
    fn answer_durably<L: ChangeLog>(
        &mut self,
        log: &mut L,
        request: &Request,
    ) -> Result<MachineReply<Self::Edit>, AllocError>
        requires recordable { is_writing (method_of request.now.method) ≡ true
            → IsRecordable request.now }
        requires is_sound { L.sound log.old }
        requires begun { (L.state log.old).is_begun ≡ true }
        requires numbers_left { next_number (kept_contents (L.state log.old)) < 2 ^ 64 - 1 }
        ensures machine_reply { IfOk result (λ answered. Answers steps
            (record { machine = self.old; log = L.state log.old })
            (record { request = request.now; reply = answered.reply; edit = answered.edit })
            (record { machine = self.new; log = L.state log.new })) }
        ensures any_moment { FindsChange (L.state log.old) request.now (L.state log.new) }
        ensures closes_as_asked { IfOk result
            (λ answered. answered.reply.closes ≡ request.now.closes) }
        ensures err_unchanged { OnErr result ((self.new ≡ self.old) × (log.new ≡ log.old)) }
        ensures still_begun { (L.state log.new).is_begun ≡ true }
        ensures still_sound { L.sound log.new };

    /// A request as its record gives it makes the same change.
    ghost records_suffice: { (m : Self) (request : TheRequest) (reply : SentReply) (next : Self)
        (edit : Self.Edit) → steps m request reply next (Some edit)
        → (again : SentReply) × steps m (kept_request request) again next (Some edit) };
}
