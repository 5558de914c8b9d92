//! Machines that record accepted requests in a log.
ghost use Rattle.std.specs.Prelude.{◌≡◌, ◌≤◌, ◌-◌, Option, None, IfOk, IfSome, OnErr};
ghost use Rattle.reply_text.specs.ReplyHeads.{SentReply};
ghost use Rattle.http_wire.specs.declared.request.Request.{Request as TheRequest};
ghost use Rattle.xml_names.specs.Limits.{u64_max};
ghost use Rattle.edit_journal.specs.Journals.{IsJournalProgress};
ghost use Rattle.edit_journal.specs.declared.limits.TheConstants.{MAX_RECORD_BYTES};
ghost use Rattle.edit_journal.specs.JournalLogs.{LogFitsJournal};
ghost use Rattle.edit_journal.specs.LoggedRequests.{AnswersWithJournal, IsLoggable};

use crate::{Journal, JournalLog};
use http_serve::MachineReply;
use http_wire::{LentReply, Request};
use std::alloc::AllocError;

/// An object that answers requests, one after the other, and records each accepted one in a log
/// before it makes the change.
pub trait LoggedMachine {
    /// The edit that is reported for a change.
    type Edit: Drop;

    /// Relates a state, a request, the reply, the state after it, and the edit.
    ghost steps: { Self → TheRequest → SentReply → Self → Option Self.Edit → Type 0 };

    /// The reply to a request, its body lent by the machine, which is unchanged: None where it
    /// lends none. Asked for where `answer_logged` is out of memory. The reply closes the
    /// connection exactly where the request does.
    ///
    /// # Errors
    /// `AllocError` when out of memory.
    fn answer_reading<'a>(&'a self, request: &Request) -> Result<Option<LentReply<'a>>, AllocError>
        ensures makes_step { IfOk result (λ lent. IfSome lent
            (λ reply. steps self.now request.now reply self.now None)) }
        ensures closes_as_asked { IfOk result (λ lent. IfSome lent
            (λ reply. reply.closes ≡ request.now.closes)) };

    /// Answers a request. If the request makes a change, its record is added to the journal first;
    /// where that fails, the reply is the 500, and nothing is changed. The reply closes the
    /// connection exactly where the request does.
    ///
    /// # Errors
    /// `AllocError` when out of memory; then nothing has changed.
    fn answer_logged<J: Journal>(
        &mut self,
        log: &mut JournalLog,
        journal: &mut J,
        request: &Request,
    ) -> Result<MachineReply<Self::Edit>, AllocError>
        requires loggable { IsLoggable request.now }
        requires fits { LogFitsJournal log.old (J.state journal.old) }
        requires room_left { log.old.len ≤ u64_max - MAX_RECORD_BYTES }
        ensures machine_reply { IfOk result
            (λ answered. AnswersWithJournal steps
            (record { machine = self.old; log = log.old; journal = J.state journal.old })
            request.now answered.reply
            (record { machine = self.new; log = log.new; journal = J.state journal.new })
            answered.edit) }
        ensures closes_as_asked { IfOk result
            (λ answered. answered.reply.closes ≡ request.now.closes) }
        ensures err_unchanged { OnErr result
            ((self.new ≡ self.old) × (log.new ≡ log.old) × (journal.new ≡ journal.old)) }
        ensures still_fits { LogFitsJournal log.new (J.state journal.new) }
        ensures goes_on { IsJournalProgress (J.state journal.old) (J.state journal.new) };
}
