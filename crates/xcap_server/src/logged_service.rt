// The service as a logged machine: it adds accepted requests to a log before it makes their
// changes.
ghost use Rattle.std.specs.Prelude.{◌≡◌, None, Err, is_some};
ghost use Rattle.reply_text.specs.ReplyHeads.{plain_reply};
ghost use Rattle.store_core.specs.StoreViews.{StoreView};
ghost use Rattle.xcap_put.specs.declared.decision.Decision.{Decision as TheDecision};
ghost use Rattle.xcap_put.specs.Decisions.{IsReadyFor, answer_of};
ghost use Rattle.xcap_server.specs.inner.ServerSteps.{CarriesOutDecision};

use crate::request_decisions::decide;
use crate::service::{Service, commit};
use edit_journal::{AppendFault, Journal, JournalLog, LoggedMachine};
use edit_ops::Edit;
use http_serve::MachineReply;
use http_wire::{LentReply, Request};
use reply_text::Reply;
use std::alloc::AllocError;
use store_core::Store;
use xcap_put::Decision;

// Whether a decision makes a change.
pub(crate) fn has_change(decision: &Decision) -> bool
    ensures exact { result ≡ is_some (answer_of decision.now).made }
{
    match decision {
        Decision::Stays(_) => false,
        Decision::Changes { .. } => true,
    }
}

// The answer to a request whose record couldn't be added.
fn append_failure_reply(request: &Request) -> MachineReply<Edit>
    ensures status_500 { result.reply ≡ plain_reply 500 request.now.closes }
    ensures no_change { result.edit ≡ None }
{
    MachineReply {
        reply: Reply::fixed(500, request.closes),
        edit: None,
    }
}

// The answer where a change isn't made.
fn answer_without_change(
    fault: AppendFault,
    request: &Request,
) -> Result<MachineReply<Edit>, AllocError>
    ensures makes_nothing { (s : StoreView) (d : TheDecision)
        → CarriesOutDecision s (record { request = request.now; decision = d }) (Err fault) result
        s }
{
    match fault {
        AppendFault::Failed => Ok(append_failure_reply(request)),
        AppendFault::NoMemory => Err(AllocError),
    }
}

// Carries out a decision, by the result of adding the request's record.
pub(crate) fn carry_out(
    store: &mut Store,
    decision: Decision,
    entered: Result<(), AppendFault>,
    request: &Request,
) -> Result<MachineReply<Edit>, AllocError>
    requires ready { IsReadyFor store.old decision }
    ensures carries_out { CarriesOutDecision store.old
        (record { request = request.now; decision = decision })
        entered result store.new }
{
    match entered {
        Ok(()) => Ok(commit(store, decision)),
        Err(fault) => {
            // Dropped by a call, whose proof is made once, rather than at each exit.
            drop(decision);
            answer_without_change(fault, request)
        }
    }
}

impl LoggedMachine for Service {
    ghost use Rattle.xcap_server.specs.inner.ServerSteps.{AnswersRequest};

    type Edit = Edit;

    ghost steps = { AnswersRequest };

    fn answer_reading<'a>(
        &'a self,
        request: &Request,
    ) -> Result<Option<LentReply<'a>>, AllocError> {
        self.lend(request)
    }

    fn answer_logged<J: Journal>(
        &mut self,
        log: &mut JournalLog,
        journal: &mut J,
        request: &Request,
    ) -> Result<MachineReply<Edit>, AllocError> {
        let decision = decide(self.alloc, &self.root, &mut self.store, request)?;
        if !has_change(&decision) {
            return Ok(commit(&mut self.store, decision));
        }
        let entered = log.append(self.alloc, journal, request);
        carry_out(&mut self.store, decision, entered, request)
    }
}
