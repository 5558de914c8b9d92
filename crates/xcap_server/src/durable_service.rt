// The service as a durable machine: it appends changes to a log before it makes them.
ghost use Rattle.std.specs.Prelude.{◌≡◌};
ghost use Rattle.xcap_server.specs.inner.ServerSteps.{entered_as};

use crate::logged_service::{carry_out, has_change};
use crate::request_decisions::decide;
use crate::service::{Service, commit};
use change_log::ChangeLog;
use edit_journal::AppendFault;
use edit_ops::Edit;
use http_serve::MachineReply;
use http_wire::Request;
use logged_state::{DurableMachine, append_request};
use std::alloc::AllocError;

// What an append did, as `carry_out` takes it.
fn entered(appended: Result<u64, change_log::AppendFault>) -> Result<(), AppendFault>
    ensures exact { result ≡ entered_as appended }
{
    match appended {
        Ok(_) => Ok(()),
        Err(change_log::AppendFault::Failed) => Err(AppendFault::Failed),
        Err(change_log::AppendFault::NoMemory) => Err(AppendFault::NoMemory),
    }
}

impl DurableMachine for Service {
    ghost use Rattle.xcap_server.specs.inner.DurableServers.{BeginsWith};
    ghost use Rattle.xcap_server.specs.inner.ServerSteps.{AnswersRequest};
    ghost use Rattle.xcap_server.specs.inner.RecordedRequests.{recorded_makes};

    type Edit = Edit;

    ghost steps = { AnswersRequest };

    ghost begins = { BeginsWith };

    fn answer_durably<L: ChangeLog>(
        &mut self,
        log: &mut L,
        request: &Request,
    ) -> Result<MachineReply<Edit>, AllocError> {
        let decision = decide(self.alloc, &self.root, &mut self.store, request)?;
        if !has_change(&decision) {
            return Ok(commit(&mut self.store, decision));
        }
        let appended = append_request(self.alloc, log, request);
        carry_out(&mut self.store, decision, entered(appended), request)
    }

    ghost records_suffice = { recorded_makes };
}
