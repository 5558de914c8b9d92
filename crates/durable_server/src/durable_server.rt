//! The server with the log of its changes.
ghost use Rattle.std.specs.Prelude.{◌≡◌};

use change_log::ChangeLog;
use edit_ops::Edit;
use http_serve::{Machine, MachineReply};
use http_wire::{LentReply, Request};
use std::alloc::AllocError;
use xcap_server::{Server, answer_durably, answer_reading};

/// A server and the log of its changes.
#[derive(Drop)]
pub struct DurableServer<L: ChangeLog + Drop> {
    server: Server,
    log: L,
}

impl<L: ChangeLog + Drop> DurableServer<L> {
    /// A server whose changes are appended to this log from now on.
    pub fn new(server: Server, log: L) -> DurableServer<L>
        ensures given_server { result.server ≡ server }
        ensures given_log { result.log ≡ log }
    {
        DurableServer { server, log }
    }

    /// The server. Does not allocate.
    pub fn server(&self) -> &Server
        ensures exact { result.now ≡ self.now.server }
    {
        &self.server
    }

    /// The log. Does not allocate.
    pub fn log(&self) -> &L
        ensures exact { result.now ≡ self.now.log }
    {
        &self.log
    }
}

impl<L: ChangeLog + Drop> Machine for DurableServer<L> {
    ghost use Rattle.durable_server.specs.DurableMachines.{CanAnswer, StepsDurably};
    ghost use Rattle.durable_server.specs.inner.FewerRequests.{can_answer_fewer};

    type Edit = Edit;

    ghost steps = { λ old request reply new edit. StepsDurably
        (record { machine = old.server; log = L.state old.log })
        (record { request = request; reply = reply; edit = edit })
        (record { machine = new.server; log = L.state new.log }) };

    // with the log that keeps the server's documents
    ghost takes = { λ machine n. CanAnswer (L.sound machine.log)
        (record { machine = machine.server; log = L.state machine.log }) n };

    fn answer_reading<'a>(
        &'a self,
        request: &Request,
    ) -> Result<Option<LentReply<'a>>, AllocError> {
        answer_reading(&self.server, request)
    }

    fn answer(&mut self, request: &Request) -> Result<MachineReply<Edit>, AllocError> {
        answer_durably(&mut self.server, &mut self.log, request)
    }

    ghost takes_fewer = { λ machine n. can_answer_fewer (L.sound machine.log)
        (record { machine = machine.server; log = L.state machine.log }) n };
}
