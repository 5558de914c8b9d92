//! A machine with its log and its journal, as one machine that serves connections.
use crate::{Journal, JournalLog, LoggedMachine};
use http_serve::{Machine, MachineReply};
use http_wire::{LentReply, Request};
use std::alloc::AllocError;

/// A machine, its log, and the journal of that log.
#[derive(Drop)]
pub(crate) struct MachineWithJournal<'a, M: LoggedMachine, J: Journal> {
    pub(crate) machine: &'a mut M,
    pub(crate) log: &'a mut JournalLog,
    pub(crate) journal: &'a mut J,
}

impl<'a, M: LoggedMachine, J: Journal> Machine for MachineWithJournal<'a, M, J> {
    ghost use Rattle.edit_journal.specs.inner.JournaledMachines.{CanAnswerRequests};
    ghost use Rattle.edit_journal.specs.inner.JournaledMachines.{JournaledMachineStep};
    ghost use Rattle.edit_journal.specs.inner.JournaledMachines.{can_answer_fewer};

    type Edit = M::Edit;

    ghost steps = { λ old request reply new edit. JournaledMachineStep M.steps
        (record {
          machine = old.machine.now;
          log = old.log.now;
          journal = J.state old.journal.now;
          machine_name = old.machine.ghost_name;
          log_name = old.log.ghost_name;
          journal_name = old.journal.ghost_name;
        })
        request reply
        (record {
          machine = new.machine.now;
          log = new.log.now;
          journal = J.state new.journal.now;
          machine_name = new.machine.ghost_name;
          log_name = new.log.ghost_name;
          journal_name = new.journal.ghost_name;
        })
        edit };

    ghost takes = { λ logged n. CanAnswerRequests {M = M}
        (record {
          machine = logged.machine.now;
          log = logged.log.now;
          journal = J.state logged.journal.now;
          machine_name = logged.machine.ghost_name;
          log_name = logged.log.ghost_name;
          journal_name = logged.journal.ghost_name;
        })
        n };

    fn answer_reading<'b>(
        &'b self,
        request: &Request,
    ) -> Result<Option<LentReply<'b>>, AllocError> {
        self.machine.answer_reading(request)
    }

    fn answer(&mut self, request: &Request) -> Result<MachineReply<M::Edit>, AllocError> {
        self.machine.answer_logged(self.log, self.journal, request)
    }

    ghost takes_fewer = { λ logged n takes. can_answer_fewer {M = M}
        (record {
          machine = logged.machine.now;
          log = logged.log.now;
          journal = J.state logged.journal.now;
          machine_name = logged.machine.ghost_name;
          log_name = logged.log.ghost_name;
          journal_name = logged.journal.ghost_name;
        })
        n takes };
}
