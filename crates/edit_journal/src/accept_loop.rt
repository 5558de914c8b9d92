//! The accept loop with a log: the connections of a port, served one after the other.
ghost use Rattle.std.specs.Prelude.{◌*◌, List};
ghost use Rattle.http_wire.specs.declared.request.Request.{Request as TheRequest};
ghost use Rattle.edit_journal.specs.Journals.{IsJournalProgress};
ghost use Rattle.edit_journal.specs.JournalLogs.{LogFitsJournal};
ghost use Rattle.edit_journal.specs.LoggedRequests.{AcceptsRequest};
ghost use Rattle.edit_journal.specs.LoggedMachines.{HoldsLog};
ghost use Rattle.edit_journal.specs.LoggedPorts.{HasRoomForRecords, ServesLogged};

use crate::journaled_machine::MachineWithJournal;
use crate::{Journal, JournalLog, LoggedMachine};
use http_serve::{ConnectionBuffers, ServeSummary, serve_streams};
use watchers::Watchers;
use xcap_io::{Line, Port};

/// Serves at most `count` connections of a port, one after the other, with a machine whose
/// accepted requests are recorded in the log.
pub fn serve_streams_logged<M: LoggedMachine, J: Journal, P: Port, W: Watchers<M::Edit>>(
    machine: &mut M,
    log: &mut JournalLog,
    journal: &mut J,
    buffers: &mut ConnectionBuffers,
    port: &mut P,
    count: u64,
    watchers: &mut W,
) -> ServeSummary
    requires fits { LogFitsJournal log.old (J.state journal.old) }
    requires room_left { HasRoomForRecords log.old (count * 1000) }
    ensures serves_port { (requests : List TheRequest)
        → HoldsLog (AcceptsRequest M.steps machine.old) log.old requests (J.state journal.old).held
        → ServesLogged M.steps W.keeps (record { most = count; served = result }) requests
        (record {
          machine = record {
            machine = machine.old;
            log = log.old;
            journal = J.state journal.old;
          };
          stream = P.state port.old;
          watchers = watchers.old;
        })
        (record {
          machine = record {
            machine = machine.new;
            log = log.new;
            journal = J.state journal.new;
          };
          stream = P.state port.new;
          watchers = watchers.new;
        }) }
    ensures still_fits { LogFitsJournal log.new (J.state journal.new) }
    ensures goes_on { IsJournalProgress (J.state journal.old) (J.state journal.new) }
{
    let mut logged = MachineWithJournal {
        machine,
        log,
        journal,
    };
    serve_streams(&mut logged, buffers, port, count, watchers)
}
