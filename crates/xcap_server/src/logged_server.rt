//! The server with a log, to which accepted requests are added before their changes are made.
ghost use Rattle.std.specs.Prelude.{◌≡◌, ◌≤◌, ◌-◌, ◌*◌, List, IfOk, OnErr};
ghost use Rattle.http_wire.specs.declared.request.Request.{Request as TheRequest};
ghost use Rattle.xml_names.specs.Limits.{u64_max};
ghost use Rattle.edit_journal.specs.Journals.{IsJournalProgress};
ghost use Rattle.edit_journal.specs.declared.limits.TheConstants.{MAX_RECORD_BYTES};
ghost use Rattle.edit_journal.specs.JournalLogs.{LogFitsJournal};
ghost use Rattle.edit_journal.specs.LoggedMachines.{HoldsLog};
ghost use Rattle.edit_journal.specs.LoggedRequests.{AcceptsRequest, IsLoggable};
ghost use Rattle.edit_journal.specs.LoggedPorts.{HasRoomForRecords};
ghost use Rattle.store_core.specs.Contents.{Represents};
ghost use Rattle.store_core.specs.ValidStates.{IsValidState};
ghost use Rattle.store_core.specs.State.{State};
ghost use Rattle.xcap_machine.specs.Machine.{ValidStep};
ghost use Rattle.xcap_server.specs.LoggedServers.{AnswersLogged, LogsRequests, ServesPortLogged};
ghost use Rattle.xcap_server.specs.LoggedServers.{with_accepted_request};

use crate::server::Server;
use edit_journal::{Journal, JournalLog, LoggedMachine, serve_streams_logged};
use edit_ops::Edit;
use http_serve::{MachineReply, ServeSummary};
use http_wire::Request;
use std::alloc::AllocError;
use watchers::Watchers;
use xcap_io::Port;

/// Answers a request as `answer` does, and adds it to the log before it makes a change: its record
/// is then whole in the journal. Where the record can't be added, the reply is the 500, and
/// nothing is changed except the journal after the whole records, from which the next append cuts
/// what was left. Where the journal has the records of the requests that the server stands for, it
/// still has them afterwards.
///
/// # Errors
/// `AllocError` when out of memory; nothing has changed then.
pub fn answer_logged<J: Journal>(
    server: &mut Server,
    log: &mut JournalLog,
    journal: &mut J,
    request: &Request,
) -> Result<MachineReply<Edit>, AllocError>
    requires loggable { IsLoggable request.now }
    requires fits { LogFitsJournal log.old (J.state journal.old) }
    requires room_left { log.old.len ≤ u64_max - MAX_RECORD_BYTES }
    ensures machine_reply { IfOk result
        (λ answered. (m : State) → IsValidState m → Represents server.old.content m
        → AnswersLogged m
        (record { machine = server.old; log = log.old; journal = J.state journal.old })
        (record { machine = server.new; log = log.new; journal = J.state journal.new })
        request.now answered) }
    ensures keeps_records { (requests : List TheRequest)
        → LogsRequests server.old log.old (J.state journal.old) requests
        → LogsRequests server.new log.new (J.state journal.new)
        (with_accepted_request result requests request.now) }
    ensures closes_as_asked { IfOk result (λ answered. answered.reply.closes ≡ request.now.closes) }
    ensures same_root { server.new.root ≡ server.old.root }
    ensures err_unchanged { OnErr result
        ((server.new.content ≡ server.old.content) × (log.new ≡ log.old)
        × (journal.new ≡ journal.old)) }
    ensures still_fits { LogFitsJournal log.new (J.state journal.new) }
    ensures goes_on { IsJournalProgress (J.state journal.old) (J.state journal.new) }
{
    server.service.answer_logged(log, journal, request)
}

/// Serves the next connections of a port, at most `count`, as `serve_port` does, with the
/// answers of `answer_logged`. Where the journal has the records of the requests that the server
/// stands for, it still has them afterwards.
pub fn serve_port_logged<J: Journal, P: Port, W: Watchers<Edit>>(
    server: &mut Server,
    log: &mut JournalLog,
    journal: &mut J,
    port: &mut P,
    count: u64,
    watchers: &mut W,
) -> ServeSummary
    requires fits { LogFitsJournal log.old (J.state journal.old) }
    requires room_left { HasRoomForRecords log.old (count * 1000) }
    ensures machine_session { (m : State) (requests : List TheRequest) → IsValidState m
        → Represents server.old.content m
        → HoldsLog (AcceptsRequest (ValidStep server.old.root) m) log.old requests
        (J.state journal.old).held
        → ServesPortLogged W.keeps (record { most = count; served = result })
        (record { machine = m; requests = requests; failures = 0 })
        (record {
          machine = record { machine = server.old; log = log.old; journal = J.state journal.old };
          stream = P.state port.old;
          watchers = watchers.old;
        })
        (record {
          machine = record { machine = server.new; log = log.new; journal = J.state journal.new };
          stream = P.state port.new;
          watchers = watchers.new;
        }) }
    ensures still_fits { LogFitsJournal log.new (J.state journal.new) }
    ensures goes_on { IsJournalProgress (J.state journal.old) (J.state journal.new) }
{
    serve_streams_logged(
        &mut server.service,
        log,
        journal,
        &mut server.buffers,
        port,
        count,
        watchers,
    )
}
