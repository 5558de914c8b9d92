// The command `keep`: an old journal is read, a new one written, and the connections that come at
// an address are served by a server that adds accepted requests to the new journal.
ghost use Rattle.std.specs.Prelude.{◌≡◌, ◌<◌, ◌≤◌, [], length, false, All};
ghost use Rattle.edit_journal.specs.Journals.{IsJournalProgress};
ghost use Rattle.edit_journal.specs.declared.limits.TheConstants.{MAX_JOURNAL_BYTES};
ghost use Rattle.edit_journal.specs.JournalTexts.{IsRecordedRequest, journal_text};
ghost use Rattle.store_core.specs.Contents.{Represents, first_contents};
ghost use Rattle.store_core.specs.ValidStates.{IsValidState};
ghost use Rattle.store_core.specs.State.{first_state};
ghost use Rattle.xcap_server.specs.ReplayedRequests.{AcceptsRequests};
ghost use Rattle.xcap_io.specs.StreamStates.{StreamState};
ghost use Rattle.xcap_app.specs.KeepCommand.{KeepsCommand, EndsKeep, OldJournal, exit_of_restart};
ghost use Rattle.xcap_app.specs.inner.JournalOutputs.{UsesOnlyJournal};

use crate::exit::Exit;
use crate::journal_refusal::JournalRefusal;
use edit_journal::{Journal, JournalLog, RestartFault, StreamJournal, restart};
use edit_ops::Edit;
use http_serve::StopReason;
use std::alloc::Global;
use watchers::Watchers;
use xcap_io::{Failed, Line, Port, Sink, Source};
use xcap_server::{Server, serve_port_logged};
use xcap_uri::Root;

// How the command ends when it couldn't read its old journal.
fn exit_after_restart(fault: RestartFault) -> Exit
    ensures exact { result ≡ exit_of_restart fault }
{
    match fault {
        RestartFault::ReadFailed => Exit::InputFailed,
        RestartFault::AppendFailed => Exit::OutputFailed,
        RestartFault::Damaged(place) => Exit::BadJournal(JournalRefusal::Damaged(place)),
        RestartFault::Refused(number) => Exit::BadJournal(JournalRefusal::Refused(number)),
        RestartFault::TooLong => Exit::BadJournal(JournalRefusal::TooLong),
        RestartFault::NoMemory => Exit::OutOfMemory,
    }
}

// Listens at the address and serves the connections that come, at most `count`, by a server that
// stands for the records in the journal.
fn serve_logged<'a, O: Sink, P: Port, W: Watchers<Edit>>(
    server: &mut Server,
    log: &mut JournalLog,
    journal: &mut StreamJournal<'a, O>,
    address: &str,
    count: u32,
    port: &mut P,
    watchers: &mut W,
) -> Exit
    requires not_torn { log.old.is_torn ≡ false }
    requires fits { length (⟦<StreamJournal<'a, O> as Journal>⟧.state journal.old).held
        ≡ log.old.len }
    requires length_bounded { log.old.len ≤ MAX_JOURNAL_BYTES }
    requires no_fault { (⟦<StreamJournal<'a, O> as Journal>⟧.state journal.old).faults ≡ 0 }
    ensures keeps_on { (read : OldJournal) → IsValidState read.state
        → Represents server.old.content read.state
        → AcceptsRequests server.old.root (first_state 1) read.requests read.state
        → All IsRecordedRequest read.requests
        → (⟦<StreamJournal<'a, O> as Journal>⟧.state journal.old).held ≡ journal_text read.requests
        → EndsKeep W.keeps (λ bytes. (⟦<StreamJournal<'a, O> as Journal>⟧.state journal.new).held
        ≡ bytes)
        (0 < (⟦<StreamJournal<'a, O> as Journal>⟧.state journal.new).faults)
        (record { address = address.now; root = server.old.root; count = count }) result read
        (record { port = P.state port.old; watchers = watchers.old })
        (record { port = P.state port.new; watchers = watchers.new }) }
    ensures goes_on { IsJournalProgress (⟦<StreamJournal<'a, O> as Journal>⟧.state journal.old)
        (⟦<StreamJournal<'a, O> as Journal>⟧.state journal.new) }
{
    if let Err(Failed) = port.listen(address) {
        return Exit::NetworkFailed;
    }
    let served = serve_port_logged(server, log, journal, port, count as u64, watchers);
    if journal.has_failed() {
        return Exit::OutputFailed;
    }
    match served.stop {
        StopReason::PortFailed => Exit::NetworkFailed,
        StopReason::Count | StopReason::NoMore => Exit::Done,
    }
}

// Restarts the server from the old journal on the input, and serves with it. The new journal is
// empty before.
fn restart_and_serve<'a, P: Port, I: Source, O: Sink, W: Watchers<Edit>>(
    alloc: Global,
    server: &mut Server,
    journal: &mut StreamJournal<'a, O>,
    address: &str,
    count: u32,
    port: &mut P,
    input: &mut I,
    watchers: &mut W,
) -> Exit
    requires empty { server.old.content ≡ first_contents 1 }
    requires fresh { (⟦<StreamJournal<'a, O> as Journal>⟧.state journal.old).held ≡ [] }
    requires no_fault { (⟦<StreamJournal<'a, O> as Journal>⟧.state journal.old).faults ≡ 0 }
    ensures keeps_command { (output output' : StreamState)
        → UsesOnlyJournal output output' (⟦<StreamJournal<'a, O> as Journal>⟧.state journal.new)
        → KeepsCommand W.keeps
        (record { address = address.now; root = server.old.root; count = count }) result
        (record {
          port = P.state port.old;
          input = I.state input.old;
          output = output;
          watchers = watchers.old;
        })
        (record {
          port = P.state port.new;
          input = I.state input.new;
          output = output';
          watchers = watchers.new;
        }) }
    ensures goes_on { IsJournalProgress (⟦<StreamJournal<'a, O> as Journal>⟧.state journal.old)
        (⟦<StreamJournal<'a, O> as Journal>⟧.state journal.new) }
{
    let mut log = match restart(alloc, input, journal, server) {
        Ok(log) => log,
        Err(fault) => return exit_after_restart(fault),
    };
    serve_logged(server, &mut log, journal, address, count, port, watchers)
}

// Restarts the server and serves with it, with the new journal on the output.
fn keep_with_server<P: Port, I: Source, O: Sink, W: Watchers<Edit>>(
    alloc: Global,
    server: &mut Server,
    address: &str,
    count: u32,
    port: &mut P,
    input: &mut I,
    output: &mut O,
    watchers: &mut W,
) -> Exit
    requires empty { server.old.content ≡ first_contents 1 }
    ensures keeps_command { KeepsCommand W.keeps
        (record { address = address.now; root = server.old.root; count = count }) result
        (record {
          port = P.state port.old;
          input = I.state input.old;
          output = O.state output.old;
          watchers = watchers.old;
        })
        (record {
          port = P.state port.new;
          input = I.state input.new;
          output = O.state output.new;
          watchers = watchers.new;
        }) }
{
    let mut journal = StreamJournal::new(output);
    restart_and_serve(
        alloc,
        server,
        &mut journal,
        address,
        count,
        port,
        input,
        watchers,
    )
}

/// Reads an old journal from the input, to its end, and writes a new one to the output: first the
/// records of the old one that are whole in it, and then one for each request that is accepted,
/// before its reply. Listens at the address and serves the connections that come, at most `count`,
/// by a server of this root that restarts from the old journal.
pub(crate) fn keep<P: Port, I: Source, O: Sink, W: Watchers<Edit>>(
    alloc: Global,
    address: &str,
    root: &Root,
    count: u32,
    port: &mut P,
    input: &mut I,
    output: &mut O,
    watchers: &mut W,
) -> Exit
    ensures keeps_journal { KeepsCommand W.keeps
        (record { address = address.now; root = root.now; count = count }) result
        (record {
          port = P.state port.old;
          input = I.state input.old;
          output = O.state output.old;
          watchers = watchers.old;
        })
        (record {
          port = P.state port.new;
          input = I.state input.new;
          output = O.state output.new;
          watchers = watchers.new;
        }) }
{
    let Ok(mut server) = Server::new(alloc, root, 1) else {
        return Exit::OutOfMemory;
    };
    let exit = keep_with_server(
        alloc,
        &mut server,
        address,
        count,
        port,
        input,
        output,
        watchers,
    );
    // Dropped by a call, whose proof is made once, rather than at each exit.
    drop(server);
    exit
}
