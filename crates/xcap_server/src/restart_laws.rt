//! Laws of servers that restart, each the contract of a function that does nothing.
ghost use Rattle.std.specs.Prelude.{◌≡◌, ℕ, ◌≤◌, ◌++◌, List, [], Result, false, length, take, All};
ghost use Rattle.http_wire.specs.declared.request.Request.{Request};
ghost use Rattle.edit_journal.specs.Journals.{IsPrefixOf, JournalState};
ghost use Rattle.edit_journal.specs.JournalLogs.{LogState};
ghost use Rattle.edit_journal.specs.declared.limits.TheConstants.{MAX_JOURNAL_BYTES};
ghost use Rattle.edit_journal.specs.Restarts.{RestartState, RestartsReplayer};
ghost use Rattle.edit_journal.specs.JournalTexts.{IsRecordedRequest, journal_text};
ghost use Rattle.edit_journal.specs.declared.journal_restart.RestartFault.{RestartFault};
ghost use Rattle.edit_journal.specs.PrefixRestarts.{RestartEndsAfter};
ghost use Rattle.store_core.specs.State.{State, first_state};
ghost use Rattle.xcap_server.specs.LoggedServers.{LogsRequests};
ghost use Rattle.xcap_server.specs.ReplayedRequests.{AcceptsRequests, RefusesRequest};
ghost use Rattle.xcap_server.specs.ReplayedRequests.{ResultsFromRequests};
ghost use Rattle.xcap_machine.specs.ServerStates.{ServerState};
ghost use Rattle.xcap_server.specs.RestartedServers.{RefusesNoRequest, RepresentsRequests};

/// A law: where the machine of a root makes a change at each of these requests, one after the
/// other, a server of this root without documents that restarts from some first bytes of their
/// text finds no fault in these bytes and refuses no request. It then has the contents that the
/// machine had after the requests that it repeated; where it read all bytes that it accepts, these
/// are exactly the requests whose records are whole in the bytes.
pub fn servers_come_back_from_first_bytes()
    ensures restarts_there { (all : List Request) (last : State)
        (old new : RestartState ServerState)
        (result : Result LogState RestartFault)
        → All IsRecordedRequest all → AcceptsRequests old.replayer.root (first_state 1) all last
        → ResultsFromRequests old.replayer [] → new.replayer.root ≡ old.replayer.root
        → (restarts : RestartsReplayer ResultsFromRequests RefusesRequest old new result)
        → IsPrefixOf (take MAX_JOURNAL_BYTES restarts.bytes) (journal_text all)
        → (left : List Request) × RepresentsRequests new.replayer restarts.requests left last
        × RestartEndsAfter RefusesNoRequest
        (record {
          all = all;
          bytes = take MAX_JOURNAL_BYTES restarts.bytes;
          done = restarts.requests;
          left = left;
          rest = restarts.rest;
        })
        new.replayer result }
{}

/// A law: where a journal has the records of the requests that a server stands for, some first
/// bytes of it are first bytes of the text of requests at each of which the machine makes a
/// change: those requests and, only where the log is torn, at most one more, which would be
/// accepted now.
pub fn journals_restore_a_state()
    ensures reaches_state { (server : ServerState) (log : LogState) (journal : JournalState)
        (requests : List Request) (bytes : List ℕ)
        → LogsRequests server log journal requests → IsPrefixOf bytes journal.held
        → (torn : List Request) × (last : State) × (length torn ≤ 1)
        × (log.is_torn ≡ false → torn ≡ []) × All IsRecordedRequest (requests ++ torn)
        × AcceptsRequests server.root (first_state 1) (requests ++ torn) last
        × IsPrefixOf bytes (journal_text (requests ++ torn)) }
{}
