//! A law of the command `keep`, the contract of a function that does nothing.
ghost use Rattle.std.specs.Prelude.{◌≡◌, ◌≢◌, ℕ, List};
ghost use Rattle.http_wire.specs.declared.request.Request.{Request};
ghost use Rattle.http_serve.specs.declared.accept_loop.ServeSummary.{ServeSummary};
ghost use Rattle.xcap_io.specs.StreamStates.{StreamState};
ghost use Rattle.xcap_io.specs.StreamTraffic.{GivesBytes, TakesBytes};
ghost use Rattle.edit_journal.specs.Journals.{IsPrefixOf};
ghost use Rattle.store_core.specs.State.{State};
ghost use Rattle.xcap_app.specs.KeepCommand.{KeepsCommand, KeepSummary, OldJournal, ReadsJournal};
ghost use Rattle.xcap_app.specs.KeepCommand.{summary_without_failures};
ghost use Rattle.xcap_app.specs.RunStates.{KeepState};
ghost use Rattle.xcap_app.specs.ServeCommand.{ServiceArguments};
ghost use Rattle.xcap_app.specs.declared.exit.Exit.{Exit};
ghost use Rattle.xcap_app.specs.declared.exit.Exit.TheVariants.{BadJournal};
ghost use Rattle.xcap_app.specs.declared.journal_refusal.JournalRefusal.TheVariants as refusals;
ghost use Rattle.xcap_machine.specs.ReachedStates.{ReachesByValidSteps};
ghost use Rattle.xcap_laws.specs.WrittenJournals.{RestartsFromJournal, IsWrittenJournal};
ghost use Rattle.xcap_laws.specs.WrittenJournals.{ServesAfterJournal};

use edit_ops::Edit;
use watchers::Watchers;

/// A law: what `keep` writes is an old journal for the next `keep` of the same root. However a run
/// ends, the bytes that its output took are first bytes of the records of requests at each of which
/// the machine makes a change, one after the other. A next run that is given some first bytes of
/// these finds no damage in them, and no request that is refused; where it reads them to their end,
/// it serves from the state after the requests whose records are whole in them. Where it reads all
/// that a run wrote which served connections and didn't fail to write, that is the state at the end
/// of that run, with all versions and the next tag, and the next run goes on from there.
pub fn keep_after_keep<W: Watchers<Edit>>()
    ensures writes_records { (arguments : ServiceArguments) (exit : Exit) (old new : KeepState W)
        (bytes : List ℕ) → KeepsCommand W.keeps arguments exit old new
        → TakesBytes old.output.taken new.output.taken bytes
        → (all : List Request) × (last : State)
        × IsWrittenJournal arguments.root bytes all last }
    ensures never_refused { (arguments : ServiceArguments) (exit : Exit) (old new : KeepState W)
        (written bytes : List ℕ) (all : List Request) (last : State)
        → IsWrittenJournal arguments.root written all last → IsPrefixOf bytes written
        → GivesBytes old.input.inward new.input.inward bytes
        → KeepsCommand W.keeps arguments exit old new
        → ((place : ℕ) → exit ≢ BadJournal (refusals.Damaged place))
        × ((number : ℕ) → exit ≢ BadJournal (refusals.Refused number)) }
    ensures comes_back { (root written : List ℕ) (journal : OldJournal) (all : List Request)
        (last : State) (input input' : StreamState)
        → IsWrittenJournal root written all last → IsPrefixOf journal.bytes written
        → ReadsJournal root journal input input' → RestartsFromJournal root journal all last }
    ensures goes_on { (first next : ServiceArguments) (served : ServeSummary) (kept : KeepSummary)
        (before between : OldJournal) (old new old' new' : KeepState W) → next.root ≡ first.root
        → (run : ServesAfterJournal W.keeps first (summary_without_failures served) before old new)
        → TakesBytes old.output.taken new.output.taken between.bytes
        → ReadsJournal next.root between old'.input new'.input
        → (run' : ServesAfterJournal W.keeps next kept between old' new')
        → (between.state ≡ run.next) × ReachesByValidSteps next.root run.next run'.next }
{}
