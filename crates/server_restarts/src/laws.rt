//! The law of restarts.
ghost use Rattle.std.specs.Prelude.{◌≡◌, ℕ, ◌<◌, ◌≤◌, ◌^◌, List, Option, None, Some};
ghost use Rattle.change_log.specs.LogContents.{Contents, next_number, snapshot_of};
ghost use Rattle.change_log.specs.LogHistories.{MayBeFound, Moment, settled_moment};
ghost use Rattle.edit_ops.specs.declared.edit.Edit.{Edit};
ghost use Rattle.http_wire.specs.declared.request.Request.{Request};
ghost use Rattle.logged_state.specs.DurableAnswers.{AnswersAll, Call, DurableState};
ghost use Rattle.server_restarts.specs.KeptDocuments.{KeepsDocuments, KeepsDocumentsInCalls};
ghost use Rattle.server_restarts.specs.KeptDocuments.{LeadsToDocuments, LeadsToDocumentsOrNext};
ghost use Rattle.server_restarts.specs.KeptDocuments.{LeadsToSameDocuments};
ghost use Rattle.server_restarts.specs.StatesOfLogs.{AreToldBetween, KeepsState, LeadsToState};
ghost use Rattle.server_restarts.specs.StatesOfLogs.{LeadsToStateOrNext, SurvivesCalls};
ghost use Rattle.state_snapshots.specs.Names.{IsEncodableName};
ghost use Rattle.state_snapshots.specs.Snapshots.{snapshot_parts, without_earlier};
ghost use Rattle.std.specs.List.{AllByRecursion};
ghost use Rattle.store_core.specs.State.{State};
ghost use Rattle.store_core.specs.ValidStates.{IsValidState};
ghost use Rattle.xcap_machine.specs.Machine.{ValidStep};

/// A law: where the log keeps the machine's state, what a crash leaves leads a restart to it, or
/// to the state after the one pending change; calls that are answered with their changes appended
/// first keep that, and at each moment of each of them a crash leaves what leads to the state
/// before it, or to one change more. Contents lead to one state under given limits, which a log
/// doesn't keep; its next number is the log's. No number is told twice: those of calls lie between
/// the next numbers before and after them, and a restart comes to no lower one.
pub fn restarts_come_back()
    ensures between_calls { (root : List ℕ) (m : State) (pending : Option Request) (now : Moment)
        → KeepsState root m pending now
        → (found : Contents) → MayBeFound now found → LeadsToStateOrNext root m pending found }
    ensures in_all_calls { (root : List ℕ) (old new : DurableState State)
        (pending : Option Request) (calls : List (Call Edit))
        → KeepsState root old.machine pending old.log.history.now
        → AnswersAll (ValidStep root) old calls new
        → (last : Option Request) × KeepsState root new.machine last new.log.history.now
        × SurvivesCalls root old pending calls new last }
    ensures one_state { (root : List ℕ) (found : Contents) (m n : State)
        → m.limits ≡ n.limits → LeadsToState root found m → LeadsToState root found n → m ≡ n }
    ensures same_number { (root : List ℕ) (found : Contents) (m : State)
        → LeadsToState root found m → m.next ≡ next_number found }
    ensures told_once { (root : List ℕ) (old new : DurableState State)
        (calls : List (Call Edit)) → AnswersAll (ValidStep root) old calls new
        → AreToldBetween old.machine.next calls new.machine.next }
    ensures never_lower { (root : List ℕ) (m : State) (pending : Option Request)
        (found : Contents) → LeadsToStateOrNext root m pending found
        → (n : State) → LeadsToState root found n → m.next ≤ n.next }
{}

/// A law: a snapshot of a valid state leads to the state without earlier versions: to each
/// document with its etag, and to the next number.
pub fn snapshots_lead_to_their_state()
    ensures leads { (root : List ℕ) (m : State) → IsValidState m → m.next < 2 ^ 64
        → AllByRecursion (λ d. IsEncodableName d.id) m.documents
        → LeadsToState root (snapshot_of (snapshot_parts root m) m.next) (without_earlier m) }
{}

/// A law: the same of a server that writes snapshots of its state while it serves. A snapshot has
/// no earlier versions, which the server still has: what the log then keeps are the present
/// documents, each with its etag, and the next number. Contents that lead to these lead a restart
/// to a state that has them; a log that keeps the state keeps them; so do calls that are answered
/// with their changes appended first, and each snapshot, also while it isn't known whether it is
/// in the log's place.
pub fn restarts_find_documents()
    ensures leads { (root : List ℕ) (found : Contents) (m : State)
        → LeadsToDocuments root found m → LeadsToSameDocuments root found m }
    ensures kept_with_state { (root : List ℕ) (m : State) (pending : Option Request)
        (now : Moment) → KeepsState root m pending now → KeepsDocuments root m pending now }
    ensures between_calls { (root : List ℕ) (m : State) (pending : Option Request) (now : Moment)
        → KeepsDocuments root m pending now
        → (found : Contents) → MayBeFound now found → LeadsToDocumentsOrNext root m pending found }
    ensures in_all_calls { (root : List ℕ) (old new : DurableState State)
        (pending : Option Request) (calls : List (Call Edit))
        → KeepsDocuments root old.machine pending old.log.history.now
        → AnswersAll (ValidStep root) old calls new
        → (last : Option Request) × KeepsDocuments root new.machine last new.log.history.now
        × KeepsDocumentsInCalls root old pending calls new last }
    ensures after_snapshot { (root : List ℕ) (m : State) → IsValidState m → m.next < 2 ^ 64
        → AllByRecursion (λ d. IsEncodableName d.id) m.documents
        → KeepsDocuments root m None
        (settled_moment (snapshot_of (snapshot_parts root m) m.next)) }
    ensures unsettled_snapshot { (root : List ℕ) (m : State) (pending : Option Request)
        (now : Moment) → IsValidState m → m.next < 2 ^ 64
        → AllByRecursion (λ d. IsEncodableName d.id) m.documents
        → KeepsDocuments root m pending now
        → KeepsDocuments root m pending
        (record now { instead = Some (snapshot_of (snapshot_parts root m) m.next) }) }
{}
