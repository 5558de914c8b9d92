//! Laws of what a crash leaves.
ghost use Rattle.std.specs.Prelude.{List, Option};
ghost use Rattle.http_wire.specs.declared.request.Request.{Request};
ghost use Rattle.change_log.specs.LogContents.{Contents};
ghost use Rattle.change_log.specs.LogHistories.{MayBeFound, Moment};
ghost use Rattle.logged_state.specs.DurableAnswers.{Answers, AnswersAll, Call, DurableState};
ghost use Rattle.logged_state.specs.DurableAnswers.{FindsChange};
ghost use Rattle.logged_state.specs.Restarts.{IsKept, KeepsCall, KeepsCalls, Survives};

use crate::durable_machine::DurableMachine;

/// A law: where the log keeps the machine's state, what a crash leaves leads a restart to it, or
/// to the state after the one pending change; each call keeps that, for its own change or the
/// pending one; and so do any calls, one after the other.
pub fn crashes_keep_changes<M: DurableMachine>()
    ensures between_calls { (m : M) (pending : Option Request) (now : Moment)
        → IsKept M.steps M.begins m pending now
        → (found : Contents) → MayBeFound now found → Survives M.steps M.begins m pending found }
    ensures in_a_call { (old new : DurableState M) (pending : Option Request)
        (call : Call M.Edit)
        → IsKept M.steps M.begins old.machine pending old.log.history.now
        → Answers M.steps old call new → FindsChange old.log call.request new.log
        → (next : Option Request) × KeepsCall M.steps M.begins old pending call new next }
    ensures in_all_calls { (old new : DurableState M) (pending : Option Request)
        (calls : List (Call M.Edit))
        → IsKept M.steps M.begins old.machine pending old.log.history.now
        → AnswersAll M.steps old calls new
        → (last : Option Request)
        × IsKept M.steps M.begins new.machine last new.log.history.now
        × KeepsCalls M.steps M.begins old pending calls new last }
{}
