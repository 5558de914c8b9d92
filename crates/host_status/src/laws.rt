//! Laws of the steps of the server.
ghost use Rattle.std.specs.Prelude.{◌≡◌, ℕ, List, Option, None, true, false};
ghost use Rattle.edit_ops.specs.declared.edit.Edit.{Edit};
ghost use Rattle.http_wire.specs.declared.request.Request.{Request};
ghost use Rattle.reply_text.specs.ReplyHeads.{SentReply};
ghost use Rattle.store_core.specs.State.{State};
ghost use Rattle.xcap_machine.specs.Machine.{ValidStep};
ghost use Rattle.host_status.specs.HostSteps.{HostStep, asks_for_status};

/// A law: a request that doesn't ask for the status is answered by the machine, and one that does
/// gets a 200 and changes nothing.
pub fn other_requests_are_answered_by_the_machine()
    ensures by_the_machine { (root : List ℕ) (m next : State) (request : Request)
        (reply : SentReply) (edit : Option Edit) → HostStep root m request reply next edit
        → asks_for_status root request ≡ false → ValidStep root m request reply next edit }
    ensures status_changes_nothing { (root : List ℕ) (m next : State) (request : Request)
        (reply : SentReply) (edit : Option Edit) → HostStep root m request reply next edit
        → asks_for_status root request ≡ true
        → (reply.status ≡ 200) × (next ≡ m) × (edit ≡ None) }
{}
