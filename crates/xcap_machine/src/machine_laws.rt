//! Laws of the machine, each the contract of a function that does nothing.
ghost use Rattle.std.specs.Prelude.{◌≡◌, ◌⊎◌, ℕ, ◌+◌, ◌≤◌, true, false, List, Option, Ok, IsSome};
ghost use Rattle.http_wire.specs.declared.request.Request.{Request};
ghost use Rattle.doc_names.specs.declared.doc_id.DocId.{DocId};
ghost use Rattle.edit_ops.specs.Notes.{Note};
ghost use Rattle.edit_ops.specs.declared.change.Change.{Change};
ghost use Rattle.edit_ops.specs.declared.edit.Edit.{Edit};
ghost use Rattle.reply_text.specs.ReplyHeads.{SentReply};
ghost use Rattle.request_checks.specs.Methods.{method_of};
ghost use Rattle.store_core.specs.Contents.{Represents, StoreContents};
ghost use Rattle.store_core.specs.ValidStates.{IsValidState};
ghost use Rattle.store_core.specs.DocumentChanges.{change_result};
ghost use Rattle.store_core.specs.ChangePreconditions.{MayRequest};
ghost use Rattle.store_core.specs.State.{State};
ghost use Rattle.xcap_uri.specs.Meanings.{IsOwnAddress};
ghost use Rattle.xcap_uri.specs.Targets.{IsTargetResult};
ghost use Rattle.xcap_uri.specs.declared.target.Target.{Target};
ghost use Rattle.xcap_machine.specs.Answers.{Answer};
ghost use Rattle.xcap_machine.specs.WriteEffects.{DeleteTargetIsGone, EditKeepsKeyAddresses};
ghost use Rattle.xcap_machine.specs.WriteEffects.{PutTargetExists};
ghost use Rattle.xcap_machine.specs.WriteEffects.{RepeatedPutPreservesTrees};
ghost use Rattle.xcap_machine.specs.KeyAddresses.{ChangeKeepsKeyAddresses};
ghost use Rattle.xcap_machine.specs.Machine.{ContentStep, StandardStep, ValidStep, Step};
ghost use Rattle.xcap_machine.specs.Requests.{IsAnswer};
ghost use Rattle.xcap_machine.specs.StandardRequests.{IsStandardAnswer, IsWritableTarget};
ghost use Rattle.xcap_machine.specs.StepOutcomes.{IsDeterministic, ChangesNothing};
ghost use Rattle.xcap_machine.specs.StepOutcomes.{HasStandardStep, HasStep, reports_change};

/// A law: under each root, a request has exactly one answer on given store contents: one reply,
/// and one change or none. So it leaves one possible contents; and from each state the machine
/// makes exactly one step: the reply, the next state, and the edit, if there is one.
pub fn each_request_has_one_answer()
    ensures answer_exists { (root : List ℕ) (c : StoreContents) (request : Request)
        → (a : Answer) × IsAnswer root c request a }
    ensures answers_are_one { (root : List ℕ) (c : StoreContents) (request : Request) (a b : Answer)
        → IsAnswer root c request a → IsAnswer root c request b → a ≡ b }
    ensures one_outcome { (root : List ℕ) (c : StoreContents) (request : Request)
        → IsDeterministic (ContentStep root c request) }
    ensures step_exists { (root : List ℕ) (m : State) (request : Request)
        → HasStep root m request }
    ensures steps_are_one { (root : List ℕ) (m : State) (request : Request)
        → IsDeterministic (Step root m request) }
{}

/// A law: by the standards alone a request has exactly one answer on given store contents, except
/// at this server's own addresses, whose answers they leave open.
pub fn the_standards_leave_one_answer()
    ensures answer_exists { (root : List ℕ) (c : StoreContents) (request : Request)
        → (a : Answer) × IsStandardAnswer root c request a }
    ensures answers_are_one { (root : List ℕ) (c : StoreContents) (request : Request) (a b : Answer)
        → IsStandardAnswer root c request a → IsStandardAnswer root c request b
        → (a ≡ b) ⊎ IsOwnAddress root request.target }
{}

/// A law: the machine's answers are answers by the standards alone, and so are its steps; so there
/// is one from each state.
pub fn each_answer_is_by_the_standards()
    ensures standard_answer { (root : List ℕ) (c : StoreContents) (request : Request) (a : Answer)
        → IsAnswer root c request a → IsStandardAnswer root c request a }
    ensures standard_step { (root : List ℕ) (m : State) (request : Request)
        (reply : SentReply) (next : State) (edit : Option Edit)
        → Step root m request reply next edit → StandardStep root m request reply next edit }
    ensures step_exists { (root : List ℕ) (m : State) (request : Request)
        → HasStandardStep root m request }
{}

/// A law: a step whose status reports no change leaves the state unchanged and has no edit; so
/// does each step whose status is 300 or more, as 304, 4xx and 5xx are. A step whose status
/// reports a change takes one number and has an edit.
pub fn what_is_refused_changes_nothing()
    ensures unnotified_unchanged { (root : List ℕ) (m : State) (request : Request)
        (reply : SentReply) (next : State) (edit : Option Edit)
        → Step root m request reply next edit
        → reports_change (method_of request.method) reply.status ≡ false
        → ChangesNothing m next edit }
    ensures refused_unchanged { (root : List ℕ) (m : State) (request : Request)
        (reply : SentReply) (next : State) (edit : Option Edit)
        → Step root m request reply next edit → 300 ≤ reply.status
        → ChangesNothing m next edit }
    ensures reported_takes_number { (root : List ℕ) (m : State) (request : Request)
        (reply : SentReply) (next : State) (edit : Option Edit)
        → Step root m request reply next edit
        → reports_change (method_of request.method) reply.status ≡ true
        → IsSome edit × (next.next ≡ m.next + 1) }
{}

/// A law: each step from a valid state leads to a valid state.
pub fn every_state_stays_valid()
    ensures next_is_valid { (root : List ℕ) (m : State) (request : Request)
        (reply : SentReply) (next : State) (edit : Option Edit)
        → IsValidState m → Step root m request reply next edit → IsValidState next }
{}

/// A law: a reply closes the connection exactly where its request does.
pub fn each_reply_closes_as_its_request()
    ensures closes_alike { (root : List ℕ) (c : StoreContents) (request : Request) (a : Answer)
        → IsAnswer root c request a → a.reply.closes ≡ request.closes }
{}

/// A law: where store contents represent a valid state, what is done on them is a step of the
/// machine from that state to a valid one, which the contents afterwards represent.
pub fn what_is_held_follows_the_machine()
    ensures represents_after { (root : List ℕ) (c next : StoreContents) (m : State)
        (request : Request) (reply : SentReply) (edit : Option Edit)
        → ContentStep root c request reply next edit → IsValidState m → Represents c m
        → (after : State) × ValidStep root m request reply after edit × Represents next after }
{}

/// A law: after an accepted PUT the address selects exactly what was put, as the body is parsed at
/// its place; and the document has the tag of the edit.
pub fn what_was_put_is_there()
    ensures node_exists { (root : List ℕ) (c next : StoreContents) (request : Request)
        (reply : SentReply)
        (edit : Option Edit) → ContentStep root c request reply next edit
        → PutTargetExists root c request edit next }
{}

/// A law: after an accepted DELETE the address selects nothing.
pub fn what_was_deleted_is_gone()
    ensures deleted_is_gone { (root : List ℕ) (c next : StoreContents) (request : Request)
        (reply : SentReply)
        (edit : Option Edit) → ContentStep root c request reply next edit
        → DeleteTargetIsGone root request edit next }
{}

/// A law: where a PUT without condition fields was accepted, the same request leaves every tree
/// unchanged and gets the status 200; or 507, and nothing is changed, exactly where the greatest
/// number has been given.
pub fn a_second_put_leaves_every_tree()
    ensures leaves_trees { (root : List ℕ) (c next : StoreContents) (request : Request)
        (reply : SentReply)
        (edit : Option Edit) (m : State) → IsValidState m → Represents c m
        → ContentStep root c request reply next edit
        → RepeatedPutPreservesTrees root request edit next }
{}

/// A law: where contents represent a valid state, a change that the store makes preserves what the
/// document's key addresses select. An address that selected an element selects it where the
/// change moves it, if it still exists and no key on its path is written or removed.
pub fn changes_that_are_made_leave_key_addresses()
    ensures keeps_selected { (c : StoreContents) (m : State) (id : DocId) (change : Change)
        (note : Note) (next : StoreContents) → Represents c m → IsValidState m
        → MayRequest c id change
        → change_result c id change ≡ Ok (note, next) → ChangeKeepsKeyAddresses c id change next }
{}

/// A law: each change that the machine makes of a document that was stored, and still is,
/// preserves what key addresses select. An address that selected an element selects it where the
/// change moves it, if it is still there and no key on the way to it is written or removed.
pub fn key_addresses_keep_their_elements()
    ensures keeps_elements { (root : List ℕ) (c next : StoreContents) (request : Request)
        (reply : SentReply)
        (edit : Option Edit) (m : State) → IsValidState m → Represents c m
        → ContentStep root c request reply next edit → EditKeepsKeyAddresses c edit next }
{}

/// A law: where the address of a request ends in an attribute, the attribute is writable.
pub fn targets_may_be_written()
    ensures writable_target { (root target : List ℕ) (t : Target)
        → IsTargetResult root target (Ok t)
        → IsWritableTarget t }
{}
