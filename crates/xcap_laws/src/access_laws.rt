//! Laws of access, each the contract of a function that does nothing.
ghost use Rattle.std.specs.Prelude.{◌≡◌, ℕ, true, List, Option, Ok};
ghost use Rattle.doc_names.specs.declared.doc_id.Home.TheVariants.{User};
ghost use Rattle.edit_ops.specs.declared.edit.Edit.{Edit};
ghost use Rattle.http_wire.specs.declared.request.Request.{Request};
ghost use Rattle.reply_text.specs.ReplyHeads.{SentReply};
ghost use Rattle.request_checks.specs.Methods.{is_reading, method_of};
ghost use Rattle.store_core.specs.Contents.{StoreContents};
ghost use Rattle.store_core.specs.DocumentChanges.{document_id, stored_id};
ghost use Rattle.store_core.specs.State.{State};
ghost use Rattle.xcap_uri.specs.Targets.{IsTargetResult};
ghost use Rattle.xcap_uri.specs.declared.target.Target.{Target};
ghost use Rattle.xcap_machine.specs.Answers.{Answer, reply_only};
ghost use Rattle.xcap_machine.specs.StepOutcomes.{ChangesNothing};
ghost use Rattle.xcap_machine.specs.Machine.{ContentStep, Step};
ghost use Rattle.xcap_machine.specs.Requests.{IsAnswer};
ghost use Rattle.xcap_machine.specs.StandardRequests.{home_of};
ghost use Rattle.xcap_laws.specs.HomeAccess.{AgreesUnderHome, ChangesOwnHome, IsFromNoOtherUser};
ghost use Rattle.xcap_laws.specs.HomeAccess.{AgreesOnGlobal, IsForbiddenRequest, forbidden_reply};

/// A law: a request that its user isn't allowed to make gets an answer that its target alone
/// decides, the same whatever is stored; and its step changes nothing (RFC 4825, section 5.7).
pub fn strangers_learn_nothing()
    ensures answer_is_fixed { (root : List ℕ) (c : StoreContents) (request : Request)
        (target : Target) (a : Answer) → IsForbiddenRequest root request target
        → IsAnswer root c request a → a ≡ reply_only (forbidden_reply target request) }
    ensures same_answer { (root : List ℕ) (c d : StoreContents) (request : Request)
        (target : Target) (a b : Answer) → IsForbiddenRequest root request target
        → IsAnswer root c request a → IsAnswer root d request b → a ≡ b }
    ensures changes_nothing { (root : List ℕ) (m next : State) (request : Request)
        (target : Target) (reply : SentReply) (edit : Option Edit)
        → IsForbiddenRequest root request target → Step root m request reply next edit
        → ChangesNothing m next edit }
{}

/// A law: a request changes at most a document under the home of the user who makes it: all
/// documents that aren't under that home are unchanged, with their versions, tags and change
/// records (RFC 4825, section 5.7). Only the next number is common to all homes.
pub fn users_change_their_own_home()
    ensures own_home { (root : List ℕ) (c next : StoreContents) (request : Request)
        (reply : SentReply) (edit : Option Edit) → ContentStep root c request reply next edit
        → ChangesOwnHome stored_id request edit c.documents next.documents }
    ensures own_versions { (root : List ℕ) (m next : State) (request : Request)
        (reply : SentReply) (edit : Option Edit) → Step root m request reply next edit
        → ChangesOwnHome document_id request edit m.documents next.documents }
{}

/// A law: the answer to a request that reads depends on the home of its target alone: it is the
/// same on any two store contents that don't differ under that home. Whatever the address, what a
/// user is answered depends on the user's own home and on what is global alone: other users'
/// documents show in the index of services and its tag alone.
pub fn users_read_their_own_home()
    ensures same_answer { (root : List ℕ) (c d : StoreContents) (request : Request)
        (target : Target) (a b : Answer) → IsTargetResult root request.target (Ok target)
        → is_reading (method_of request.method) ≡ true → AgreesUnderHome (home_of target) c d
        → IsAnswer root c request a → IsAnswer root d request b → a ≡ b }
    ensures own_or_global { (root : List ℕ) (c d : StoreContents) (request : Request)
        (xui : List ℕ) (a b : Answer) → IsFromNoOtherUser xui request
        → is_reading (method_of request.method) ≡ true → AgreesUnderHome (User xui) c d
        → AgreesOnGlobal c d → IsAnswer root c request a → IsAnswer root d request b → a ≡ b }
{}
