//! Laws of entity tags, each the contract of a function that does nothing.
ghost use Rattle.std.specs.Prelude.{◌≡◌, ℕ, ◌+◌, ◌<◌, List, [], ◌∷◌, Option, Some};
ghost use Rattle.doc_names.specs.declared.doc_id.DocId.{DocId};
ghost use Rattle.edit_ops.specs.declared.edit.Edit.{Edit};
ghost use Rattle.http_wire.specs.declared.request.Request.{Request};
ghost use Rattle.reply_text.specs.ReplyHeads.{SentReply};
ghost use Rattle.request_checks.specs.Fields.{Star, Tags};
ghost use Rattle.request_checks.specs.declared.entity_tags.EntityTag.{EntityTag};
ghost use Rattle.store_core.specs.Contents.{StoreContents};
ghost use Rattle.store_core.specs.State.{State, Version};
ghost use Rattle.xcap_laws.specs.EntityTags.{ChangesTaggedVersion, HasTagBelow, HasIfMatch};
ghost use Rattle.xcap_laws.specs.EntityTags.{HasIfNoneMatch};
ghost use Rattle.xcap_laws.specs.EntityTags.{IsPresentVersion, IsStrongTagOf};
ghost use Rattle.xcap_machine.specs.StepOutcomes.{ChangesNothing};
ghost use Rattle.xcap_machine.specs.Machine.{ContentStep, Step, ValidStep};
ghost use Rattle.xcap_machine.specs.ReachedStates.{ReachesByValidSteps, HasVersion};

/// A law: each change gets the next number as its tag, and uses it up. So its tag is greater than
/// the tag of each version that any document had before in the run, of each earlier change, and of
/// each earlier reply.
pub fn tags_are_fresh()
    ensures number_is_tag { (root : List ℕ) (m next : State) (request : Request)
        (reply : SentReply) (e : Edit) → Step root m request reply next (Some e)
        → (e.note.next ≡ m.next) × (next.next ≡ m.next + 1) }
    ensures above_versions { (root : List ℕ) (m n next : State) (id : DocId) (v : Version)
        (request : Request) (reply : SentReply) (e : Edit) → HasVersion m id v
        → ReachesByValidSteps root m n
        → ValidStep root n request reply next (Some e) → v.tag < e.note.next }
    ensures above_changes { (root : List ℕ) (m n later last : State) (first second : Request)
        (reply answer : SentReply) (earlier e : Edit)
        → ValidStep root m first reply n (Some earlier) → ReachesByValidSteps root n later
        → ValidStep root later second answer last (Some e) → earlier.note.next < e.note.next }
    ensures above_replies { (root : List ℕ) (m n later last : State) (first second : Request)
        (reply answer : SentReply) (edit : Option Edit) (e : Edit)
        → ValidStep root m first reply n edit → ReachesByValidSteps root n later
        → ValidStep root later second answer last (Some e) → HasTagBelow reply e.note.next }
{}

/// A law: what a request with `If-Match` and a list of tags changes is a stored version whose tag
/// is in the list. With one tag it is the very version that a client with this tag has, however
/// long ago it got it; and of all such requests with one tag in a run, for any documents, at most
/// one makes a change. With `If-None-Match: *` a request only creates.
pub fn no_lost_update()
    ensures changes_named { (root : List ℕ) (c next : StoreContents) (request : Request)
        (reply : SentReply) (e : Edit) (tags : List EntityTag)
        → ContentStep root c request reply next (Some e) → HasIfMatch request (Tags tags)
        → ChangesTaggedVersion c e tags }
    ensures changes_seen { (root : List ℕ) (m n next : State) (v : Version) (request : Request)
        (reply : SentReply) (e : Edit) (tag : EntityTag) → HasVersion m e.doc v
        → ReachesByValidSteps root m n
        → ValidStep root n request reply next (Some e) → HasIfMatch request (Tags (tag ∷ []))
        → IsStrongTagOf tag v.tag → IsPresentVersion n e v }
    ensures one_of_two { (root : List ℕ) (m n later last : State) (first second : Request)
        (reply answer : SentReply) (earlier : Edit) (edit : Option Edit) (tag : EntityTag)
        → ValidStep root m first reply n (Some earlier) → ReachesByValidSteps root n later
        → ValidStep root later second answer last edit → HasIfMatch first (Tags (tag ∷ []))
        → HasIfMatch second (Tags (tag ∷ [])) → ChangesNothing later last edit }
    ensures creates_only { (root : List ℕ) (c next : StoreContents) (request : Request)
        (reply : SentReply) (e : Edit) → ContentStep root c request reply next (Some e)
        → HasIfNoneMatch request Star → reply.status ≡ 201 }
{}
