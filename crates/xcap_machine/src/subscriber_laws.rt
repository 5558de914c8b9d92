//! Laws of feeds, each the contract of a function that does nothing.
ghost use Rattle.std.specs.Prelude.{◌≡◌, ℕ, true, List, Ok, Option, Some};
ghost use Rattle.doc_names.specs.declared.doc_id.DocId.{DocId};
ghost use Rattle.http_wire.specs.declared.request.Request.{Request};
ghost use Rattle.edit_ops.specs.declared.edit.Edit.{Edit};
ghost use Rattle.reply_text.specs.ReplyHeads.{SentReply};
ghost use Rattle.request_checks.specs.Methods.{method_of};
ghost use Rattle.request_checks.specs.declared.method.Method.TheVariants.{Get};
ghost use Rattle.store_core.specs.DocumentChanges.{find_document, document_id};
ghost use Rattle.store_core.specs.Contents.{Represents, StoreContents};
ghost use Rattle.store_core.specs.ValidStates.{IsValidState};
ghost use Rattle.store_core.specs.State.{Document, State, Version};
ghost use Rattle.xcap_uri.specs.Roots.{is_root_text};
ghost use Rattle.xcap_uri.specs.Targets.{IsTargetResult};
ghost use Rattle.xcap_uri.specs.declared.target.Mode.{Mode};
ghost use Rattle.xcap_uri.specs.declared.target.Target.TheVariants.{Feed};
ghost use Rattle.xcap_machine.specs.Answers.{Answer};
ghost use Rattle.xcap_machine.specs.Machine.{ValidStep};
ghost use Rattle.xcap_machine.specs.Requests.{IsAnswer};
ghost use Rattle.xcap_machine.specs.ReachedStates.{HasVersion, ReachesByValidSteps};
ghost use Rattle.xcap_machine.specs.SubscriberVersions.{UpdatesReplicaBetween};
ghost use Rattle.xcap_machine.specs.SubscriberVersions.{UpdatesAllSubscribers};

use xcap_uri::roots_are_spelled_by_the_grammar;

/// A law: in every valid state, a subscriber with a version of a document that asks for the
/// changes since its tag, and applies the diff document of the reply in a mode that sends changes,
/// then has exactly the document's current version, tag and tree. In `no-patching` the diff
/// document asks for a fetch of the document, unless the version is the current one; where the
/// document is gone, the replica is empty afterwards. Where the answer is 410, no change since the
/// tag is retained.
pub fn subscribers_hold_the_document()
    ensures held_after_answer { (root : List ℕ) (c : StoreContents) (m : State) (request : Request)
        (a : Answer)
        → is_root_text root ≡ true → IsValidState m → Represents c m → IsAnswer root c request a
        → UpdatesAllSubscribers root m request a.reply }
    ensures held_after_step { (root : List ℕ) (m next : State) (request : Request)
        (reply : SentReply)
        (edit : Option Edit) → is_root_text root ≡ true → ValidStep root m request reply next edit
        → UpdatesAllSubscribers root m request reply }
{
    roots_are_spelled_by_the_grammar();
}

/// A law: a tag names one version of a document, whatever the machine does later: where a document
/// has a version with the tag of an earlier one, the two are the same version. (A document that is
/// created anew under its name has other tags.)
pub fn a_tag_means_one_version()
    ensures same_version { (root : List ℕ) (m n : State) (id : DocId) (v w : Version)
        → IsValidState m
        → ReachesByValidSteps root m n → HasVersion m id v → HasVersion n id w → w.tag ≡ v.tag → w
        ≡ v }
{}

/// A law: a subscriber with any version that a document ever had, which asks for the changes since
/// its tag in a mode that sends them, has exactly the document's current version once it has
/// applied the diff document. So it may ask again from there: a subscriber that applies the diff
/// documents in order has the server's document.
pub fn notices_are_applied_in_order()
    ensures from_any_version { (root : List ℕ) (m n after : State) (request : Request)
        (reply : SentReply) (edit : Option Edit) (mode : Mode) (id : DocId) (v : Version)
        (d : Document)
        → is_root_text root ≡ true → IsValidState m → ReachesByValidSteps root m n
        → HasVersion m id v
        → ValidStep root n request reply after edit
        → IsTargetResult root request.target (Ok (Feed mode v.tag id))
        → method_of request.method ≡ Get → reply.status ≡ 200
        → find_document document_id n.documents id ≡ Some d
        → UpdatesReplicaBetween mode id reply.body v d.now }
{
    roots_are_spelled_by_the_grammar();
}
