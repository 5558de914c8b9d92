//! Laws of the machine's changes, each the contract of a function that does nothing.
ghost use Rattle.std.specs.Prelude.{◌≡◌, List, ℕ, Some, Ok, option_map};
ghost use Rattle.http_wire.specs.declared.request.Request.{Request};
ghost use Rattle.edit_ops.specs.Changes.{edited};
ghost use Rattle.edit_ops.specs.MovedPaths.{KeepsOtherElements};
ghost use Rattle.edit_ops.specs.declared.edit.Edit.{Edit};
ghost use Rattle.reply_text.specs.ReplyHeads.{SentReply};
ghost use Rattle.store_core.specs.Contents.{Represents, StoredDocument, StoreContents};
ghost use Rattle.store_core.specs.DocumentChanges.{find_document, document_id, stored_id};
ghost use Rattle.store_core.specs.DocumentChanges.{without_document};
ghost use Rattle.store_core.specs.State.{State};
ghost use Rattle.store_core.specs.ValidStates.{IsValidState};
ghost use Rattle.xcap_uri.specs.Targets.{IsTargetResult};
ghost use Rattle.xcap_uri.specs.declared.target.Target.{Target};
ghost use Rattle.xcap_laws.specs.AddressedDocuments.{IsAddressedChange, IsTargetIn};
ghost use Rattle.xcap_laws.specs.UnchangedAncestors.{KeepsAncestors};
ghost use Rattle.xcap_machine.specs.Machine.{ContentStep, Step};

/// A law: a step changes no document but the one that its address leads into, and in that one
/// what the address selects, or would select: the change is of the whole document, or made at the
/// element or attribute that the selector leads to. All other documents are unchanged, with all
/// their versions and change records, in their order. Where the document was stored and still is,
/// its tree is the one before with that change; each element that the change isn't at or inside,
/// and that still exists, is unchanged, at its place moved by the insertion or the removal alone;
/// and the elements around it keep their names, declarations, attributes, texts and other child
/// elements (RFC 4825, sections 8.2.3, 8.2.4 and 8.4).
pub fn only_the_addressed_changes()
    ensures addressed_change { (root : List ℕ) (c next : StoreContents) (request : Request)
        (reply : SentReply) (e : Edit) → ContentStep root c request reply next (Some e)
        → (target : Target) × IsTargetResult root request.target (Ok target)
        × IsTargetIn e.doc target
        × IsAddressedChange (option_map (λ (d : StoredDocument). d.tree)
        (find_document stored_id c.documents e.doc)) target e.note.change }
    ensures other_documents { (root : List ℕ) (m next : State) (request : Request)
        (reply : SentReply) (e : Edit) → Step root m request reply next (Some e)
        → without_document document_id next.documents e.doc
        ≡ without_document document_id m.documents e.doc }
    ensures changed_tree { (root : List ℕ) (c next : StoreContents) (request : Request)
        (reply : SentReply) (e : Edit) (m : State) → IsValidState m → Represents c m
        → ContentStep root c request reply next (Some e) → (before after : StoredDocument)
        → find_document stored_id c.documents e.doc ≡ Some before
        → find_document stored_id next.documents e.doc ≡ Some after
        → after.tree ≡ edited before.tree e.note.change }
    ensures other_elements { (root : List ℕ) (c next : StoreContents) (request : Request)
        (reply : SentReply) (e : Edit) (m : State) → IsValidState m → Represents c m
        → ContentStep root c request reply next (Some e) → (before after : StoredDocument)
        → find_document stored_id c.documents e.doc ≡ Some before
        → find_document stored_id next.documents e.doc ≡ Some after
        → KeepsOtherElements before.tree e.note.change after.tree }
    ensures elements_around { (root : List ℕ) (c next : StoreContents) (request : Request)
        (reply : SentReply) (e : Edit) (m : State) → IsValidState m → Represents c m
        → ContentStep root c request reply next (Some e) → (before after : StoredDocument)
        → find_document stored_id c.documents e.doc ≡ Some before
        → find_document stored_id next.documents e.doc ≡ Some after
        → KeepsAncestors before.tree e.note.change after.tree }
{}
