//! Laws of retained versions, each the contract of a function that does nothing.
ghost use Rattle.std.specs.Prelude.{◌≡◌, ℕ, true, decimal, List, Some, None};
ghost use Rattle.xml_tree.specs.Tree.{Tree};
ghost use Rattle.doc_names.specs.DocIds.{id_text};
ghost use Rattle.doc_names.specs.declared.doc_id.DocId.{DocId};
ghost use Rattle.xcap_uri.specs.PrintedNames.{is_encodable};
ghost use Rattle.xcap_uri.specs.Roots.{is_root_text};
ghost use Rattle.edit_ops.specs.Notes.{Note};
ghost use Rattle.patch_rules.specs.Notices.{aggregate_notice, gone_notice, patching_notice};
ghost use Rattle.patch_rules.specs.Notices.{tags_notice};
ghost use Rattle.patch_rules.specs.Replay.{Removed};
ghost use Rattle.store_core.specs.Contents.{Represents, StoreContents};
ghost use Rattle.store_core.specs.ValidStates.{IsValidState};
ghost use Rattle.store_core.specs.Since.{ReportedChanges, since};
ghost use Rattle.store_core.specs.State.{Document, State, Version};
ghost use Rattle.xcap_machine.specs.SubscriberReplicas.{DiffUpdatesReplica, ReportsSince};
ghost use Rattle.xcap_machine.specs.SubscriberReplicas.{VersionNotes};
ghost use Rattle.xcap_machine.specs.SubscriberReplicas.{patch_answer_between};
ghost use Rattle.xcap_machine.specs.SubscriberReplicas.{fetch_answer_between, replica_of_version};

use xcap_uri::roots_are_spelled_by_the_grammar;

/// A law: where store contents represent a valid state and have the change records since a tag,
/// the document has a version with this tag.
pub fn notes_are_told_since_a_version()
    ensures version_exists { (c : StoreContents) (m : State) (id : DocId) (tag : ℕ) (ns : List Note)
        → IsValidState m → Represents c m → since c id tag ≡ ReportedChanges ns
        → (d : Document) × (from : Version) × (from.tag ≡ tag)
        × ReportsSince c m (record { id = id; document = d; from = from; notes = ns }) }
{}

/// A law: where the store has the change records since a version of a document, a subscriber with
/// that version that applies the diff document of these records, in `xcap-patching` or
/// `aggregate`, then has exactly the document's current version. In `no-patching` the diff
/// document asks for a fetch, unless the subscriber's version is the current one. Each diff
/// document's text is read back as the same tree (RFC 5875, section 4.3).
pub fn versions_are_replayed()
    ensures step_by_step { (c : StoreContents) (m : State) (v : VersionNotes) (root : List ℕ)
        → ReportsSince c m v → is_root_text root ≡ true → is_encodable v.id ≡ true
        → DiffUpdatesReplica v.id (patching_notice root (id_text v.id) v.from.tag v.notes)
        (replica_of_version v.from)
        (patch_answer_between v.from v.document.now) (replica_of_version v.document.now) }
    ensures aggregated { (c : StoreContents) (m : State) (v : VersionNotes) (root : List ℕ)
        → ReportsSince c m v → is_root_text root ≡ true → is_encodable v.id ≡ true
        → DiffUpdatesReplica v.id (aggregate_notice root (id_text v.id) v.from.tag v.notes)
        (replica_of_version v.from)
        (patch_answer_between v.from v.document.now) (replica_of_version v.document.now) }
    ensures tags_alone { (c : StoreContents) (m : State) (v : VersionNotes) (root : List ℕ)
        → ReportsSince c m v → is_root_text root ≡ true → is_encodable v.id ≡ true
        → DiffUpdatesReplica v.id (tags_notice root (id_text v.id) v.from.tag v.notes)
        (replica_of_version v.from)
        (fetch_answer_between v.from v.document.now) (replica_of_version v.from) }
{
    roots_are_spelled_by_the_grammar();
}

/// A law: a subscriber with a version of a document that is gone, which applies the diff document
/// that says so, has an empty replica.
pub fn removed_documents_are_dropped()
    ensures gone_is_dropped { (id : DocId) (tag : ℕ) (t : Tree) (root : List ℕ)
        → is_root_text root ≡ true → is_encodable id ≡ true
        → DiffUpdatesReplica id (gone_notice root (id_text id) tag) (Some (decimal tag, t)) Removed
        None }
{
    roots_are_spelled_by_the_grammar();
}
