//! Applying a whole diff document.
ghost use Rattle.std.specs.Prelude.{◌≡◌, ◌<◌, ℕ, [], codes, IfOk, length, map, min, unwrap_or};
ghost use Rattle.std.specs.Prelude.{is_some, if◌then◌else◌, OnOk};
ghost use Rattle.std.specs.Option.{option_copied};
ghost use Rattle.xml_names.specs.ReadErrors.{ResultSatisfies};
ghost use Rattle.xml_tree.specs.declared.scope.TheConstants.{SCOPE_LIMIT};
ghost use Rattle.xml_names.specs.Limits.{u64_max};
ghost use Rattle.patch_rules.specs.PatchOperations.{plain_value};
ghost use Rattle.patch_rules.specs.Replay.{Patched, Removed, are_all_mine, last_new_tag};
ghost use Rattle.patch_rules.specs.Replay.{operation_count};
ghost use Rattle.patch_rules.specs.readers.Replay.{outcome_of_documents, replay_outcome};
ghost use Rattle.patch_rules.specs.readers.Replay.{outcome_of_document};
ghost use Rattle.patch_rules.specs.Replay as words;
ghost use Rattle.patch_laws.specs.ReplayLaws.{HasReplicaTree};
ghost use Rattle.patch_apply.specs.ApplyAnswers.{IsApplyAnswer};
ghost use Rattle.patch_apply.specs.inner.Results.{IsReplayResult, IsDocumentsResult};
ghost use Rattle.patch_apply.specs.declared.document_outcomes.DocumentOutcome.{
  DocumentOutcome as TheTurn,
};
ghost use Rattle.xcap_uri.specs.PrintedNames.{is_name_of};
ghost use Rattle.patch_parse.specs.Operations.{operations_in_scope};
ghost use Rattle.patch_apply.specs.Views.{IsWithinLevels, answer_view, replica_view};
ghost use Rattle.patch_apply.specs.inner.OutcomeViews.{contents_view, outcome_view};

use crate::diff_reader::Notice;
use crate::document_ids::is_name_of;
use crate::document_outcomes::{DocumentDiff, DocumentOutcome, document_outcome, operation_count};
use crate::fault::ApplyFault;
use crate::replica::{Applied, Replica, ReplicaVersion, copy_replica_version};
use doc_names::DocId;
use patch_parse::{documents, new_tag, operations_of_document, plain_value, previous_tag};
use std::alloc::{AllocError, Global};
use xml_names::{ReadError, Text};
use xml_tokens::empty_text;
use xml_tree::{Element, Scope};

// Whether a `document` of a diff document has this name.
#[tactic(auto, using(patch_parse::proofs::Words::words))]
fn is_of_document(alloc: Global, doc: &DocId, document: &Element) -> Result<bool, AllocError>
    ensures ok { IfOk result
        (λ is. is ≡ is_name_of doc.now
        (unwrap_or (plain_value (codes "sel") document.now.attrs) [])) }
{
    match plain_value(document.attrs(), "sel") {
        Some(sel) => is_name_of(alloc, doc, sel),
        None => is_name_of(alloc, doc, &empty_text(alloc)),
    }
}

// Whether each `document` has this name.
fn are_of_document(alloc: Global, doc: &DocId, documents: &[&Element]) -> Result<bool, AllocError>
    ensures ok { IfOk result
        (λ are. are ≡ are_all_mine (is_name_of doc.now) (map (λ x. x.now) documents.now)) }
{
    for document in documents {
        if !is_of_document(alloc, doc, document)? {
            return Ok(false);
        }
    }
    Ok(true)
}

// The new etag of a `document`, or the one given where it has none.
fn later_new_tag<'a>(last: Option<&'a Text>, document: &'a Element) -> Option<&'a Text>
    ensures newer_tag { unwrap_or (option_copied result) []
        ≡ unwrap_or (plain_value (codes "new-etag") document.now.attrs)
        (unwrap_or (option_copied last.entry) []) }
{
    match new_tag(document) {
        None => last,
        Some(tag) => Some(tag),
    }
}

// The last new etag among `document`s.
fn last_new_tag(alloc: Global, documents: &[&Element]) -> Result<Text, AllocError>
    ensures ok { IfOk result (λ tag. tag ≡ last_new_tag [] (map (λ x. x.now) documents.now)) }
{
    let mut last = None;
    for document in documents {
        last = later_new_tag(last, document);
    }
    match last {
        None => Ok(empty_text(alloc)),
        Some(tag) => tag.copy(alloc),
    }
}

// The tags and operations of a `document`, with the scope at it.
fn document_diff_of<'a>(
    alloc: Global,
    scope: &Scope<'_>,
    document: &'a Element,
) -> Result<DocumentDiff<'a>, AllocError>
    requires { length scope.now < SCOPE_LIMIT }
    ensures tag_before_diff { IfOk result
        (λ told. option_copied told.previous
        ≡ plain_value (codes "previous-etag") document.now.attrs) }
    ensures tag_after_diff { IfOk result
        (λ told. option_copied told.new ≡ plain_value (codes "new-etag") document.now.attrs) }
    ensures same_operations { IfOk result
        (λ told. map (λ x. x.now) told.operations.items
        ≡ operations_in_scope scope.now document.now) }
{
    let operations = operations_of_document(alloc, scope, document)?;
    Ok(DocumentDiff {
        previous: previous_tag(document),
        new: new_tag(document),
        operations,
    })
}

// The outcome of a `document` for a replica, and the number of its operations.
fn apply_document(
    alloc: Global,
    before: usize,
    scope: &Scope<'_>,
    document: &Element,
    held: &mut Option<ReplicaVersion>,
) -> Result<(DocumentOutcome, usize), ReadError<ApplyFault>>
    requires room_left { length scope.now < 66 }
    requires height_bounded { IsWithinLevels (replica_view held.old) }
    ensures as_specified { (n : ℕ) → before ≡ min n u64_max
        → ResultSatisfies
        (IsDocumentsResult {X = TheTurn × ℕ} (λ x. outcome_view x.0 (replica_view held.new))
        (outcome_of_document n scope.now document.now (replica_view held.old))) result }
    ensures counts_operations { IfOk result (λ x. x.1 ≡ operation_count scope.now document.now) }
    ensures within_levels { OnOk result (IsWithinLevels (replica_view held.new)) }
{
    let here = scope.with(document.decls());
    let told = document_diff_of(alloc, &here, document)?;
    let count = operation_count(&here, &told.operations);
    let turn = document_outcome(alloc, before, &here, &told, held)?;
    Ok((turn, count))
}

// Applies `document`s one after another: none where one has no operations for its change.
fn outcome_of_documents(
    alloc: Global,
    scope: &Scope<'_>,
    documents: &[&Element],
    held: &mut Option<ReplicaVersion>,
) -> Result<DocumentOutcome, ReadError<ApplyFault>>
    requires room_left { length scope.now < 66 }
    requires height_bounded { IsWithinLevels (replica_view held.old) }
    ensures as_specified { ResultSatisfies
        (IsDocumentsResult (λ outcome. contents_view outcome (replica_view held.new))
        (outcome_of_documents 0 scope.now (map (λ x. x.now) documents.now)
        (replica_view held.old))) result }
    ensures within_levels { OnOk result (IsWithinLevels (replica_view held.new)) }
{
    let mut before = 0usize;
    for document in documents {
        let (made, count) = apply_document(alloc, before, scope, document, held)?;
        match made {
            DocumentOutcome::Missing => return Ok(DocumentOutcome::Missing),
            DocumentOutcome::Updated => {}
        }
        before = before.saturating_add(count);
    }
    Ok(DocumentOutcome::Updated)
}

// The answer where this is the replica afterwards.
fn applied_outcome(held: &Option<ReplicaVersion>) -> Applied
    ensures patched_or_removed { answer_view result
        ≡ (if is_some (replica_view held.now) then Patched else Removed) }
{
    match held {
        None => Applied::Removed,
        Some(_) => Applied::Patched,
    }
}

// Applies the `document`s of a diff document. The replica's tree is copied once, the copy is
// edited in place, operation by operation, and takes the tree's place when all operations
// succeeded.
fn replay_documents(
    alloc: Global,
    replica: &mut Replica,
    notice: &Element,
    documents: &[&Element],
) -> Result<Applied, ReadError<ApplyFault>>
    requires diff_documents { map (λ x. x.now) documents.now ≡ words.documents notice.now }
    requires height_bounded { IsWithinLevels (replica_view replica.old.held) }
    ensures same_document { replica.new.doc ≡ replica.old.doc }
    ensures as_specified { IsReplayResult
        (replay_outcome (is_name_of replica.old.doc) notice.now (replica_view replica.old.held))
        (replica_view replica.old.held) result (replica_view replica.new.held) }
    ensures within_levels { IsWithinLevels (replica_view replica.new.held) }
{
    let mine = are_of_document(alloc, &replica.doc, documents)?;
    if !mine {
        return Err(ReadError::Fault(ApplyFault::WrongDocument));
    }
    if documents.is_empty() {
        return Ok(Applied::Same);
    }
    let mut held = copy_replica_version(alloc, &replica.held)?;
    let scope = Scope::empty().with(notice.decls());
    let outcome = outcome_of_documents(alloc, &scope, documents, &mut held)?;
    match outcome {
        DocumentOutcome::Missing => {
            drop(held);
            let tag = last_new_tag(alloc, documents)?;
            Ok(Applied::Fetch(tag))
        }
        DocumentOutcome::Updated => {
            let answer = applied_outcome(&held);
            replica.held = held;
            Ok(answer)
        }
    }
}

// Applies the diff document that a tree is.
fn replay(
    alloc: Global,
    replica: &mut Replica,
    notice: &Element,
) -> Result<Applied, ReadError<ApplyFault>>
    requires height_bounded { IsWithinLevels (replica_view replica.old.held) }
    ensures same_document { replica.new.doc ≡ replica.old.doc }
    ensures as_specified { IsReplayResult
        (replay_outcome (is_name_of replica.old.doc) notice.now (replica_view replica.old.held))
        (replica_view replica.old.held) result (replica_view replica.new.held) }
    ensures within_levels { IsWithinLevels (replica_view replica.new.held) }
{
    let documents = documents(alloc, notice)?;
    replay_documents(alloc, replica, notice, &documents)
}

/// Applies a diff document to a replica. A proper tree in the replica stays proper, whoever wrote
/// the diff document.
///
/// # Errors
/// The first fault in the order of the diff document: `WrongDocument` where one of its `document`s
/// isn't the replica's, `WrongTag` where one starts from another tag than the replica has then,
/// and what is wrong with an operation, with its number. `NoMemory` when out of memory. The
/// replica is then as it was.
pub fn apply_notice(
    alloc: Global,
    replica: &mut Replica,
    notice: &Notice,
) -> Result<Applied, ReadError<ApplyFault>>
    requires height_bounded { IsWithinLevels (replica_view replica.old.held) }
    ensures same_document { replica.new.doc ≡ replica.old.doc }
    ensures as_specified { IsApplyAnswer (is_name_of replica.old.doc) notice.now
        (replica_view replica.old.held) result (replica_view replica.new.held) }
    ensures within_levels { IsWithinLevels (replica_view replica.new.held) }
    ensures stays_sound { HasReplicaTree (replica_view replica.old.held)
        → HasReplicaTree (replica_view replica.new.held) }
{
    replay(alloc, replica, notice.root())
}
