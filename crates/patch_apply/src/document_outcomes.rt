//! The outcome of one `document` of a diff document.
ghost use Rattle.std.specs.Prelude.{◌≡◌, ◌≤◌, ◌<◌, ℕ, suc, min, map, length, Some, Result, Err};
ghost use Rattle.std.specs.Prelude.{OnOk, false, bytes_eq};
ghost use Rattle.std.specs.Option.{option_copied, option_map_or};
ghost use Rattle.xml_names.specs.ReadErrors.{ResultSatisfies};
ghost use Rattle.xml_tree.specs.declared.scope.TheConstants.{SCOPE_LIMIT};
ghost use Rattle.xml_names.specs.Limits.{u64_max};
ghost use Rattle.xml_names.specs.declared.limits.TheConstants.{MAX_LEVELS};
ghost use Rattle.xml_tree.specs.Tree.{Tree, height};
ghost use Rattle.patch_rules.specs.PatchOperations as words;
ghost use Rattle.patch_rules.specs.Replay.{WrongTag, replica_tag, with_operation_number};
ghost use Rattle.patch_rules.specs.readers.Replay.{apply_operations, outcome_by_previous_tag};
ghost use Rattle.patch_rules.specs.readers.Replay.{change_outcome};
ghost use Rattle.patch_rules.specs.readers.Replay.{renewed_contents};
ghost use Rattle.patch_apply.specs.inner.Results.{IsDocumentsResult, IsEditResult};
ghost use Rattle.patch_apply.specs.Views.{IsWithinLevels, replica_view, version_view};
ghost use Rattle.patch_apply.specs.inner.OutcomeViews.{counted_operations, outcome_view};

use crate::fault::{ApplyFault, fault_of_operation};
use crate::operations::apply_operation;
use crate::replica::ReplicaVersion;
use patch_parse::{OperationError, is_body_unchanged};
use std::alloc::Global;
use xml_names::{ReadError, Text};
use xml_tree::{Element, Scope};

/// What a `document` makes of a replica.
#[derive(Drop)]
pub enum DocumentOutcome {
    /// The replica is updated, and empty where the document is gone.
    Updated,
    /// The document changed, and the operations aren't there.
    Missing,
}

/// A `document` of a diff document: its tags, and its operations in the scope at it.
#[derive(Drop)]
pub struct DocumentDiff<'a> {
    pub previous: Option<&'a Text>,
    pub new: Option<&'a Text>,
    pub operations: Vec<&'a Element>,
}

// ---- operations

// The fault of the operation of a number.
fn numbered_error(error: ReadError<OperationError>, number: usize) -> ReadError<ApplyFault>
    ensures numbered_fault { (n : ℕ) (stated : Result Tree words.OperationError) (new : Tree)
        → number ≡ min (suc n) u64_max → ResultSatisfies (IsEditResult stated new) (Err error)
        → ResultSatisfies (IsDocumentsResult {X = Tree} (λ t. t) (with_operation_number n stated))
        (Err result) }
{
    match error {
        ReadError::Fault(wrong) => ReadError::Fault(fault_of_operation(wrong, number)),
        ReadError::NoMemory => ReadError::NoMemory,
    }
}

// Applies operations, one after another, to a tree; `before` operations of the diff document come
// before them.
fn apply_operations(
    alloc: Global,
    before: usize,
    scope: &Scope<'_>,
    operations: &[&Element],
    tree: &mut Element,
) -> Result<(), ReadError<ApplyFault>>
    requires room_left { length scope.now < SCOPE_LIMIT }
    requires height_bounded { height tree.old ≤ MAX_LEVELS }
    ensures as_specified { (n : ℕ) → before ≡ min n u64_max
        → ResultSatisfies (IsDocumentsResult (λ _. tree.new)
        (apply_operations n scope.now (map (λ x. x.now) operations.now) tree.old)) result }
    ensures within_levels { OnOk result (height tree.new ≤ MAX_LEVELS) }
{
    let mut number = before;
    for operation in operations {
        number = number.saturating_add(1);
        match apply_operation(alloc, scope, operation, tree) {
            Ok(()) => {}
            Err(error) => return Err(numbered_error(error, number)),
        }
    }
    Ok(())
}

// ---- tags

// Whether a tag is the replica's.
fn is_replica_tag(wanted: &Text, held: &Option<ReplicaVersion>) -> bool
    ensures exact { result
        ≡ option_map_or (bytes_eq wanted.now) (replica_tag (replica_view held.now)) false }
{
    match held {
        None => false,
        Some(held) => *wanted == held.tag,
    }
}

// The fault that the replica has another tag, or none.
fn wrong_tag(alloc: Global, held: &Option<ReplicaVersion>, wanted: &Text) -> ReadError<ApplyFault>
    ensures both_tags { ResultSatisfies
        (IsDocumentsResult {X = ℕ} {Y = ℕ} (λ x. x)
        (Err (WrongTag (replica_tag (replica_view held.now)) wanted.now))) (Err result) }
{
    let wanted = match wanted.copy(alloc) {
        Ok(wanted) => wanted,
        Err(_) => return ReadError::NoMemory,
    };
    match held {
        None => ReadError::Fault(ApplyFault::WrongTag { held: None, wanted }),
        Some(held) => match held.tag.copy(alloc) {
            Ok(tag) => ReadError::Fault(ApplyFault::WrongTag {
                held: Some(tag),
                wanted,
            }),
            Err(_) => ReadError::NoMemory,
        },
    }
}

// ---- the document

// The outcome for a version, with a new tag.
fn change_outcome(
    alloc: Global,
    before: usize,
    scope: &Scope<'_>,
    operations: &[&Element],
    tag: &Text,
    held: &mut ReplicaVersion,
) -> Result<DocumentOutcome, ReadError<ApplyFault>>
    requires room_left { length scope.now < SCOPE_LIMIT }
    requires height_bounded { height held.old.root ≤ MAX_LEVELS }
    ensures as_specified { (n : ℕ) → before ≡ min n u64_max
        → ResultSatisfies
        (IsDocumentsResult (λ outcome. outcome_view outcome (Some (version_view held.new)))
        (change_outcome n scope.now (map (λ x. x.now) operations.now) tag.now
        (Some (version_view held.old)))) result }
    ensures within_levels { OnOk result (height held.new.root ≤ MAX_LEVELS) }
{
    if operations.is_empty() {
        return Ok(DocumentOutcome::Missing);
    }
    held.tag = tag.copy(alloc)?;
    if is_body_unchanged(scope, operations) {
        return Ok(DocumentOutcome::Updated);
    }
    apply_operations(alloc, before, scope, operations, &mut held.root)?;
    Ok(DocumentOutcome::Updated)
}

// The outcome of a `document` whose previous tag is the replica's.
fn update_outcome(
    alloc: Global,
    before: usize,
    scope: &Scope<'_>,
    operations: &[&Element],
    tag: Option<&Text>,
    held: &mut Option<ReplicaVersion>,
) -> Result<DocumentOutcome, ReadError<ApplyFault>>
    requires room_left { length scope.now < SCOPE_LIMIT }
    requires height_bounded { IsWithinLevels (replica_view held.old) }
    ensures as_specified { (n : ℕ) → before ≡ min n u64_max
        → ResultSatisfies
        (IsDocumentsResult (λ outcome. outcome_view outcome (replica_view held.new))
        (renewed_contents n scope.now (map (λ x. x.now) operations.now) (option_copied tag.entry)
        (replica_view held.old))) result }
    ensures within_levels { OnOk result (IsWithinLevels (replica_view held.new)) }
{
    let Some(tag) = tag else {
        *held = None;
        return Ok(DocumentOutcome::Updated);
    };
    match held {
        None => Ok(DocumentOutcome::Missing),
        Some(held) => change_outcome(alloc, before, scope, operations, tag, held),
    }
}

/// The outcome of a `document` for a replica, where `before` operations of the diff document come
/// before its own.
pub(crate) fn document_outcome(
    alloc: Global,
    before: usize,
    scope: &Scope<'_>,
    told: &DocumentDiff<'_>,
    held: &mut Option<ReplicaVersion>,
) -> Result<DocumentOutcome, ReadError<ApplyFault>>
    requires room_left { length scope.now < SCOPE_LIMIT }
    requires height_bounded { IsWithinLevels (replica_view held.old) }
    ensures as_specified { (n : ℕ) → before ≡ min n u64_max
        → ResultSatisfies
        (IsDocumentsResult (λ outcome. outcome_view outcome (replica_view held.new))
        (outcome_by_previous_tag n scope.now (map (λ x. x.now) told.now.operations.items)
        (option_copied told.now.previous) (option_copied told.now.new) (replica_view held.old)))
        result }
    ensures within_levels { OnOk result (IsWithinLevels (replica_view held.new)) }
{
    let Some(previous) = told.previous else {
        return Ok(DocumentOutcome::Missing);
    };
    if !is_replica_tag(previous, held) {
        return Err(wrong_tag(alloc, held, previous));
    }
    update_outcome(alloc, before, scope, &told.operations, told.new, held)
}

/// The number of operations, where `body-not-changed` is none.
pub(crate) fn operation_count(scope: &Scope<'_>, operations: &[&Element]) -> usize
    requires { length scope.now < SCOPE_LIMIT }
    ensures exact { result ≡ counted_operations scope.now (map (λ x. x.now) operations.now) }
{
    if is_body_unchanged(scope, operations) {
        return 0;
    }
    operations.len()
}
