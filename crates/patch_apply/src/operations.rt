//! Patch operations, one at a time (RFC 5261, section 4).
ghost use Rattle.std.specs.Prelude.{◌≤◌, ◌<◌, length};
ghost use Rattle.xml_names.specs.ReadErrors.{ResultSatisfies};
ghost use Rattle.xml_tree.specs.declared.scope.TheConstants.{SCOPE_LIMIT};
ghost use Rattle.xml_names.specs.declared.limits.TheConstants.{MAX_LEVELS};
ghost use Rattle.xml_tree.specs.Tree.{height};
ghost use Rattle.patch_rules.specs.PatchOperations.{remove_result, replace_result};
ghost use Rattle.patch_rules.specs.PatchOperations.{locate_and_apply};
ghost use Rattle.patch_rules.specs.readers.AppliedOperations.{apply_operation, apply_selected};
ghost use Rattle.patch_rules.specs.PatchOperations as words;
ghost use Rattle.patch_apply.specs.inner.Results.{IsEditResult};
ghost use Rattle.patch_apply.specs.inner.LocationViews.{IsSameLocation, LocationExists};
ghost use Rattle.patch_parse.specs.Views.{action_view};

use crate::attributes::{add_attr, remove_attr, remove_text, replace_attr, replace_text};
use crate::elements::{put_content, remove_element, replace_element};
use crate::locations::{Location, locate};
use node_select::PatchSelector;
use patch_parse::{
    OperationError, PatchAction, are_known_attributes, plain_value, read_patch_action, selector_for,
};
use std::alloc::Global;
use xml_names::{ReadError, Text};
use xml_tree::{Element, Scope};

// Replaces the element, attribute or text at a location.
fn replace_at_location(
    alloc: Global,
    here: &Scope<'_>,
    location: Location,
    operation: &Element,
    tree: &mut Element,
) -> Result<(), ReadError<OperationError>>
    requires place_exists { LocationExists tree.old location }
    requires height_bounded { height tree.old ≤ MAX_LEVELS }
    ensures as_specified { (w : words.Location) → IsSameLocation tree.old location w
        → ResultSatisfies
        (IsEditResult (replace_result here.now w operation.now.content tree.old) tree.new)
        result }
{
    match location {
        Location::AtElement(path) => replace_element(alloc, here, &path, operation, tree),
        Location::AtAttr(path, place) => replace_attr(alloc, &path, place, operation, tree),
        Location::AtText(path, place) => replace_text(alloc, &path, place, operation, tree),
    }
}

// Removes the element, attribute or text at a location.
fn remove_at_location(
    alloc: Global,
    before: bool,
    after: bool,
    location: Location,
    operation: &Element,
    tree: &mut Element,
) -> Result<(), ReadError<OperationError>>
    requires place_exists { LocationExists tree.old location }
    requires height_bounded { height tree.old ≤ MAX_LEVELS }
    ensures as_specified { (w : words.Location) → IsSameLocation tree.old location w
        → ResultSatisfies
        (IsEditResult (remove_result before after w operation.now.content tree.old) tree.new)
        result }
{
    match location {
        Location::AtElement(path) => remove_element(alloc, before, after, &path, operation, tree),
        Location::AtAttr(path, place) => remove_attr(&path, place, operation, tree),
        Location::AtText(path, place) => remove_text(alloc, &path, place, operation, tree),
    }
}

// Carries out a patch action at a location.
fn apply_action(
    alloc: Global,
    here: &Scope<'_>,
    task: PatchAction,
    location: Location,
    operation: &Element,
    tree: &mut Element,
) -> Result<(), ReadError<OperationError>>
    requires place_exists { LocationExists tree.old location }
    requires height_bounded { height tree.old ≤ MAX_LEVELS }
    ensures as_specified { (w : words.Location) → IsSameLocation tree.old location w
        → ResultSatisfies
        (IsEditResult
        (words.apply_action here.now (action_view task) w operation.now.content tree.old)
        tree.new)
        result }
{
    match task {
        PatchAction::Put(position) => {
            put_content(alloc, here, position, location.into_path(), operation, tree)
        }
        PatchAction::NewAttr(name) => add_attr(
            alloc,
            here,
            name,
            &location.into_path(),
            operation,
            tree,
        ),
        PatchAction::Replace => replace_at_location(alloc, here, location, operation, tree),
        PatchAction::Remove(before, after) => remove_at_location(
            alloc, before, after, location, operation, tree,
        ),
    }
}

// Carries out a patch action at the location that a selector selects.
fn locate_and_apply(
    alloc: Global,
    here: &Scope<'_>,
    task: PatchAction,
    selector: &PatchSelector,
    operation: &Element,
    tree: &mut Element,
) -> Result<(), ReadError<OperationError>>
    requires height_bounded { height tree.old ≤ MAX_LEVELS }
    ensures as_specified { ResultSatisfies
        (IsEditResult
        (locate_and_apply here.now (action_view task) selector.now operation.now.content tree.old)
        tree.new)
        result }
{
    let Some(location) = locate(alloc, selector, tree) else {
        return Err(ReadError::Fault(OperationError::Unlocated));
    };
    apply_action(alloc, here, task, location, operation, tree)
}

// Applies an operation that has a selector and whose attributes are known.
fn apply_selected(
    alloc: Global,
    here: &Scope<'_>,
    sel: &Text,
    operation: &Element,
    tree: &mut Element,
) -> Result<(), ReadError<OperationError>>
    requires height_bounded { height tree.old ≤ MAX_LEVELS }
    ensures as_specified { ResultSatisfies
        (IsEditResult (apply_selected here.now sel.now operation.now tree.old) tree.new) result }
{
    let meant = read_patch_action(alloc, operation.name(), operation.attrs())?;
    let Some(task) = meant else {
        return Err(ReadError::Fault(OperationError::Directive));
    };
    match selector_for(alloc, here, sel, &task) {
        Err(error) => Err(error),
        Ok(selector) => locate_and_apply(alloc, here, task, &selector, operation, tree),
    }
}

/// Applies an operation, in a scope, to a tree.
#[tactic(auto, using(patch_parse::proofs::Words::words))]
pub(crate) fn apply_operation(
    alloc: Global,
    scope: &Scope<'_>,
    operation: &Element,
    tree: &mut Element,
) -> Result<(), ReadError<OperationError>>
    requires room_left { length scope.now < SCOPE_LIMIT }
    requires height_bounded { height tree.old ≤ MAX_LEVELS }
    ensures as_specified { ResultSatisfies
        (IsEditResult (apply_operation scope.now operation.now tree.old) tree.new) result }
{
    let attrs = operation.attrs();
    let Some(sel) = plain_value(attrs, "sel") else {
        return Err(ReadError::Fault(OperationError::Directive));
    };
    if !are_known_attributes(attrs) {
        return Err(ReadError::Fault(OperationError::Directive));
    }
    let here = scope.with(operation.decls());
    apply_selected(alloc, &here, sel, operation, tree)
}
