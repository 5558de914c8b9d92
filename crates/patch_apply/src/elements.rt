//! Edits of elements by operations, in place.
ghost use Rattle.std.specs.Prelude.{◌≡◌, ◌≤◌, ◌<◌, ◌+◌, ◌-◌, suc, true, not, ◌||◌, length};
ghost use Rattle.std.specs.Prelude.{slice_get, is_some, IsSome, IsSomeAnd, OnOk, if◌then◌else◌};
ghost use Rattle.xml_names.specs.ReadErrors.{ResultSatisfies};
ghost use Rattle.xml_names.specs.declared.limits.TheConstants.{MAX_LEVELS};
ghost use Rattle.xml_tree.specs.Nodes.{nodes_of};
ghost use Rattle.xml_tree.specs.Tree.{at, height};
ghost use Rattle.patch_rules.specs.PatchOperations.{cut_nodes, is_space_at, nodes_at, put_result};
ghost use Rattle.patch_rules.specs.PatchOperations.{remove_result, replace_result};
ghost use Rattle.patch_rules.specs.PatchOperations.{has_space_before};
ghost use Rattle.patch_rules.specs.PatchOperations as spots;
ghost use Rattle.patch_apply.specs.inner.Results.{IsEditResult};
ghost use Rattle.patch_apply.specs.inner.ActionResults.{insert_result, has_space_beside};
ghost use Rattle.patch_parse.specs.Views.{position_view};

use crate::edits::{
    InsertPosition, element_fits_depth, exchange_nodes_at, insertion_place, is_below_root,
    is_not_beside_root, names_agree_around, names_agree_at, nodes_fit_depth, number_after,
    place_in_parent,
};
use crate::nodes::{is_space_at, is_space_before};
use patch_parse::{OperationError, Position, has_only_comments, sole_element};
use std::alloc::{AllocError, Global};
use xml_names::ReadError;
use xml_tree::{Element, Node, Path, Scope, copy_nodes, copy_tree, element_at};

// Whether an element has nodes.
fn has_nodes(element: &Element) -> bool
    ensures exact { result ≡ is_some (slice_get (nodes_of element.now.content) 0) }
{
    match element.nodes() {
        [] => false,
        _ => true,
    }
}

/// Puts the content of an operation at a position of the element at a path.
pub(crate) fn put_content(
    alloc: Global,
    here: &Scope<'_>,
    position: Position,
    path: Path,
    operation: &Element,
    tree: &mut Element,
) -> Result<(), ReadError<OperationError>>
    requires place_exists { IsSome (at path tree.old) }
    requires height_bounded { height tree.old ≤ MAX_LEVELS }
    ensures as_specified { ResultSatisfies
        (IsEditResult
        (put_result here.now (position_view position) path operation.now.content tree.old)
        tree.new) result }
{
    if !is_not_beside_root(position, &path) {
        return Err(ReadError::Fault(OperationError::RootTouched));
    }
    if !has_nodes(operation) {
        return Err(ReadError::Fault(OperationError::WrongNodes));
    }
    let gap = insertion_place(position, tree, path);
    insert_content(alloc, here, &gap, operation, tree)
}

// Puts the content of an operation at a place, where it isn't too deep and its names mean the same
// there.
fn insert_content(
    alloc: Global,
    here: &Scope<'_>,
    gap: &InsertPosition,
    operation: &Element,
    tree: &mut Element,
) -> Result<(), ReadError<OperationError>>
    requires within { IsSomeAnd (at gap.now.path tree.old)
        (λ e. gap.now.place ≤ length (nodes_of e.content)) }
    requires height_bounded { height tree.old ≤ MAX_LEVELS }
    ensures as_specified { ResultSatisfies
        (IsEditResult
        (insert_result here.now gap.now.path gap.now.place operation.now.content tree.old)
        tree.new) result }
{
    let nodes = operation.nodes();
    if !nodes_fit_depth(&gap.path, nodes) {
        return Err(ReadError::Fault(OperationError::WrongNodes));
    }
    if !names_agree_at(alloc, here, tree, &gap.path, operation) {
        return Err(ReadError::Fault(OperationError::Prefix));
    }
    let copies = copy_nodes(alloc, nodes)?;
    exchange_nodes_at(tree, &gap.path, gap.place, gap.place, copies)?;
    Ok(())
}

/// Replaces the element at a path.
pub(crate) fn replace_element(
    alloc: Global,
    here: &Scope<'_>,
    path: &Path,
    operation: &Element,
    tree: &mut Element,
) -> Result<(), ReadError<OperationError>>
    requires place_exists { IsSome (at path.now tree.old) }
    requires height_bounded { height tree.old ≤ MAX_LEVELS }
    ensures as_specified { ResultSatisfies
        (IsEditResult
        (replace_result here.now (spots.AtElement path.now) operation.now.content tree.old)
        tree.new) result }
{
    let Some(new) = sole_element(operation) else {
        return Err(ReadError::Fault(OperationError::WrongNodes));
    };
    if !element_fits_depth(path, new) {
        return Err(ReadError::Fault(OperationError::WrongNodes));
    }
    if !names_agree_around(alloc, here, tree, path, operation) {
        return Err(ReadError::Fault(OperationError::Prefix));
    }
    let copy = copy_tree(alloc, new)?;
    let old = tree.put_over(path, copy);
    drop(old);
    Ok(())
}

// Whether white space comes before the node of a number, if it is asked for.
fn has_asked_space_before(asked: bool, nodes: &[Node], place: usize) -> bool
    ensures exact { result ≡ (not asked || has_space_before place nodes.now) }
{
    !asked || is_space_before(nodes, place)
}

// Whether white space comes after the node of a number, if it is asked for.
fn has_asked_space_after(asked: bool, nodes: &[Node], place: usize) -> bool
    requires { place < length nodes.now }
    ensures exact { result ≡ (not asked || is_space_at (suc place) nodes.now) }
{
    !asked || is_space_at(nodes, place + 1)
}

// Whether the white space that a removal asks for is beside the element.
fn has_requested_space(tree: &Element, gap: &InsertPosition, before: bool, after: bool) -> bool
    requires { IsSomeAnd (at gap.now.path tree.now)
        (λ e. gap.now.place < length (nodes_of e.content)) }
    ensures exact { result ≡ has_space_beside before after gap.now.path gap.now.place tree.now }
{
    let Some(parent) = element_at(tree, &gap.path) else {
        unreachable!()
    };
    let nodes = parent.nodes();
    has_asked_space_before(before, nodes, gap.place)
        && has_asked_space_after(after, nodes, gap.place)
}

// The number after an element and, if it is asked for, the white space after it.
fn end_of_cut(tree: &Element, gap: &InsertPosition, after: bool) -> usize
    requires within { IsSomeAnd (at gap.now.path tree.now)
        (λ e. gap.now.place < length (nodes_of e.content)) }
    requires has_space { (not after || is_space_at (suc gap.now.place)
        (nodes_at gap.now.path tree.now)) ≡ true }
    ensures exact { result ≡ suc gap.now.place + (if after then 1 else 0) }
    ensures within_nodes { IsSomeAnd (at gap.now.path tree.now)
        (λ e. result ≤ length (nodes_of e.content)) }
{
    let next = number_after(tree, &gap.path, gap.place);
    if !after {
        return next;
    }
    number_after(tree, &gap.path, next)
}

// Removes an element, and where it is asked for the node before it and the node after it.
fn cut_with_space(
    alloc: Global,
    gap: &InsertPosition,
    before: bool,
    after: bool,
    tree: &mut Element,
) -> Result<(), AllocError>
    requires within { IsSomeAnd (at gap.now.path tree.old)
        (λ e. gap.now.place < length (nodes_of e.content)) }
    requires has_space { has_space_beside before after gap.now.path gap.now.place tree.old ≡ true }
    ensures ok { OnOk result
        (tree.new ≡ cut_nodes gap.now.path (gap.now.place - (if before then 1 else 0))
        (suc gap.now.place + (if after then 1 else 0)) tree.old) }
{
    let from = gap.place - usize::from(before);
    let to = end_of_cut(tree, gap, after);
    exchange_nodes_at(tree, &gap.path, from, to, Vec::new(alloc))
}

/// Removes the element at a path, with the white space that is asked for.
pub(crate) fn remove_element(
    alloc: Global,
    before: bool,
    after: bool,
    path: &Path,
    operation: &Element,
    tree: &mut Element,
) -> Result<(), ReadError<OperationError>>
    requires place_exists { IsSome (at path.now tree.old) }
    requires height_bounded { height tree.old ≤ MAX_LEVELS }
    ensures as_specified { ResultSatisfies
        (IsEditResult (remove_result before after (spots.AtElement path.now) operation.now.content
        tree.old) tree.new) result }
{
    if !is_below_root(path) {
        return Err(ReadError::Fault(OperationError::RootTouched));
    }
    if !has_only_comments(operation) {
        return Err(ReadError::Fault(OperationError::WrongNodes));
    }
    let gap = place_in_parent(tree, path);
    if !has_requested_space(tree, &gap, before, after) {
        return Err(ReadError::Fault(OperationError::NoSpace));
    }
    cut_with_space(alloc, &gap, before, after, tree)?;
    Ok(())
}
