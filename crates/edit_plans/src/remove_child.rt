//! Whether a selected child may be removed, decided from its parent alone (RFC 4825, section 8.4).
ghost use Rattle.std.specs.Prelude.{◌≡◌, ◌↔◌, ◌<◌, ◌≤◌, ℕ, IsTrue, Some, length, remove, suc};
ghost use Rattle.std.specs.Option.{ForSome};
ghost use Rattle.node_select.specs.Edits.{IsNextMatch};
ghost use Rattle.xml_tree.specs.Tree.{child_elements_of};
ghost use Rattle.node_select.specs.Selection.{SelectsChild, is_named, step_tests};
ghost use Rattle.usage_docs.specs.readers.NeighbourParts.{part_before, part_after};
ghost use Rattle.edit_rules.specs.Removals.{NeighboursMayMeet, StillSelectsChild};
ghost use Rattle.edit_plans.specs.inner.ChildChangeResults.{IsRemovalResult, IsSelectedChild};
ghost use Rattle.edit_plans.specs.inner.ChildChangeResults.{parent_context};

use crate::insertion_points::part_in;
use crate::parent::Parent;
use edit_rules::EditRefusal;
use node_select::Step;
use std::alloc::Global;
use usage_docs::{END, Fault, may_follow};
use xml_tree::{Element, Node};

// Whether the i-th child comes after another one and has the step's name.
fn is_next(
    alloc: Global,
    parent: &Parent<'_>,
    step: &Step,
    child: usize,
    i: usize,
    child_element: &Element,
) -> bool
    ensures exact { IsTrue result
        ↔ ((child < i) × IsTrue (is_named parent.now.scope.now step.now child_element.now)) }
{
    if i <= child {
        return false;
    }
    step.matches_name(alloc, parent.scope, child_element)
}

// Whether the next child of the step's name after this one passes the attribute test too.
fn next_passes(alloc: Global, parent: &Parent<'_>, step: &Step, child: usize) -> bool
    requires { child < length (child_elements_of parent.now.element.now) }
    ensures exact { IsTrue result
        ↔ ((i : ℕ) × IsNextMatch (step_tests parent.now.scope.now step.now)
        (remove (child_elements_of parent.now.element.now) child) child i) }
{
    let mut i: usize = 0;
    for node in parent.element.nodes() {
        if let Node::Elem(child_element) = node {
            if is_next(alloc, parent, step, child, i, child_element) {
                return step.matches_test(alloc, parent.scope, child_element);
            }
            i += 1;
        }
    }
    false
}

// Whether the step still selects a child once the selected one is removed.
fn still_selects_child(alloc: Global, parent: &Parent<'_>, step: &Step, child: usize) -> bool
    requires { SelectsChild parent.now.scope.now step.now
        (child_elements_of parent.now.element.now) child }
    ensures exact { IsTrue result
        ↔ StillSelectsChild parent.now.scope.now step.now
        (child_elements_of parent.now.element.now) child }
{
    match step.position {
        None => false,
        Some(_) => next_passes(alloc, parent, step, child),
    }
}

/// The part of the child before this one, or the beginning. The number may be one past the last
/// child.
pub(crate) fn part_before_child(alloc: Global, parent: &Parent<'_>, child: usize) -> u8
    requires { child ≤ length (child_elements_of parent.now.element.now) }
    ensures exact { ForSome parent.now.kind
        (λ kind. result
        ≡ part_before kind parent.now.scope.now 0 child parent.now.element.now.content) }
{
    if child == 0 {
        return 0;
    }
    match parent.element.child_element(child - 1) {
        Some(child_element) => part_in(alloc, parent, child_element),
        None => unreachable!(),
    }
}

/// The part of the child after this one, or the end.
pub(crate) fn part_after_child(alloc: Global, parent: &Parent<'_>, child: usize) -> u8
    ensures exact { ForSome parent.now.kind
        (λ kind. result
        ≡ part_after kind parent.now.scope.now (suc child) parent.now.element.now.content) }
{
    let mut i: usize = 0;
    for node in parent.element.nodes() {
        if let Node::Elem(child_element) = node {
            if child < i {
                return part_in(alloc, parent, child_element);
            }
            i += 1;
        }
    }
    END
}

// Whether the next child may follow the one before this one.
fn neighbours_may_meet(alloc: Global, parent: &Parent<'_>, child: usize) -> bool
    requires { child < length (child_elements_of parent.now.element.now) }
    ensures exact { IsTrue result
        ↔ NeighboursMayMeet parent.now.kind parent.now.scope.now parent.now.element.now.content
        child }
{
    let left = part_before_child(alloc, parent, child);
    let right = part_after_child(alloc, parent, child);
    match parent.kind {
        None => true,
        Some(kind) => may_follow(kind, left, right),
    }
}

/// The result for the parent without a child, which the step selects.
///
/// # Errors
/// `CannotDelete` where the step would still select a child, else `Faulty` where the parent
/// wouldn't be valid.
pub(crate) fn removal_in_parent(
    alloc: Global,
    parent: &Parent<'_>,
    step: &Step,
    child: usize,
) -> Result<usize, EditRefusal>
    requires selected { IsSelectedChild (parent_context parent.now step.now) child }
    ensures removal_plan { IsRemovalResult (parent_context parent.now step.now) child result }
{
    if still_selects_child(alloc, parent, step, child) {
        return Err(EditRefusal::CannotDelete);
    }
    if !neighbours_may_meet(alloc, parent, child) {
        return Err(EditRefusal::Faulty(Fault::Invalid));
    }
    Ok(child)
}
