//! Where a new element is inserted under a parent, decided from the parent alone (RFC 4825,
//! section 8.2.3).
ghost use Rattle.std.specs.Prelude.{◌↔◌, ◌≤◌, IsTrue, length};
ghost use Rattle.xml_tree.specs.Tree.{child_elements_of};
ghost use Rattle.edit_plans.specs.inner.ChildChangeResults.{HasFormedReferences, FitsWithinLevels};
ghost use Rattle.edit_plans.specs.inner.ChildChangeResults.{IsNewChildResult, IsInsertionResult};
ghost use Rattle.edit_plans.specs.inner.ChildChangeResults.{HasNoClash, siblings_without};
ghost use Rattle.edit_plans.specs.inner.ChildChangeResults.{parent_context, sibling_place};

use crate::insertion_points::{NoInsertionPoint, choose_gap};
use crate::parent::Parent;
use crate::siblings::first_clash_beside;
use edit_rules::EditRefusal;
use node_select::Step;
use std::alloc::Global;
use usage_docs::{Fault, is_formed_child};
use xml_tree::Element;

// Whether the references in a new element have their form, where its parent has an element kind.
fn is_formed_in(alloc: Global, parent: &Parent<'_>, new: &Element) -> bool
    ensures exact { IsTrue result
        ↔ HasFormedReferences parent.now.kind parent.now.scope.now new.now }
{
    match parent.kind {
        None => true,
        Some(kind) => is_formed_child(alloc, kind, parent.scope, new),
    }
}

/// The result for a new element at an insertion point among the children of a parent, without the
/// one that it replaces; the references in the new element have their form or not. `Unformed`,
/// else `Repeated` with the first clash.
pub(crate) fn check_insertion(
    alloc: Global,
    parent: &Parent<'_>,
    left_out: Option<usize>,
    new: &Element,
    gap: usize,
    formed: bool,
) -> Result<usize, EditRefusal>
    requires room_left { FitsWithinLevels parent.now.path.now new.now }
    requires gap_in_range { gap ≤ length
        (siblings_without left_out (child_elements_of parent.now.element.now)) }
    requires no_clash { HasNoClash parent.now.kind parent.now.scope.now parent.now.element.now }
    ensures judged_by_form { IsNewChildResult (IsTrue formed) (sibling_place parent.now left_out)
        new.now gap result }
{
    if !formed {
        return Err(EditRefusal::Faulty(Fault::Unformed));
    }
    let Some(kind) = parent.kind else {
        return Ok(gap);
    };
    match first_clash_beside(alloc, kind, parent, left_out, new, gap) {
        Some(clash) => Err(EditRefusal::Faulty(Fault::Repeated(clash))),
        None => Ok(gap),
    }
}

/// The result for a new element at an insertion point, as by `check_insertion`.
pub(crate) fn check_new_child(
    alloc: Global,
    parent: &Parent<'_>,
    left_out: Option<usize>,
    new: &Element,
    gap: usize,
) -> Result<usize, EditRefusal>
    requires room_left { FitsWithinLevels parent.now.path.now new.now }
    requires gap_in_range { gap ≤ length
        (siblings_without left_out (child_elements_of parent.now.element.now)) }
    requires no_clash { HasNoClash parent.now.kind parent.now.scope.now parent.now.element.now }
    ensures judged_by_rules { IsNewChildResult
        (HasFormedReferences parent.now.kind parent.now.scope.now new.now)
        (sibling_place parent.now left_out) new.now gap result }
{
    let formed = is_formed_in(alloc, parent, new);
    check_insertion(alloc, parent, left_out, new, gap, formed)
}

/// The insertion point for a new element under a parent. `CannotInsert` where the step would
/// select the new element at none, `Faulty` where the parent would be valid at none of these; then
/// as `check_insertion`.
pub(crate) fn insertion_in_parent(
    alloc: Global,
    parent: &Parent<'_>,
    step: &Step,
    new: &Element,
) -> Result<usize, EditRefusal>
    requires room_left { FitsWithinLevels parent.now.path.now new.now }
    requires no_clash { HasNoClash parent.now.kind parent.now.scope.now parent.now.element.now }
    ensures insertion_plan { IsInsertionResult (parent_context parent.now step.now) new.now
        parent.now.path.now result }
{
    match choose_gap(alloc, parent, step, new) {
        Ok(gap) => check_new_child(alloc, parent, None, new, gap),
        Err(NoInsertionPoint::Unlawful) => Err(EditRefusal::CannotInsert),
        Err(NoInsertionPoint::Invalid) => Err(EditRefusal::Faulty(Fault::Invalid)),
    }
}
