//! Whether another element may replace a child, decided from the parent alone (RFC 4825, section
//! 8.2.4).
ghost use Rattle.std.specs.Prelude.{◌↔◌, ◌<◌, IsTrue, length};
ghost use Rattle.xml_tree.specs.Tree.{child_elements_of};
ghost use Rattle.edit_plans.specs.inner.ChildChangeResults.{FitsWithinLevels, IsReplacementResult};
ghost use Rattle.edit_plans.specs.inner.ChildChangeResults.{IsSelectedChild, parent_context};
ghost use Rattle.edit_plans.specs.inner.Neighbours.{FitsReplacement};

use crate::insert_child::check_new_child;
use crate::insertion_points::{is_valid_in, may_stand_between, part_in, passes_step};
use crate::parent::Parent;
use crate::remove_child::{part_after_child, part_before_child};
use edit_rules::EditRefusal;
use node_select::Step;
use std::alloc::Global;
use usage_docs::Fault;
use xml_tree::Element;

// Whether a new element is valid by itself, and may be between the neighbours of a child.
fn fits_replacing(alloc: Global, parent: &Parent<'_>, child: usize, new: &Element) -> bool
    requires place_exists { child < length (child_elements_of parent.now.element.now) }
    ensures exact { IsTrue result
        ↔ FitsReplacement parent.now.kind parent.now.scope.now parent.now.element.now.content
        new.now child }
{
    let itself = is_valid_in(alloc, parent, new);
    let part = part_in(alloc, parent, new);
    let left = part_before_child(alloc, parent, child);
    let right = part_after_child(alloc, parent, child);
    may_stand_between(parent.kind, itself, left, part, right)
}

/// The result for a new element in place of a child, which the step selects. `CannotInsert` where
/// the step wouldn't select the new element, `Faulty` where the parent wouldn't be valid; then as
/// `check_insertion`.
pub(crate) fn replacement_in_parent(
    alloc: Global,
    parent: &Parent<'_>,
    step: &Step,
    child: usize,
    new: &Element,
) -> Result<usize, EditRefusal>
    requires selected { IsSelectedChild (parent_context parent.now step.now) child }
    requires room_left { FitsWithinLevels parent.now.path.now new.now }
    ensures replacement_plan { IsReplacementResult (parent_context parent.now step.now) child
        new.now parent.now.path.now result }
{
    if !passes_step(alloc, parent, step, new) {
        return Err(EditRefusal::CannotInsert);
    }
    if !fits_replacing(alloc, parent, child, new) {
        return Err(EditRefusal::Faulty(Fault::Invalid));
    }
    check_new_child(alloc, parent, Some(child), new, child)
}
