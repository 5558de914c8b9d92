//! The last insertion point of an element at which a step selects a new child and the element
//! stays valid: the one after all children, if a quick check suffices, where the step has no
//! position; else found by one pass over the children.
ghost use Rattle.std.specs.Prelude.{◌≡◌, ◌↔◌, ◌<◌, ◌+◌, ◌^◌, ℕ, IsTrue, None, cond, length};
ghost use Rattle.std.specs.Option.{ForSome};
ghost use Rattle.node_select.specs.StepSelection.{Matches};
ghost use Rattle.node_select.specs.InsertionPoints.{AllowsInsertion, IsLawfulInsertion};
ghost use Rattle.node_select.specs.InsertionPoints.{IsInsertionPlan};
ghost use Rattle.node_select.specs.InsertionPoints.{plan_with_gap};
ghost use Rattle.xml_tree.specs.Tree.{child_elements_of};
ghost use Rattle.node_select.specs.Selection.{is_named, is_tested, step_tests};
ghost use Rattle.usage_docs.specs.Validity.{IsValidChild};
ghost use Rattle.edit_plans.specs.inner.ChildChangeResults.{without_position};
ghost use Rattle.edit_plans.specs.inner.Neighbours.{FitsInsertionPoint, fits_between, part_in};
ghost use Rattle.edit_plans.specs.declared.insertion_points.NoInsertionPoint.TheVariants.{Unlawful};
ghost use Rattle.edit_plans.specs.declared.insertion_points.NoInsertionPoint.TheVariants.{Invalid};

use crate::parent::Parent;
use crate::remove_child::part_before_child;
use node_select::{Step, is_at_position};
use std::alloc::Global;
use usage_docs::{END, ElementKind, is_valid_child, may_follow, part_of};
use xml_names::IndexedDecls;
use xml_tree::{Element, Node};

/// Why there is no insertion point.
#[derive(Clone, Copy, Drop)]
pub(crate) enum NoInsertionPoint {
    /// The step would select the new child at none.
    Unlawful,
    /// It would at some, and the element would be valid at none of these.
    Invalid,
}

// The result after one more insertion point.
fn gap_or_refusal(
    answer: Result<usize, NoInsertionPoint>,
    gap: usize,
    lawful: bool,
    valid: bool,
) -> Result<usize, NoInsertionPoint>
    ensures exact { result ≡ plan_with_gap Invalid answer gap lawful valid }
{
    if !lawful {
        return answer;
    }
    if valid {
        return Ok(gap);
    }
    match answer {
        Ok(before) => Ok(before),
        Err(_) => Err(NoInsertionPoint::Invalid),
    }
}

/// The content-model part of a child, by its parent's element kind, if it has one.
pub(crate) fn part_in(alloc: Global, parent: &Parent<'_>, child_element: &Element) -> u8
    ensures child_part { result ≡ part_in parent.now.kind parent.now.scope.now child_element.now }
{
    match parent.kind {
        None => 0,
        Some(kind) => {
            let declared = IndexedDecls::new(alloc, child_element.decls());
            let inside = (&*parent.scope).inside(&declared);
            part_of(kind, &inside, child_element.name())
        }
    }
}

/// Whether a child of this part may be between two others.
pub(crate) fn may_stand_between(
    row: Option<ElementKind>,
    itself: bool,
    before: u8,
    part: u8,
    after: u8,
) -> bool
    ensures exact { result ≡ fits_between row itself before part after }
{
    match row {
        None => true,
        Some(row) => itself && (may_follow(row, before, part) && may_follow(row, part, after)),
    }
}

/// Whether a new child is valid by itself, if the parent has an element kind.
pub(crate) fn is_valid_in(alloc: Global, parent: &Parent<'_>, new: &Element) -> bool
    ensures valid_iff { ForSome parent.now.kind
        (λ kind. IsTrue result ↔ IsValidChild kind parent.now.scope.now new.now) }
{
    match parent.kind {
        None => true,
        Some(kind) => is_valid_child(alloc, kind, parent.scope, new),
    }
}

/// Whether a child passes both tests of a step. The attribute test comes first, since fewer
/// children pass it.
pub(crate) fn passes_step(
    alloc: Global,
    parent: &Parent<'_>,
    step: &Step,
    child_element: &Element,
) -> bool
    ensures exact { IsTrue result
        ↔ (IsTrue (is_named parent.now.scope.now step.now child_element.now)
        × IsTrue (is_tested parent.now.scope.now step.now child_element.now)) }
{
    step.matches_test(alloc, parent.scope, child_element)
        && step.matches_name(alloc, parent.scope, child_element)
}

// Counts one more where `more` is set.
fn count_if(before: u64, more: bool) -> u64
    requires { before + 1 < 2 ^ 64 }
    ensures counts_one_more { result ≡ before + cond more 1 0 }
{
    if more { before + 1 } else { before }
}

// Whether any child passes both tests of a step.
fn any_passes(alloc: Global, parent: &Parent<'_>, step: &Step) -> bool
    ensures exact { IsTrue result
        ↔ ((k : ℕ) × Matches (without_position (step_tests parent.now.scope.now step.now))
        (child_elements_of parent.now.element.now) k) }
{
    let mut i: usize = 0;
    for node in parent.element.nodes() {
        if let Node::Elem(child_element) = node {
            if passes_step(alloc, parent, step, child_element) {
                return true;
            }
            i += 1;
        }
    }
    false
}

// Whether no other child keeps the new one from being selected: the step has a position, or no
// child passes both tests.
fn can_be_selected(alloc: Global, parent: &Parent<'_>, step: &Step) -> bool
    ensures exact { IsTrue result
        ↔ AllowsInsertion (step_tests parent.now.scope.now step.now)
        (child_elements_of parent.now.element.now) }
{
    match step.position {
        None => !any_passes(alloc, parent, step),
        Some(_) => true,
    }
}

// The number of children of an element.
fn count_children(parent: &Element) -> usize
    ensures exact { result ≡ length (child_elements_of parent.now) }
{
    let mut many: usize = 0;
    for node in parent.nodes() {
        if let Node::Elem(_) = node {
            many += 1;
        }
    }
    many
}

// Whether a new child may come after all `many` children.
fn fits_after_last(
    alloc: Global,
    parent: &Parent<'_>,
    new: &Element,
    itself: bool,
    many: usize,
) -> bool
    requires children_counted { many ≡ length (child_elements_of parent.now.element.now) }
    requires itself_valid { ForSome parent.now.kind
        (λ kind. IsTrue itself ↔ IsValidChild kind parent.now.scope.now new.now) }
    ensures exact { IsTrue result
        ↔ FitsInsertionPoint parent.now.kind parent.now.scope.now parent.now.element.now.content
        new.now many }
{
    let part = part_in(alloc, parent, new);
    let left = part_before_child(alloc, parent, many);
    may_stand_between(parent.kind, itself, left, part, END)
}

// Whether a step has no position, and the new child may come after all children.
fn takes_last_gap(
    alloc: Global,
    parent: &Parent<'_>,
    step: &Step,
    new: &Element,
    itself: bool,
    many: usize,
) -> bool
    requires children_counted { many ≡ length (child_elements_of parent.now.element.now) }
    requires itself_valid { ForSome parent.now.kind
        (λ kind. IsTrue itself ↔ IsValidChild kind parent.now.scope.now new.now) }
    ensures fits_any_order { IsTrue result → (step.now.position ≡ None)
        × FitsInsertionPoint parent.now.kind parent.now.scope.now parent.now.element.now.content
        new.now many }
{
    match step.position {
        None => fits_after_last(alloc, parent, new, itself, many),
        Some(_) => false,
    }
}

// The last insertion point, where the new child passes both tests and no other child prevents it:
// the one after all children, if a quick check suffices, else by a pass over them.
fn greatest_gap(
    alloc: Global,
    parent: &Parent<'_>,
    step: &Step,
    new: &Element,
    itself: bool,
) -> Result<usize, NoInsertionPoint>
    requires name_matches { IsTrue (is_named parent.now.scope.now step.now new.now) }
    requires test_matches { IsTrue (is_tested parent.now.scope.now step.now new.now) }
    requires position_free { AllowsInsertion (step_tests parent.now.scope.now step.now)
        (child_elements_of parent.now.element.now) }
    requires itself_valid { ForSome parent.now.kind
        (λ kind. IsTrue itself ↔ IsValidChild kind parent.now.scope.now new.now) }
    ensures lawful_plan { IsInsertionPlan Unlawful Invalid
        (IsLawfulInsertion (step_tests parent.now.scope.now step.now)
        (child_elements_of parent.now.element.now) new.now)
        (FitsInsertionPoint parent.now.kind parent.now.scope.now parent.now.element.now.content
        new.now)
        (length (child_elements_of parent.now.element.now) + 1) result }
{
    let many = count_children(parent.element);
    if takes_last_gap(alloc, parent, step, new, itself, many) {
        return Ok(many);
    }
    last_gap(alloc, parent, step, new, itself)
}

// The last insertion point by a pass over the children, which tries each one.
fn last_gap(
    alloc: Global,
    parent: &Parent<'_>,
    step: &Step,
    new: &Element,
    itself: bool,
) -> Result<usize, NoInsertionPoint>
    requires name_matches { IsTrue (is_named parent.now.scope.now step.now new.now) }
    requires test_matches { IsTrue (is_tested parent.now.scope.now step.now new.now) }
    requires position_free { AllowsInsertion (step_tests parent.now.scope.now step.now)
        (child_elements_of parent.now.element.now) }
    requires itself_valid { ForSome parent.now.kind
        (λ kind. IsTrue itself ↔ IsValidChild kind parent.now.scope.now new.now) }
    ensures lawful_plan { IsInsertionPlan Unlawful Invalid
        (IsLawfulInsertion (step_tests parent.now.scope.now step.now)
        (child_elements_of parent.now.element.now) new.now)
        (FitsInsertionPoint parent.now.kind parent.now.scope.now parent.now.element.now.content
        new.now)
        (length (child_elements_of parent.now.element.now) + 1) result }
{
    let part = part_in(alloc, parent, new);
    let mut answer = Err(NoInsertionPoint::Unlawful);
    let mut before: u64 = 0;
    let mut prev: u8 = 0;
    let mut i: usize = 0;
    for node in parent.element.nodes() {
        if let Node::Elem(child_element) = node {
            let next = part_in(alloc, parent, child_element);
            let lawful = is_at_position(step.position, before);
            let valid = may_stand_between(parent.kind, itself, prev, part, next);
            answer = gap_or_refusal(answer, i, lawful, valid);
            before = count_if(
                before,
                step.matches_name(alloc, parent.scope, child_element),
            );
            prev = next;
            i += 1;
        }
    }
    let lawful = is_at_position(step.position, before);
    let valid = may_stand_between(parent.kind, itself, prev, part, END);
    gap_or_refusal(answer, i, lawful, valid)
}

/// The last insertion point of a parent at which the step selects the new child and the parent
/// stays valid.
pub(crate) fn choose_gap(
    alloc: Global,
    parent: &Parent<'_>,
    step: &Step,
    new: &Element,
) -> Result<usize, NoInsertionPoint>
    ensures lawful_plan { IsInsertionPlan Unlawful Invalid
        (IsLawfulInsertion (step_tests parent.now.scope.now step.now)
        (child_elements_of parent.now.element.now) new.now)
        (FitsInsertionPoint parent.now.kind parent.now.scope.now parent.now.element.now.content
        new.now)
        (length (child_elements_of parent.now.element.now) + 1) result }
{
    if !step.matches_name(alloc, parent.scope, new) {
        return Err(NoInsertionPoint::Unlawful);
    }
    if !step.matches_test(alloc, parent.scope, new) {
        return Err(NoInsertionPoint::Unlawful);
    }
    if !can_be_selected(alloc, parent, step) {
        return Err(NoInsertionPoint::Unlawful);
    }
    let itself = is_valid_in(alloc, parent, new);
    greatest_gap(alloc, parent, step, new, itself)
}
