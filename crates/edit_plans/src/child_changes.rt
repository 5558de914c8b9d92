//! Changes among a parent's children, and the descent to the parent.
ghost use Rattle.std.specs.Prelude.{◌≡◌, ◌∷◌, [], Some, IsSome, option_and_then};
ghost use Rattle.xml_tree.specs.Tree.{at};
ghost use Rattle.usage_docs.specs.SchemaTable.{kind_of, root_kind};
ghost use Rattle.edit_plans.specs.inner.ChildChangeResults.{IsChildChangeResult, MayChangeChild};
ghost use Rattle.edit_plans.specs.inner.ChildChangeResults.{parent_context};
ghost use Rattle.edit_plans.specs.inner.ParentPaths.{HoldsAtParent};

use crate::child_attributes::{AttributeEdit, attribute_change_in_parent};
use crate::insert_child::insertion_in_parent;
use crate::parent::Parent;
use crate::remove_child::removal_in_parent;
use crate::replace_child::replacement_in_parent;
use doc_names::Usage;
use edit_rules::EditRefusal;
use node_select::Step;
use std::alloc::Global;
use usage_docs::{ElementKind, kind_of, root_kind};
use xml_names::{Name, index_decls};
use xml_tree::{Element, LinkedScope, Path};

/// A change among the children of a parent.
#[derive(Drop)]
pub(crate) enum ChildChange<'a> {
    /// Insert a new element.
    Put(&'a Element),
    /// Replace a child by another element.
    Exchange(usize, &'a Element),
    /// Remove a child.
    RemoveChild(usize),
    /// Give a child this start tag; the edit says how the attribute is to be found then.
    SetAttributes(usize, &'a Element, &'a AttributeEdit<'a>),
}

// The result at a parent: an insertion point, or the number of the child.
fn answer_at_parent(
    alloc: Global,
    parent: &Parent<'_>,
    step: &Step,
    asked: &ChildChange<'_>,
) -> Result<usize, EditRefusal>
    requires change_asked { MayChangeChild (parent_context parent.now step.now)
        parent.now.path.now asked.now }
    ensures request_answer { IsChildChangeResult (parent_context parent.now step.now)
        parent.now.path.now asked.now result }
{
    match *asked {
        ChildChange::Put(new) => insertion_in_parent(alloc, parent, step, new),
        ChildChange::Exchange(child, new) => {
            replacement_in_parent(alloc, parent, step, child, new)
        }
        ChildChange::RemoveChild(child) => removal_in_parent(alloc, parent, step, child),
        ChildChange::SetAttributes(child, tag, sought) => {
            attribute_change_in_parent(alloc, parent, step, child, tag, sought)
        }
    }
}

// The element kind of a child, where its parent has one, in the scope at the child.
fn kind_inside(
    row: Option<ElementKind>,
    inside: &LinkedScope<'_>,
    name: &Name,
) -> Option<ElementKind>
    ensures exact { result ≡ option_and_then (λ kind. kind_of kind inside.now name.now) row }
{
    match row {
        None => None,
        Some(row) => kind_of(row, inside, name),
    }
}

// The result at the parent that the path leads to, from an element down, in the scope inside it
// and by its element kind, if it has one.
fn answer_below(
    alloc: Global,
    row: Option<ElementKind>,
    scope: &LinkedScope<'_>,
    step: &Step,
    element: &Element,
    way: &[usize],
    place: &Path,
    asked: &ChildChange<'_>,
) -> Result<usize, EditRefusal>
    requires place_exists { IsSome (at way.now element.now) }
    requires change_asked { HoldsAtParent
        (λ r c parent. MayChangeChild
        (record { kind = r; scope = c; step = step.now; element = parent }) place.now asked.now)
        row scope.now element.now way.now }
    ensures answers_below { HoldsAtParent
        (λ r c parent. IsChildChangeResult
        (record { kind = r; scope = c; step = step.now; element = parent }) place.now asked.now
        result)
        row scope.now element.now way.now }
{
    let [number, way @ ..] = way else {
        let parent = Parent {
            element,
            path: place,
            kind: row,
            scope: &*scope,
        };
        return answer_at_parent(alloc, &parent, step, asked);
    };
    match element.child_element(*number) {
        None => unreachable!(),
        Some(child_element) => {
            let declared = index_decls(alloc, child_element.decls());
            let inside = (&*scope).inside(&declared);
            let row = kind_inside(row, &inside, child_element.name());
            answer_below(alloc, row, &inside, step, child_element, way, place, asked)
        }
    }
}

/// The result of a change among the children of the element at a path, in which the step is to
/// select: an insertion point or the number of the child, or why there is no change. Only the
/// elements on the path and their children are looked at.
pub(crate) fn answer_child_change(
    alloc: Global,
    usage: Usage,
    root: &Element,
    step: &Step,
    place: &Path,
    asked: &ChildChange<'_>,
) -> Result<usize, EditRefusal>
    requires place_exists { IsSome (at place.now root.now) }
    requires change_asked { HoldsAtParent
        (λ r c parent. MayChangeChild
        (record { kind = r; scope = c; step = step.now; element = parent }) place.now asked.now)
        (Some (root_kind usage)) (root.now.decls ∷ []) root.now place.now }
    ensures answer_at_place { HoldsAtParent
        (λ r c parent. IsChildChangeResult
        (record { kind = r; scope = c; step = step.now; element = parent }) place.now asked.now
        result)
        (Some (root_kind usage)) (root.now.decls ∷ []) root.now place.now }
{
    let declared = index_decls(alloc, root.decls());
    answer_below(
        alloc,
        Some(root_kind(usage)),
        &LinkedScope::empty().inside(&declared),
        step,
        root,
        place.numbers(),
        place,
        asked,
    )
}
