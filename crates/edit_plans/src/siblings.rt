//! The first clash of a new element with its siblings (RFC 4826, sections 3.2 and 4.2).
ghost use Rattle.std.specs.Prelude.{◌≡◌, ◌↔◌, ◌<◌, ◌≤◌, ◌+◌, ◌++◌, ◌∷◌, ◌^◌, ℕ, List, [], chars};
ghost use Rattle.std.specs.Prelude.{length, IsTrue, IfSome, Some, None};
ghost use Rattle.xml_names.specs.declared.limits.TheConstants.{MAX_LEVELS};
ghost use Rattle.xml_tree.specs.declared.path.TheConstants.{PATH_LIMIT};
ghost use Rattle.xml_tree.specs.Tree.{height, child_elements_of};
ghost use Rattle.usage_docs.specs.declared.schema_table.Key.{Key};
ghost use Rattle.usage_docs.specs.KeyAttributes.{key_of, value_of};
ghost use Rattle.usage_docs.specs.UniqueKeys.{RepeatsKeyAt, sibling_key, sibling_key_at};
ghost use Rattle.usage_docs.specs.UniqueKeys.{sibling_key_of};
ghost use Rattle.usage_docs.specs.readers.SiblingElements.{IsFirstInOrder};
ghost use Rattle.edit_rules.specs.NewElements.{ClashesBeside, ClashesInside, IsDuplicate};
ghost use Rattle.edit_rules.specs.NewElements.{HasNoDuplicate};
ghost use Rattle.usage_docs.specs.ElementKinds.{kind_of_child};
ghost use Rattle.edit_plans.specs.inner.ChildChangeResults.{FitsWithinLevels};
ghost use Rattle.edit_plans.specs.inner.ChildChangeResults.{number_among_siblings};
ghost use Rattle.edit_plans.specs.inner.ChildChangeResults.{siblings_under, siblings_without};
ghost use Rattle.edit_plans.specs.declared.siblings.DuplicateKey.{DuplicateKey};

use crate::parent::Parent;
use node_select::same_text;
use std::alloc::Global;
use usage_docs::{Clash, ElementKind, Key, clash_below, key_of, kind_of, value_of};
use xml_names::{IndexedDecls, index_decls};
use xml_tree::{Element, LinkedScope, Node, Path};

/// A sibling with the element kind and the key of a new element, by its number among the siblings.
#[derive(Clone, Copy, Drop)]
pub(crate) struct DuplicateKey {
    pub(crate) child: usize,
    pub(crate) key: Key,
}

// The element kind of a child, by its parent's kind.
fn kind_of_child(
    alloc: Global,
    row: ElementKind,
    scope: &LinkedScope<'_>,
    child_element: &Element,
) -> Option<ElementKind>
    ensures child_kind { result ≡ kind_of_child row scope.now child_element.now }
{
    let declared = IndexedDecls::new(alloc, child_element.decls());
    kind_of(row, &(&*scope).inside(&declared), child_element.name())
}

// Whether two element kinds are equal.
fn same_kind(a: ElementKind, b: ElementKind) -> bool
    ensures exact { IsTrue result ↔ (a ≡ b) }
{
    a == b
}

// Whether an element has this value of a key.
fn has_value(key: Key, value: &str, child_element: &Element) -> bool
    ensures exact { IsTrue result
        ↔ (value_of key child_element.now.attrs ≡ Some (chars value.now)) }
{
    match value_of(key, child_element.attrs()) {
        Some(own) => same_text(own, value),
        None => false,
    }
}

// Whether a child has this element kind and this value of its key. The value is compared first,
// since few children have it and that is cheaper than finding the kind.
fn has_sibling_key(
    alloc: Global,
    row: ElementKind,
    scope: &LinkedScope<'_>,
    kind: ElementKind,
    key: Key,
    value: &str,
    child_element: &Element,
) -> bool
    requires { key_of kind ≡ Some key }
    ensures exact { IsTrue result
        ↔ (sibling_key_of row scope.now child_element.now
        ≡ Some (sibling_key kind (chars value.now))) }
{
    if !has_value(key, value, child_element) {
        return false;
    }
    let Some(own) = kind_of_child(alloc, row, scope, child_element) else {
        return false;
    };
    same_kind(own, kind)
}

// Whether it is the child that is left out.
fn is_left_out(left_out: Option<usize>, child: usize) -> bool
    ensures exact { IsTrue result ↔ (left_out ≡ Some child) }
{
    match left_out {
        None => false,
        Some(out) => out == child,
    }
}

// Whether a child isn't left out and has this element kind and this value of its key.
fn is_sibling_with_key(
    alloc: Global,
    row: ElementKind,
    parent: &Parent<'_>,
    kind: ElementKind,
    key: Key,
    value: &str,
    left_out: Option<usize>,
    child: usize,
    child_element: &Element,
) -> bool
    requires { key_of kind ≡ Some key }
    ensures exact { IsTrue result
        ↔ ((left_out ≡ Some child → ⊥)
        × (sibling_key_of row parent.now.scope.now child_element.now
        ≡ Some (sibling_key kind (chars value.now)))) }
{
    if is_left_out(left_out, child) {
        return false;
    }
    has_sibling_key(alloc, row, parent.scope, kind, key, value, child_element)
}

// The first sibling with this element kind and this value of its key, by its number among all
// children.
fn find_child_with_key(
    alloc: Global,
    row: ElementKind,
    parent: &Parent<'_>,
    kind: ElementKind,
    key: Key,
    value: &str,
    left_out: Option<usize>,
) -> Option<usize>
    requires { key_of kind ≡ Some key }
    ensures some_is_marked { IfSome result
        (λ i. (left_out ≡ Some i → ⊥)
        × (sibling_key_at row parent.now.scope.now (child_elements_of parent.now.element.now) i
        ≡ Some (sibling_key kind (chars value.now)))) }
    ensures fits_u64 { IfSome result (λ i. i + 1 < 2 ^ 64) }
    ensures none_is_marked { result ≡ None → (i : ℕ) → (left_out ≡ Some i → ⊥)
        → sibling_key_at row parent.now.scope.now (child_elements_of parent.now.element.now) i
        ≡ Some (sibling_key kind (chars value.now)) → ⊥ }
{
    let mut i: usize = 0;
    for node in parent.element.nodes() {
        if let Node::Elem(child_element) = node {
            if is_sibling_with_key(
                alloc,
                row,
                parent,
                kind,
                key,
                value,
                left_out,
                i,
                child_element,
            ) {
                return Some(i);
            }
            i += 1;
        }
    }
    None
}

// The number of a child among the others, once one is left out.
fn number_among_siblings(left_out: Option<usize>, child: usize) -> usize
    ensures exact { result ≡ number_among_siblings left_out child }
{
    match left_out {
        None => child,
        Some(out) => { if out < child { child - 1 } else { child } }
    }
}

// A sibling with the element kind and the key of a new element, if there is one.
fn find_duplicate(
    alloc: Global,
    row: ElementKind,
    parent: &Parent<'_>,
    left_out: Option<usize>,
    new: &Element,
) -> Option<DuplicateKey>
    ensures some_is_marked { IfSome result
        (λ duplicate. IsDuplicate (siblings_under row parent.now left_out) new.now duplicate.child
        duplicate.key) }
    ensures fits_u64 { IfSome result (λ duplicate. duplicate.child + 1 < 2 ^ 64) }
    ensures none_is_marked { result ≡ None
        → HasNoDuplicate (siblings_under row parent.now left_out) new.now }
{
    let Some(kind) = kind_of_child(alloc, row, parent.scope, new) else {
        return None;
    };
    let Some(key) = key_of(kind) else {
        return None;
    };
    let Some(value) = value_of(key, new.attrs()) else {
        return None;
    };
    let Some(child) = find_child_with_key(alloc, row, parent, kind, key, value, left_out) else {
        return None;
    };
    Some(DuplicateKey {
        child: number_among_siblings(left_out, child),
        key,
    })
}

// The key of a duplicate before the insertion point.
fn key_before(duplicate: Option<DuplicateKey>, gap: usize) -> Option<Key>
    ensures some_is_marked { IfSome result
        (λ key. (t : DuplicateKey) × ((duplicate ≡ Some t) × (t.child < gap) × (t.key ≡ key))) }
    ensures none_is_marked { result ≡ None → (t : DuplicateKey) → duplicate ≡ Some t
        → gap ≤ t.child }
{
    match duplicate {
        None => None,
        Some(duplicate) => {
            if duplicate.child < gap {
                return Some(duplicate.key);
            }
            None
        }
    }
}

// The path of a child.
fn child_path(place: &Path, child: usize) -> Path
    requires { length place.now < PATH_LIMIT }
    ensures exact { result ≡ place.now ++ child ∷ [] }
{
    match place.child(child) {
        Some(path) => path,
        None => unreachable!(),
    }
}

// The first clash within a new element at this path.
fn first_in_new(
    alloc: Global,
    row: ElementKind,
    scope: &LinkedScope<'_>,
    new: &Element,
    here: &Path,
) -> Option<Clash>
    requires { length here.now + height new.now ≤ MAX_LEVELS }
    ensures first_of_clashes { IsFirstInOrder (ClashesInside row scope.now new.now) here.now
        result }
{
    let declared = index_decls(alloc, new.decls());
    let inside = (&*scope).inside(&declared);
    let kind = kind_of(row, &inside, new.name())?;
    clash_below(alloc, kind, &inside, new, here)
}

/// The first clash that a new element makes at an insertion point among the children of a parent
/// of this kind, which don't clash, without the one that it replaces.
pub(crate) fn first_clash_beside(
    alloc: Global,
    row: ElementKind,
    parent: &Parent<'_>,
    left_out: Option<usize>,
    new: &Element,
    gap: usize,
) -> Option<Clash>
    requires room_left { FitsWithinLevels parent.now.path.now new.now }
    requires gap_in_range { gap ≤ length
        (siblings_without left_out (child_elements_of parent.now.element.now)) }
    requires no_clash { (r : List ℕ) (key : Key)
        → RepeatsKeyAt row parent.now.scope.now
        (siblings_without left_out (child_elements_of parent.now.element.now)) r key → ⊥ }
    ensures first_of_clashes { IsFirstInOrder
        (ClashesBeside (siblings_under row parent.now left_out) new.now gap)
        parent.now.path.now result }
{
    let duplicate = find_duplicate(alloc, row, parent, left_out, new);
    let here = child_path(parent.path, gap);
    if let Some(key) = key_before(duplicate, gap) {
        return Some(Clash { path: here, key });
    }
    if let Some(clash) = first_in_new(alloc, row, parent.scope, new, &here) {
        return Some(clash);
    }
    match duplicate {
        Some(duplicate) => Some(Clash {
            path: child_path(parent.path, duplicate.child + 1),
            key: duplicate.key,
        }),
        None => None,
    }
}
