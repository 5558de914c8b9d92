//! The first repeated key among siblings, found without allocating: the number of the first child
//! with each key is compared with the child's own number.
ghost use Rattle.std.specs.Prelude.{◌≡◌, ◌↔◌, ◌<◌, ℕ, IsTrue, Some, length, option_map};
ghost use Rattle.xml_tree.specs.Tree.{child_elements_of};
ghost use Rattle.usage_docs.specs.UniqueKeys.{sibling_key, sibling_key_at, sibling_key_of};
ghost use Rattle.usage_docs.specs.readers.KeyRepeats.{IsFirstRepeat};
ghost use Rattle.usage_docs.specs.readers.SiblingElements.{node_children};

use crate::attributes::{key_of, key_text};
use crate::key_repeats::KeyRepeat;
use crate::schema_table::{ElementKind, kind_of};
use std::alloc::Global;
use xml_names::{IndexedDecls, Text};
use xml_tree::{Element, LinkedScope, Node};

// The kind of a child, by the kind of its parent, and the value of its key, if it has both.
fn sibling_key_of<'a>(
    alloc: Global,
    row: ElementKind,
    scope: &LinkedScope<'_>,
    child_element: &'a Element,
) -> Option<(ElementKind, &'a Text)>
    ensures exact { option_map (λ x. sibling_key x.0 x.1.now) result
        ≡ sibling_key_of row scope.now child_element.now }
{
    let declared = IndexedDecls::new(alloc, child_element.decls());
    let inside = (&*scope).inside(&declared);
    let Some(kind) = kind_of(row, &inside, child_element.name()) else {
        return None;
    };
    let Some(value) = key_text(kind, child_element.attrs()) else {
        return None;
    };
    Some((kind, value))
}

// Whether a child has this kind and this value of its key.
fn has_sibling_key(
    alloc: Global,
    row: ElementKind,
    scope: &LinkedScope<'_>,
    child_element: &Element,
    kind: ElementKind,
    value: &Text,
) -> bool
    ensures exact { IsTrue result
        ↔ (sibling_key_of row scope.now child_element.now ≡ Some (sibling_key kind value.now)) }
{
    match sibling_key_of(alloc, row, scope, child_element) {
        Some(own) => own.0 == kind && own.1 == value,
        None => false,
    }
}

// The number of the first child that has this kind and this value of its key; the number of
// children where none has.
fn find_first_with_key(
    alloc: Global,
    row: ElementKind,
    scope: &LinkedScope<'_>,
    nodes: &[Node],
    kind: ElementKind,
    value: &Text,
) -> usize
    ensures none_before { (j : ℕ) → j < result
        → sibling_key_at row scope.now (node_children nodes.now) j
        ≡ Some (sibling_key kind value.now) → ⊥ }
    ensures marked_there { result < length (node_children nodes.now)
        → sibling_key_at row scope.now (node_children nodes.now) result
        ≡ Some (sibling_key kind value.now) }
{
    let mut child: usize = 0;
    for node in nodes {
        if let Node::Elem(child_element) = node {
            if has_sibling_key(alloc, row, scope, child_element, kind, value) {
                return child;
            }
            child += 1;
        }
    }
    child
}

/// The first child that has the kind and the key of an earlier one.
pub(crate) fn scan_for_repeat(
    alloc: Global,
    row: ElementKind,
    scope: &LinkedScope<'_>,
    element: &Element,
) -> Option<KeyRepeat>
    ensures is_first_repeat { IsFirstRepeat row scope.now (child_elements_of element.now) result }
{
    let nodes = element.nodes();
    let mut child: usize = 0;
    for node in nodes {
        if let Node::Elem(child_element) = node {
            if let Some((kind, value)) = sibling_key_of(alloc, row, scope, child_element) {
                if find_first_with_key(alloc, row, scope, nodes, kind, value) < child {
                    let Some(key) = key_of(kind) else {
                        return None;
                    };
                    return Some(KeyRepeat { child, key });
                }
            }
            child += 1;
        }
    }
    None
}
