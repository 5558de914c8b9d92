//! Whether a change fits a tree.
ghost use Rattle.std.specs.Prelude.{◌≡◌, ◌↔◌, ◌≤◌, IsSome, IsSomeAnd, IsTrue, length};
ghost use Rattle.xml_names.specs.Attributes.{has_qname};
ghost use Rattle.std.specs.List.{list_any};
ghost use Rattle.xml_tree.specs.Edits.{attr_at};
ghost use Rattle.xml_tree.specs.Tree.{at, child_elements_of};
ghost use Rattle.edit_ops.specs.Changes.{FitsTree};

use edit_ops::Change;
use xml_names::{Attr, Name};
use xml_tree::{Element, Path, element_at};

fn has_element(root: &Element, path: &Path) -> bool
    ensures exact { IsTrue result ↔ IsSome (at path.now root.now) }
{
    element_at(root, path).is_some()
}

fn has_insertion_point(root: &Element, parent: &Path, gap: usize) -> bool
    ensures exact { IsTrue result
        ↔ IsSomeAnd (at parent.now root.now) (λ element. gap ≤ length (child_elements_of element)) }
{
    match element_at(root, parent) {
        Some(element) => gap == 0 || element.child_element(gap - 1).is_some(),
        None => false,
    }
}

fn has_attr_named(attrs: &[Attr], name: &Name) -> bool
    ensures exact { result ≡ list_any (has_qname name.now) attrs.now }
{
    attrs.iter().any(|attr| attr.name.same(name))
}

fn has_attr(root: &Element, path: &Path, name: &Name) -> bool
    ensures exact { IsTrue result ↔ IsSome (attr_at path.now name.now root.now) }
{
    match element_at(root, path) {
        Some(element) => has_attr_named(element.attrs(), name),
        None => false,
    }
}

/// Whether the change fits the tree: its place, insertion point and removed attribute exist, and
/// the root isn't to be removed.
pub(crate) fn fits_tree(root: &Element, change: &Change) -> bool
    ensures exact { IsTrue result ↔ FitsTree root.now change.now }
{
    match change {
        Change::CreateDocument { root: _ } | Change::RemoveDocument => false,
        Change::Insert { parent, gap, .. } => has_insertion_point(root, parent, *gap),
        Change::Replace { at, .. } => has_element(root, at),
        Change::Remove { at } => !at.numbers().is_empty() && has_element(root, at),
        Change::SetAttr { at, .. } => has_element(root, at),
        Change::DropAttr { at, name } => has_attr(root, at, name),
    }
}
