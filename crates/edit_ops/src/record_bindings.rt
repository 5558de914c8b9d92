//! What a change record has of the tree that its change was made in.
ghost use Rattle.std.specs.Prelude.{◌≡◌, is_none, IfOk, IsSome};
ghost use Rattle.xml_names.specs.Attributes.{has_qname};
ghost use Rattle.xml_tree.specs.Tree.{at};
ghost use Rattle.std.specs.List.{find, list_any};
ghost use Rattle.xml_tree.specs.Edits.{attr_at};
ghost use Rattle.xml_names.specs.Scopes.{in_scope_bindings};
ghost use Rattle.xml_tree.specs.TreeScopes.{scope_around, scope_at};
ghost use Rattle.edit_ops.specs.Changes.{FitsTree};
ghost use Rattle.edit_ops.specs.Notes.{is_fresh, scope_of_place};

use crate::Change;
use std::alloc::{AllocError, Global};
use xml_names::{Decl, Name};
use xml_tree::{Element, Path, Scope, element_at};

// ---- bindings

// The bindings in scope at the element of a path.
fn bindings_at(alloc: Global, root: &Element, path: &Path) -> Result<Vec<Decl>, AllocError>
    requires { IsSome (at path.now root.now) }
    ensures ok { IfOk result (λ made. made.items ≡ in_scope_bindings (scope_at path.now root.now)) }
{
    match Scope::at(root, path) {
        Some(scope) => scope.bindings(alloc),
        None => unreachable!(),
    }
}

// The bindings in scope at the parent of the element of a path: none for the root.
#[tactic(auto, using(crate::proofs::Around::around))]
fn bindings_around(alloc: Global, root: &Element, path: &Path) -> Result<Vec<Decl>, AllocError>
    requires { IsSome (at path.now root.now) }
    ensures ok { IfOk result
        (λ made. made.items ≡ in_scope_bindings (scope_around path.now root.now)) }
{
    match path.split_last() {
        Some((parent, _)) => bindings_at(alloc, root, &parent),
        None => Ok(Vec::new(alloc)),
    }
}

// The bindings in scope at the place of a change.
#[tactic(auto, using(crate::proofs::Around::around))]
pub(crate) fn bindings_of_place(
    alloc: Global,
    root: &Element,
    change: &Change,
) -> Result<Vec<Decl>, AllocError>
    requires { FitsTree root.now change.now }
    ensures ok { IfOk result
        (λ made. made.items ≡ in_scope_bindings (scope_of_place root.now change.now)) }
{
    match change {
        Change::CreateDocument { .. } => Ok(Vec::new(alloc)),
        Change::Insert { parent, .. } => bindings_at(alloc, root, parent),
        Change::Replace { at, .. } => bindings_around(alloc, root, at),
        Change::Remove { at } => bindings_around(alloc, root, at),
        Change::SetAttr { at, .. } => bindings_at(alloc, root, at),
        Change::DropAttr { at, .. } => bindings_at(alloc, root, at),
        Change::RemoveDocument => Ok(Vec::new(alloc)),
    }
}

// ---- new attributes

// Whether an element has an attribute of this name.
fn has_attr(element: &Element, name: &Name) -> bool
    ensures exact { result ≡ list_any (has_qname name.now) element.now.attrs }
{
    element.attrs().iter().any(|attr| attr.name.same(name))
}

fn lacks_attr(element: &Element, name: &Name) -> bool
    ensures exact { result ≡ is_none (find (has_qname name.now) element.now.attrs) }
{
    !has_attr(element, name)
}

// Whether the element at a path has no attribute of this name.
fn lacks_attr_at(root: &Element, path: &Path, name: &Name) -> bool
    ensures exact { result ≡ is_none (attr_at path.now name.now root.now) }
{
    match element_at(root, path) {
        Some(element) => lacks_attr(element, name),
        None => true,
    }
}

// Whether a change writes an attribute that is new.
pub(crate) fn is_fresh(root: &Element, change: &Change) -> bool
    ensures exact { result ≡ is_fresh root.now change.now }
{
    match change {
        Change::CreateDocument { .. } => false,
        Change::Insert { .. } => false,
        Change::Replace { .. } => false,
        Change::Remove { .. } => false,
        Change::SetAttr { at, name, .. } => lacks_attr_at(root, at, name),
        Change::DropAttr { .. } => false,
        Change::RemoveDocument => false,
    }
}
