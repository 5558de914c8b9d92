//! Edits of attributes and texts by operations, in place.
ghost use Rattle.std.specs.Prelude.{◌≡◌, ◌≤◌, ◌<◌, ◌++◌, ◌∷◌, [], Bool, List, length, remove};
ghost use Rattle.std.specs.Prelude.{IsSome, IsSomeAnd, IfOk, OnOk};
ghost use Rattle.xml_names.specs.ReadErrors.{ResultSatisfies};
ghost use Rattle.xml_names.specs.declared.limits.TheConstants.{MAX_LEVELS};
ghost use Rattle.xml_names.specs.Attributes.{with_value_at};
ghost use Rattle.xml_tree.specs.Edits.{change_at};
ghost use Rattle.xml_names.specs.ExpandedNames.{attr_name, same_expanded};
ghost use Rattle.xml_tree.specs.Nodes.{nodes_of, text_node};
ghost use Rattle.xml_tree.specs.TreeScopes.{scope_at};
ghost use Rattle.xml_tree.specs.Tree.{at, height};
ghost use Rattle.xml_names.specs.declared.names.Decl.{Decl};
ghost use Rattle.patch_rules.specs.PatchOperations.{new_attr_result, remove_result, replace_result};
ghost use Rattle.patch_rules.specs.PatchOperations.{with_attrs, has_attr_named};
ghost use Rattle.patch_rules.specs.PatchOperations as spots;
ghost use Rattle.patch_apply.specs.inner.Results.{IsEditResult};
ghost use Rattle.patch_apply.specs.inner.ActionResults.{drop_attr_result, set_attr_result};

use crate::edits::exchange_node_at;
use patch_parse::{OperationError, attr_names_agree, content_value, has_attr, has_only_comments};
use std::alloc::{AllocError, Global};
use xml_names::{Attr, Name, ReadError, Text};
use xml_tree::{Element, Node, Path, Scope, element_at};

// ---- edits

// Adds an attribute to the element at a path.
fn push_attribute_at(tree: &mut Element, path: &Path, attr: Attr) -> Result<(), AllocError>
    requires { IsSome (at path.now tree.old) }
    ensures tree_changed { OnOk result
        (tree.new ≡ change_at path.now (with_attrs (λ ats. ats ++ attr ∷ [])) tree.old) }
{
    tree.edit_at(
        path,
        |here: &mut Element| -> Result<(), AllocError>
            ensures here_changed { OnOk result
                (here.new ≡ with_attrs (λ ats. ats ++ attr ∷ []) here.old) }
        { here.push_attr(attr) },
    )
}

// Replaces the value of an attribute of the element at a path.
fn set_attribute_at(tree: &mut Element, path: &Path, place: usize, value: Text)
    requires { IsSomeAnd (at path.now tree.old) (λ e. place < length e.attrs) }
    ensures tree_changed { tree.new
        ≡ change_at path.now (with_attrs (with_value_at place value)) tree.old }
{
    tree.edit_at(
        path,
        |here: &mut Element|
            requires { place < length here.old.attrs }
            ensures here_changed { here.new ≡ with_attrs (with_value_at place value) here.old }
        {
            let _old = here.exchange_value(place, value);
        },
    )
}

// Removes an attribute of the element at a path.
fn remove_attribute_at(tree: &mut Element, path: &Path, place: usize)
    requires { IsSomeAnd (at path.now tree.old) (λ e. place < length e.attrs) }
    ensures tree_changed { tree.new
        ≡ change_at path.now (with_attrs (λ ats. remove ats place)) tree.old }
{
    tree.edit_at(
        path,
        |here: &mut Element|
            requires { place < length here.old.attrs }
            ensures here_changed { here.new ≡ with_attrs (λ ats. remove ats place) here.old }
        {
            let _old = here.take_attr(place);
        },
    )
}

// ---- operations

// Whether the element at a path has the attribute that a name means.
fn has_attr_at(here: &Scope<'_>, name: &Name, path: &Path, tree: &Element) -> bool
    requires { IsSome (at path.now tree.now) }
    ensures exact { result ≡ has_attr_named here.now name.now path.now tree.now }
{
    let Some(element) = element_at(tree, path) else {
        unreachable!()
    };
    let Some(there) = Scope::at(tree, path) else {
        unreachable!()
    };
    has_attr(here, &there, element.attrs(), name)
}

// Whether the name of an attribute means the same in the scope at the element of a path.
fn attr_names_agree_at(here: &Scope<'_>, name: &Name, path: &Path, tree: &Element) -> bool
    requires { IsSome (at path.now tree.now) }
    ensures exact { result
        ≡ same_expanded (attr_name here.now name.now)
        (attr_name (scope_at path.now tree.now) name.now) }
{
    let Some(there) = Scope::at(tree, path) else {
        unreachable!()
    };
    attr_names_agree(here, &there, name)
}

/// Adds an attribute to the element at a path.
pub(crate) fn add_attr(
    alloc: Global,
    here: &Scope<'_>,
    name: Name,
    path: &Path,
    operation: &Element,
    tree: &mut Element,
) -> Result<(), ReadError<OperationError>>
    requires place_exists { IsSome (at path.now tree.old) }
    requires height_bounded { height tree.old ≤ MAX_LEVELS }
    ensures as_specified { ResultSatisfies
        (IsEditResult
        (new_attr_result here.now name path.now operation.now.content tree.old) tree.new)
        result }
{
    let found = content_value(alloc, operation)?;
    let Some(value) = found else {
        return Err(ReadError::Fault(OperationError::WrongNodes));
    };
    if has_attr_at(here, &name, path, tree) {
        return Err(ReadError::Fault(OperationError::WrongNodes));
    }
    if !attr_names_agree_at(here, &name, path, tree) {
        return Err(ReadError::Fault(OperationError::Prefix));
    }
    push_attribute_at(tree, path, Attr { name, value })?;
    Ok(())
}

/// Replaces the value of an attribute of the element at a path.
pub(crate) fn replace_attr(
    alloc: Global,
    path: &Path,
    place: usize,
    operation: &Element,
    tree: &mut Element,
) -> Result<(), ReadError<OperationError>>
    requires place_exists { IsSomeAnd (at path.now tree.old) (λ e. place < length e.attrs) }
    requires height_bounded { height tree.old ≤ MAX_LEVELS }
    ensures as_specified { ResultSatisfies
        (IsEditResult (set_attr_result path.now place operation.now.content tree.old) tree.new)
        result }
{
    let found = content_value(alloc, operation)?;
    let Some(value) = found else {
        return Err(ReadError::Fault(OperationError::WrongNodes));
    };
    set_attribute_at(tree, path, place, value);
    Ok(())
}

/// Removes an attribute of the element at a path.
pub(crate) fn remove_attr(
    path: &Path,
    place: usize,
    operation: &Element,
    tree: &mut Element,
) -> Result<(), ReadError<OperationError>>
    requires place_exists { IsSomeAnd (at path.now tree.old) (λ e. place < length e.attrs) }
    requires height_bounded { height tree.old ≤ MAX_LEVELS }
    ensures as_specified { ResultSatisfies
        (IsEditResult (drop_attr_result path.now place operation.now.content tree.old) tree.new)
        result }
{
    if !has_only_comments(operation) {
        return Err(ReadError::Fault(OperationError::WrongNodes));
    }
    remove_attribute_at(tree, path, place);
    Ok(())
}

// A text as a node; none where it is empty.
fn text_nodes(alloc: Global, text: Text) -> Result<Vec<Node>, AllocError>
    ensures ok { IfOk result (λ nodes. nodes.items ≡ text_node text) }
{
    let mut nodes = Vec::new(alloc);
    if !text.is_empty() {
        nodes.push(Node::Chars(text))?;
    }
    Ok(nodes)
}

/// Replaces a text of the element at a path.
pub(crate) fn replace_text(
    alloc: Global,
    path: &Path,
    place: usize,
    operation: &Element,
    tree: &mut Element,
) -> Result<(), ReadError<OperationError>>
    requires place_exists { IsSomeAnd (at path.now tree.old)
        (λ e. place < length (nodes_of e.content)) }
    requires height_bounded { height tree.old ≤ MAX_LEVELS }
    ensures as_specified { (c : List (List Decl))
        → ResultSatisfies (IsEditResult (replace_result c
        (spots.AtText path.now place) operation.now.content tree.old) tree.new) result }
{
    let found = content_value(alloc, operation)?;
    let Some(value) = found else {
        return Err(ReadError::Fault(OperationError::WrongNodes));
    };
    let nodes = text_nodes(alloc, value)?;
    exchange_node_at(tree, path, place, nodes)?;
    Ok(())
}

/// Removes a text of the element at a path.
pub(crate) fn remove_text(
    alloc: Global,
    path: &Path,
    place: usize,
    operation: &Element,
    tree: &mut Element,
) -> Result<(), ReadError<OperationError>>
    requires place_exists { IsSomeAnd (at path.now tree.old)
        (λ e. place < length (nodes_of e.content)) }
    requires height_bounded { height tree.old ≤ MAX_LEVELS }
    ensures as_specified { (before after : Bool)
        → ResultSatisfies (IsEditResult (remove_result before after
        (spots.AtText path.now place) operation.now.content tree.old) tree.new) result }
{
    if !has_only_comments(operation) {
        return Err(ReadError::Fault(OperationError::WrongNodes));
    }
    exchange_node_at(tree, path, place, Vec::new(alloc))?;
    Ok(())
}
