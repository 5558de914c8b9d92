//! Places among the nodes of a tree, and edits there, in place.
ghost use Rattle.std.specs.Prelude.{◌≡◌, ◌≤◌, ◌<◌, ◌+◌, suc, length, nat_le, true, IsSome};
ghost use Rattle.std.specs.Prelude.{IsSomeAnd, OnOk};
ghost use Rattle.xml_tree.specs.Edits.{change_at, parent_path};
ghost use Rattle.xml_tree.specs.Nodes.{exchange_nodes, nodes_of};
ghost use Rattle.xml_tree.specs.Tree.{at, height};
ghost use Rattle.patch_rules.specs.PatchOperations.{is_below_root, names_agree, nodes_at};
ghost use Rattle.patch_rules.specs.PatchOperations.{is_not_beside_root};
ghost use Rattle.patch_rules.specs.PatchOperations.{index_in_parent};
ghost use Rattle.xml_tree.specs.TreeScopes.{scope_around, scope_at};
ghost use Rattle.patch_apply.specs.inner.ContentNodes.{nodes_height};
ghost use Rattle.patch_apply.specs.inner.ActionResults.{insertion_place, insertion_path};
ghost use Rattle.patch_parse.specs.Views.{position_view};

use crate::nodes::{next_number, nodes_depth};
use patch_parse::{Position, names_agree};
use std::alloc::{AllocError, Global};
use xml_names::MAX_LEVELS;
use xml_tree::{Element, Node, Path, Scope, child_place, depth, element_at};

// ---- places

/// A place among nodes: the path of their element, and the number of the node after the place.
#[derive(Drop)]
pub struct InsertPosition {
    pub path: Path,
    pub place: usize,
}

/// The path of the parent of an element that isn't the root, and the number of the element among
/// the parent's nodes.
pub(crate) fn place_in_parent(tree: &Element, path: &Path) -> InsertPosition
    requires below { 0 < length path.now }
    requires place_exists { IsSome (at path.now tree.now) }
    ensures path_of_parent { result.path ≡ parent_path path.now }
    ensures place_in_nodes { result.place ≡ index_in_parent path.now tree.now }
    ensures within_nodes { IsSomeAnd (at result.path tree.now)
        (λ e. result.place < length (nodes_of e.content)) }
{
    let Some((parent, child)) = path.split_last() else {
        unreachable!()
    };
    let Some(element) = element_at(tree, &parent) else {
        unreachable!()
    };
    let place = child_place(element.nodes(), child);
    InsertPosition {
        path: parent,
        place,
    }
}

/// The number after a node of the element at a path.
pub(crate) fn number_after(tree: &Element, path: &Path, place: usize) -> usize
    requires within { IsSomeAnd (at path.now tree.now) (λ e. place < length (nodes_of e.content)) }
    ensures next_place { result ≡ suc place }
{
    let Some(element) = element_at(tree, path) else {
        unreachable!()
    };
    next_number(element.nodes(), place)
}

// The number of nodes of the element at a path.
fn node_count(tree: &Element, path: &Path) -> usize
    requires place_exists { IsSome (at path.now tree.now) }
    ensures exact { result ≡ length (nodes_at path.now tree.now) }
    ensures within_nodes { IsSomeAnd (at path.now tree.now)
        (λ e. result ≤ length (nodes_of e.content)) }
{
    let Some(element) = element_at(tree, path) else {
        unreachable!()
    };
    element.nodes().len()
}

/// Whether a path leads below the root.
pub(crate) fn is_below_root(path: &Path) -> bool
    ensures exact { result ≡ is_below_root path.now }
{
    match path.numbers() {
        [] => false,
        _ => true,
    }
}

/// Whether content can be put at a position: not beside the root.
pub(crate) fn is_not_beside_root(position: Position, path: &Path) -> bool
    ensures exact { result ≡ is_not_beside_root (position_view position) path.now }
{
    match position {
        Position::Append => true,
        Position::Prepend => true,
        Position::Before => is_below_root(path),
        Position::After => is_below_root(path),
    }
}

/// The place of content that is put at a position relative to an element.
pub(crate) fn insertion_place(position: Position, tree: &Element, path: Path) -> InsertPosition
    requires place_exists { IsSome (at path tree.now) }
    requires not_beside_root { is_not_beside_root (position_view position) path ≡ true }
    ensures insert_path { result.path ≡ insertion_path (position_view position) path }
    ensures insert_place { result.place ≡ insertion_place (position_view position) path tree.now }
    ensures within_nodes { IsSomeAnd (at result.path tree.now)
        (λ e. result.place ≤ length (nodes_of e.content)) }
{
    match position {
        Position::Append => {
            let place = node_count(tree, &path);
            InsertPosition { path, place }
        }
        Position::Prepend => InsertPosition { path, place: 0 },
        Position::Before => place_in_parent(tree, &path),
        Position::After => {
            let InsertPosition { path, place } = place_in_parent(tree, &path);
            let place = number_after(tree, &path, place);
            InsertPosition { path, place }
        }
    }
}

// ---- depth

/// Whether nodes fit into the element at a path, by their depth.
pub(crate) fn nodes_fit_depth(path: &Path, nodes: &[Node]) -> bool
    ensures exact { result ≡ nat_le (length path.now + suc (nodes_height nodes.now)) MAX_LEVELS }
{
    nodes_depth(nodes).saturating_add(path.numbers().len() + 1) <= MAX_LEVELS
}

/// Whether an element fits at a path, by its depth.
pub(crate) fn element_fits_depth(path: &Path, element: &Element) -> bool
    ensures exact { result ≡ nat_le (length path.now + height element.now) MAX_LEVELS }
{
    depth(element).saturating_add(path.numbers().len()) <= MAX_LEVELS
}

// ---- scopes

/// Whether the names in an operation mean the same in the scope at it and in the scope at the
/// element of a path.
pub(crate) fn names_agree_at(
    alloc: Global,
    here: &Scope<'_>,
    tree: &Element,
    path: &Path,
    operation: &Element,
) -> bool
    requires place_exists { IsSome (at path.now tree.now) }
    ensures exact { result
        ≡ names_agree here.now (scope_at path.now tree.now) operation.now.content }
{
    let Some(there) = Scope::at(tree, path) else {
        unreachable!()
    };
    names_agree(alloc, here, &there, operation)
}

/// Whether the names in an operation mean the same in the scope at it and in the scope around the
/// element of a path.
pub(crate) fn names_agree_around(
    alloc: Global,
    here: &Scope<'_>,
    tree: &Element,
    path: &Path,
    operation: &Element,
) -> bool
    requires place_exists { IsSome (at path.now tree.now) }
    ensures exact { result
        ≡ names_agree here.now (scope_around path.now tree.now) operation.now.content }
{
    match path.split_last() {
        None => names_agree(alloc, here, &Scope::empty(), operation),
        Some((parent, _)) => names_agree_at(alloc, here, tree, &parent, operation),
    }
}

// ---- edits

/// Replaces the nodes of the element at a path, from one number to before another.
pub(crate) fn exchange_nodes_at(
    tree: &mut Element,
    path: &Path,
    from: usize,
    to: usize,
    nodes: Vec<Node>,
) -> Result<(), AllocError>
    requires range_ordered { from ≤ to }
    requires within { IsSomeAnd (at path.now tree.old) (λ e. to ≤ length (nodes_of e.content)) }
    ensures tree_changed { OnOk result
        (tree.new ≡ change_at path.now (exchange_nodes from to nodes.items) tree.old) }
{
    tree.edit_at(
        path,
        |here: &mut Element| -> Result<(), AllocError>
            requires range_ordered { from ≤ to }
            requires within { to ≤ length (nodes_of here.old.content) }
            ensures here_changed { OnOk result
                (here.new ≡ exchange_nodes from to nodes.items here.old) }
        { here.exchange_nodes(from, to, nodes) },
    )
}

/// Replaces one node of the element at a path.
pub(crate) fn exchange_node_at(
    tree: &mut Element,
    path: &Path,
    place: usize,
    nodes: Vec<Node>,
) -> Result<(), AllocError>
    requires within { IsSomeAnd (at path.now tree.old) (λ e. place < length (nodes_of e.content)) }
    ensures ok { OnOk result
        (tree.new ≡ change_at path.now (exchange_nodes place (suc place) nodes.items) tree.old) }
{
    let next = number_after(tree, path, place);
    exchange_nodes_at(tree, path, place, next, nodes)
}
