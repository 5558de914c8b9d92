//! The tree after a change as a new one, built from the nodes up: the plain program for `edited`.
ghost use Rattle.std.specs.Prelude.{◌≡◌, ◌<◌, ◌≤◌, ◌++◌, [], ◌∷◌, length, IfOk, IsSomeAnd, OnOk};
ghost use Rattle.xml_tree.specs.Tree.{at, child_elements_of, last, tree_of};
ghost use Rattle.xml_names.specs.Attributes.{with_attr, without_attr};
ghost use Rattle.xml_tree.specs.Edits.{change_at, change_child, cut_child, drop_attr, put_kid};
ghost use Rattle.xml_tree.specs.Edits.{set_attr_value};
ghost use Rattle.xml_tree.specs.Nodes.{content_of};
ghost use Rattle.xml_tree.specs.declared.tree.Node.TheVariants as node;
ghost use Rattle.edit_ops.specs.Changes.{FitsTree, edited};
ghost use Rattle.edit_ops.specs.inner.LocalChanges.{FitsLocally, local_result};

use crate::change::{Change, site_of};
use std::alloc::{AllocError, Global};
use xml_names::{Attr, Decl, Name, Text};
use xml_tree::{Element, Node, child_place, copy_nodes, copy_tree, place_of_insertion};

// ---- an element, part by part

// An element with the name and declarations of another, and nothing else.
fn bare_copy(alloc: Global, element: &Element) -> Result<Element, AllocError>
    ensures ok { IfOk result
        (λ made. made ≡ tree_of element.now.name element.now.decls [] (last [])) }
{
    let mut made = Element::new(alloc, element.name().copy(alloc)?);
    push_decls(alloc, &mut made, element.decls())?;
    Ok(made)
}

fn push_decls(alloc: Global, made: &mut Element, decls: &[Decl]) -> Result<(), AllocError>
    ensures adds_declarations { OnOk result
        (made.new ≡ record made.old { decls = made.old.decls ++ decls.now }) }
{
    for decl in decls {
        let copy = decl.copy(alloc)?;
        made.push_decl(copy)?;
    }
    Ok(())
}

fn push_attr(alloc: Global, made: &mut Element, attr: &Attr) -> Result<(), AllocError>
    ensures adds_attribute { OnOk result
        (made.new ≡ record made.old { attrs = made.old.attrs ++ attr.now ∷ [] }) }
{
    let copy = attr.copy(alloc)?;
    made.push_attr(copy)
}

fn push_attrs(alloc: Global, made: &mut Element, attrs: &[Attr]) -> Result<(), AllocError>
    ensures appended { OnOk result
        (made.new ≡ record made.old { attrs = made.old.attrs ++ attrs.now }) }
{
    for attr in attrs {
        push_attr(alloc, made, attr)?;
    }
    Ok(())
}

// Appends an attribute of a copied name and value.
fn push_new_attr(
    alloc: Global,
    made: &mut Element,
    name: &Name,
    value: &Text,
) -> Result<(), AllocError>
    ensures appended { OnOk result
        (made.new ≡ record made.old {
          attrs = made.old.attrs ++ record { name = name.now; value = value.now } ∷ [];
        }) }
{
    let name = name.copy(alloc)?;
    let value = value.copy(alloc)?;
    made.push_attr(Attr { name, value })
}

// Appends copies of attributes, with the value in the one of this name, or else in a new one.
fn push_attrs_with(
    alloc: Global,
    made: &mut Element,
    attrs: &[Attr],
    name: &Name,
    value: &Text,
) -> Result<(), AllocError>
    ensures appended { OnOk result
        (made.new ≡ record made.old {
          attrs = made.old.attrs ++ with_attr name.now value.now attrs.now;
        }) }
{
    for (i, attr) in attrs.iter().enumerate() {
        if attr.name.same(name) {
            push_new_attr(alloc, made, &attr.name, value)?;
            return push_attrs(alloc, made, attrs.split_at(i + 1).1);
        }
        push_attr(alloc, made, attr)?;
    }
    push_new_attr(alloc, made, name, value)
}

// Appends copies of attributes, without the one of this name.
fn push_other_attrs(
    alloc: Global,
    made: &mut Element,
    attrs: &[Attr],
    name: &Name,
) -> Result<(), AllocError>
    ensures appended { OnOk result
        (made.new ≡ record made.old { attrs = made.old.attrs ++ without_attr name.now attrs.now }) }
{
    for (i, attr) in attrs.iter().enumerate() {
        if attr.name.same(name) {
            return push_attrs(alloc, made, attrs.split_at(i + 1).1);
        }
        push_attr(alloc, made, attr)?;
    }
    Ok(())
}

// Gives an element without nodes copies of another element's nodes.
fn copy_nodes_into(alloc: Global, made: &mut Element, element: &Element) -> Result<(), AllocError>
    requires { made.old.content ≡ last [] }
    ensures adds_equal_nodes { OnOk result
        (made.new ≡ record made.old { content = element.now.content }) }
{
    let nodes = copy_nodes(alloc, element.nodes())?;
    made.exchange_nodes(0, 0, nodes)
}

// ---- nodes

fn push_nodes(alloc: Global, made: &mut Vec<Node>, nodes: &[Node]) -> Result<(), AllocError>
    ensures adds_equal_nodes { OnOk result (made.new.items ≡ made.old.items ++ nodes.now) }
{
    let mut rest = copy_nodes(alloc, nodes)?;
    made.append(&mut rest)?;
    Ok(())
}

// Copies of nodes, an element, and copies of further nodes.
fn copy_nodes_around(
    alloc: Global,
    before: &[Node],
    element: Element,
    after: &[Node],
) -> Result<Vec<Node>, AllocError>
    ensures ok { IfOk result (λ made. made.items ≡ before.now ++ node.Elem element ∷ after.now) }
{
    let mut made = copy_nodes(alloc, before)?;
    made.push(Node::Elem(element))?;
    push_nodes(alloc, &mut made, after)?;
    Ok(made)
}

// Copies of nodes, and of further nodes.
fn join_nodes(alloc: Global, before: &[Node], after: &[Node]) -> Result<Vec<Node>, AllocError>
    ensures ok { IfOk result (λ made. made.items ≡ before.now ++ after.now) }
{
    let mut made = copy_nodes(alloc, before)?;
    push_nodes(alloc, &mut made, after)?;
    Ok(made)
}

// ---- one element after a change of it

// An element with these nodes in place of its own.
fn with_nodes(alloc: Global, element: &Element, nodes: Vec<Node>) -> Result<Element, AllocError>
    ensures ok { IfOk result
        (λ made. made ≡ record element.now { content = content_of nodes.items }) }
{
    let mut made = without_children(alloc, element)?;
    made.exchange_nodes(0, 0, nodes)?;
    Ok(made)
}

// The element with another inserted into a gap.
#[tactic(auto, using(xml_tree::proofs::Places::places, crate::proofs::NodeLemmas::parts))]
fn with_element(
    alloc: Global,
    element: &Element,
    gap: usize,
    put: &Element,
) -> Result<Element, AllocError>
    requires { gap ≤ length (child_elements_of element.now) }
    ensures ok { IfOk result (λ made. made ≡ put_kid gap put.now element.now) }
{
    let nodes = element.nodes();
    let (before, after) = nodes.split_at(place_of_insertion(nodes, gap));
    let put = copy_tree(alloc, put)?;
    let nodes = copy_nodes_around(alloc, before, put, after)?;
    with_nodes(alloc, element, nodes)
}

// The element with a child replaced.
#[tactic(auto, using(xml_tree::proofs::Places::places, crate::proofs::NodeLemmas::parts))]
fn with_child(
    alloc: Global,
    element: &Element,
    child: usize,
    put: Element,
) -> Result<Element, AllocError>
    requires { child < length (child_elements_of element.now) }
    ensures ok { IfOk result (λ made. made ≡ change_child child (λ _. put) element.now) }
{
    let nodes = element.nodes();
    let at = child_place(nodes, child);
    let nodes = copy_nodes_around(alloc, nodes.split_at(at).0, put, nodes.split_at(at + 1).1)?;
    with_nodes(alloc, element, nodes)
}

// The element without a child.
#[tactic(auto, using(xml_tree::proofs::Places::places, crate::proofs::NodeLemmas::parts))]
fn without_child(alloc: Global, element: &Element, child: usize) -> Result<Element, AllocError>
    requires { child < length (child_elements_of element.now) }
    ensures ok { IfOk result (λ made. made ≡ cut_child child element.now) }
{
    let nodes = element.nodes();
    let at = child_place(nodes, child);
    let nodes = join_nodes(alloc, nodes.split_at(at).0, nodes.split_at(at + 1).1)?;
    with_nodes(alloc, element, nodes)
}

// The element with an attribute of this name and value.
fn with_attr(
    alloc: Global,
    element: &Element,
    name: &Name,
    value: &Text,
) -> Result<Element, AllocError>
    ensures writes_attribute { IfOk result
        (λ made. made ≡ set_attr_value name.now value.now element.now) }
{
    let mut made = bare_copy(alloc, element)?;
    push_attrs_with(alloc, &mut made, element.attrs(), name, value)?;
    copy_nodes_into(alloc, &mut made, element)?;
    Ok(made)
}

// The element without the attribute of this name.
fn without_attr(alloc: Global, element: &Element, name: &Name) -> Result<Element, AllocError>
    ensures ok { IfOk result (λ made. made ≡ drop_attr name.now element.now) }
{
    let mut made = bare_copy(alloc, element)?;
    push_other_attrs(alloc, &mut made, element.attrs(), name)?;
    copy_nodes_into(alloc, &mut made, element)?;
    Ok(made)
}

// ---- the elements on the path

// The element that a change is made in, after it.
#[tactic(auto, using(crate::proofs::WayLemmas::parents))]
fn rebuild_here(alloc: Global, element: &Element, change: &Change) -> Result<Element, AllocError>
    requires { FitsLocally change.now element.now }
    ensures ok { IfOk result (λ made. made ≡ local_result change.now element.now) }
{
    match change {
        Change::CreateDocument { root: _ } => unreachable!(),
        Change::Insert {
            gap,
            element: put,
            ..
        } => with_element(alloc, element, *gap, put),
        Change::Replace { element: other, .. } => copy_tree(alloc, other),
        Change::Remove { at } => match at.split_last() {
            None => unreachable!(),
            Some((_, child)) => without_child(alloc, element, child),
        },
        Change::SetAttr { name, value, .. } => with_attr(alloc, element, name, value),
        Change::DropAttr { name, .. } => without_attr(alloc, element, name),
        Change::RemoveDocument => unreachable!(),
    }
}

// The element at the start of a path to the element that a change is made in, after it.
fn rebuild_below(
    alloc: Global,
    element: &Element,
    way: &[usize],
    change: &Change,
) -> Result<Element, AllocError>
    requires { IsSomeAnd (at way.now element.now) (FitsLocally change.now) }
    ensures ok { IfOk result (λ made. made
        ≡ change_at way.now (local_result change.now) element.now) }
{
    let [child, way @ ..] = way else {
        return rebuild_here(alloc, element, change);
    };
    let Some(child_element) = element.child_element(*child) else {
        unreachable!()
    };
    let made = rebuild_below(alloc, child_element, way, change)?;
    with_child(alloc, element, *child, made)
}

/// The tree after a change, as a new one. The change fits the tree, as for `apply_change`.
///
/// # Errors
/// `AllocError` when out of memory.
pub fn rebuilt(alloc: Global, root: &Element, change: &Change) -> Result<Element, AllocError>
    requires { FitsTree root.now change.now }
    ensures makes_change { IfOk result (λ made. made ≡ edited root.now change.now) }
{
    rebuild_below(alloc, root, site_of(change).numbers(), change)
}

/// An element with another's name, declarations and attributes, and without content.
///
/// # Errors
/// `AllocError` when out of memory.
pub fn without_children(alloc: Global, element: &Element) -> Result<Element, AllocError>
    ensures ok { IfOk result
        (λ tag. tag ≡ tree_of element.now.name element.now.decls element.now.attrs (last [])) }
{
    let mut made = bare_copy(alloc, element)?;
    push_attrs(alloc, &mut made, element.attrs())?;
    Ok(made)
}
