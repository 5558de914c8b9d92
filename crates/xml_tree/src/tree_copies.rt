//! Whole trees: their depth, copies, and equality.
ghost use Rattle.std.specs.Prelude.{◌≡◌, ◌↔◌, ◌++◌, ◌∷◌, [], IsTrue, IfOk, OnOk, min};
ghost use Rattle.xml_tree.specs.Tree.{height, last};

use crate::tree::{Element, Node};
use std::alloc::{AllocError, Global};
use xml_names::{copy_attrs, copy_decls, same_attrs, same_decls};

/// The depth of an element, 1 if it has no child elements; `usize::MAX` if it is greater. Does
/// not allocate.
pub fn depth(element: &Element) -> usize
    ensures exact { result ≡ min (height element.now) usize.MAX }
{
    let mut below = 0usize;
    for node in &element.nodes {
        if let Node::Elem(child_element) = node {
            below = below.max(depth(child_element));
        }
    }
    below.saturating_add(1)
}

/// A copy of a tree.
///
/// # Errors
/// `AllocError` when out of memory.
#[cycle(copy)]
pub fn copy_tree(alloc: Global, element: &Element) -> Result<Element, AllocError>
    ensures equal_copy { IfOk result (λ made. made ≡ element.now) }
{
    let mut made = copy_tag(alloc, element)?;
    let nodes = copy_nodes(alloc, &element.nodes)?;
    made.put_nodes(nodes);
    Ok(made)
}

// A copy of an element without its nodes.
fn copy_tag(alloc: Global, element: &Element) -> Result<Element, AllocError>
    ensures ok { IfOk result (λ made. made ≡ record element.now { content = last [] }) }
{
    let name = element.name.copy(alloc)?;
    let decls = copy_decls(alloc, &element.decls)?;
    let attrs = copy_attrs(alloc, &element.attrs)?;
    Ok(Element {
        name,
        decls,
        attrs,
        nodes: Vec::new(alloc),
    })
}

/// Copies of nodes, in their order.
///
/// # Errors
/// `AllocError` when out of memory.
#[cycle(copy)]
pub fn copy_nodes(alloc: Global, nodes: &[Node]) -> Result<Vec<Node>, AllocError>
    ensures equal_copy { IfOk result (λ made. made.items ≡ nodes.now) }
{
    let mut made = Vec::with_capacity(alloc, nodes.len())?;
    for node in nodes {
        push_copy(alloc, node, &mut made)?;
    }
    Ok(made)
}

// Appends a copy of a node. It is made at its final place, as nodes are large.
#[cycle(copy)]
fn push_copy(alloc: Global, node: &Node, made: &mut Vec<Node>) -> Result<(), AllocError>
    ensures appended { OnOk result (made.new.items ≡ made.old.items ++ node.now ∷ []) }
{
    match node {
        Node::Elem(child_element) => push_node(made, Node::Elem(copy_tree(alloc, child_element)?)),
        Node::Chars(text) => push_node(made, Node::Chars(text.copy(alloc)?)),
        Node::Comment(text) => push_node(made, Node::Comment(text.copy(alloc)?)),
    }
}

// Appends a node.
#[inline(always)]
fn push_node(made: &mut Vec<Node>, node: Node) -> Result<(), AllocError>
    ensures adds_node { OnOk result (made.new.items ≡ made.old.items ++ node ∷ []) }
{
    made.push(node)?;
    Ok(())
}

/// Whether two trees are equal, prefixes and the order of declarations and attributes included.
/// Does not allocate.
#[cycle(equal)]
pub fn equal(a: &Element, b: &Element) -> bool
    ensures exact { IsTrue result ↔ (a.now ≡ b.now) }
{
    if !a.name.same(&b.name) {
        return false;
    }
    if !same_decls(&a.decls, &b.decls) || !same_attrs(&a.attrs, &b.attrs) {
        return false;
    }
    equal_nodes(&a.nodes, &b.nodes)
}

#[cycle(equal)]
fn equal_nodes(a: &[Node], b: &[Node]) -> bool
    ensures exact { IsTrue result ↔ (a.now ≡ b.now) }
{
    if a.len() != b.len() {
        return false;
    }
    for i in 0..a.len() {
        if !equal_node(&a[i], &b[i]) {
            return false;
        }
    }
    true
}

#[cycle(equal)]
fn equal_node(a: &Node, b: &Node) -> bool
    ensures exact { IsTrue result ↔ (a.now ≡ b.now) }
{
    match (a, b) {
        (Node::Elem(a), Node::Elem(b)) => equal(a, b),
        (Node::Chars(a), Node::Chars(b)) => a.same(b),
        (Node::Comment(a), Node::Comment(b)) => a.same(b),
        _ => false,
    }
}
