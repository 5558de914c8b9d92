//! Runs of nodes: how one is replaced by another so that no two texts meet.
ghost use Rattle.std.specs.Prelude.{◌≡◌, ◌≤◌, ◌++◌, ◌∷◌, [], false, length, IfOk, OnOk, OnErr};
ghost use Rattle.std.specs.Prelude.{take, drop};
ghost use Rattle.xml_tree.specs.Nodes.{AreNormalized, StartsWithoutText, content_of};
ghost use Rattle.xml_tree.specs.inner.Nodes.{ends_in_text};

use crate::nodes::{push_comment_node, push_elem_node, push_owned_text, text_at};
use crate::tree::Node;
use std::alloc::{AllocError, Global};

// Appends a node: a text joins a text that is last, and an empty one is ignored.
#[tactic(auto, using(crate::proofs::Places::pushes))]
fn push_node(nodes: &mut Vec<Node>, node: Node) -> Result<(), AllocError>
    ensures stays_normal { AreNormalized nodes.old.items → AreNormalized nodes.new.items }
    ensures adds_node { OnOk result
        (content_of nodes.new.items ≡ content_of (nodes.old.items ++ node ∷ [])) }
{
    match node {
        Node::Elem(element) => push_elem_node(nodes, element),
        Node::Chars(text) => push_owned_text(nodes, text),
        Node::Comment(text) => push_comment_node(nodes, text),
    }
}

// These nodes, with texts that meet joined and empty ones left out.
fn merge_adjacent_texts(alloc: Global, nodes: Vec<Node>) -> Result<Vec<Node>, AllocError>
    ensures stays_normal { IfOk result (λ made. AreNormalized made.items) }
    ensures same_content { IfOk result (λ made. content_of made.items ≡ content_of nodes.items) }
{
    let mut made = Vec::new(alloc);
    for node in nodes {
        push_node(&mut made, node)?;
    }
    Ok(made)
}

// Prepends a copy of the text directly before a place to other nodes, and returns where the text
// is; or, where there isn't a text, the place itself.
fn take_text_before(nodes: &[Node], place: usize, more: &mut Vec<Node>) -> Result<usize, AllocError>
    requires { place ≤ length nodes.now }
    ensures nodes_in_order { IfOk result
        (λ start. take start nodes.now ++ more.new.items ≡ take place nodes.now ++ more.old.items) }
    ensures lies_within { IfOk result (λ start. start ≤ place) }
    ensures no_adjoining_text { AreNormalized nodes.now
        → IfOk result (λ start. ends_in_text (take start nodes.now) ≡ false) }
{
    if place == 0 {
        return Ok(0);
    }
    let Some(text) = text_at(nodes, place - 1) else {
        return Ok(place);
    };
    let copy = text.copy(*more.allocator())?;
    more.insert(0, Node::Chars(copy))?;
    Ok(place - 1)
}

// Appends a copy of the text at a place to other nodes, and returns where the text ends; or,
// where there isn't a text, the place itself.
fn take_text_after(nodes: &[Node], place: usize, more: &mut Vec<Node>) -> Result<usize, AllocError>
    requires { place ≤ length nodes.now }
    ensures nodes_in_order { IfOk result
        (λ end. more.new.items ++ drop end nodes.now ≡ more.old.items ++ drop place nodes.now) }
    ensures lies_within { IfOk result (λ end. (place ≤ end) × (end ≤ length nodes.now)) }
    ensures no_adjoining_text { AreNormalized nodes.now
        → IfOk result (λ end. StartsWithoutText (drop end nodes.now)) }
{
    let Some(text) = text_at(nodes, place) else {
        return Ok(place);
    };
    let copy = text.copy(*more.allocator())?;
    more.push(Node::Chars(copy))?;
    Ok(place + 1)
}

// Replaces the nodes from one place to before another. Texts that meet are joined, and empty ones
// are dropped.
pub(crate) fn exchange_node_range(
    nodes: &mut Vec<Node>,
    from: usize,
    to: usize,
    mut new: Vec<Node>,
) -> Result<(), AllocError>
    requires range_ordered { from ≤ to }
    requires within { to ≤ length nodes.old.items }
    ensures stays_normal { AreNormalized nodes.old.items → AreNormalized nodes.new.items }
    ensures replaces_nodes { OnOk result (content_of nodes.new.items
        ≡ content_of (take from nodes.old.items ++ (new.items ++ drop to nodes.old.items))) }
    ensures err_unchanged { OnErr result (content_of nodes.new.items ≡ content_of nodes.old.items) }
{
    let start = take_text_before(nodes, from, &mut new)?;
    let end = take_text_after(nodes, to, &mut new)?;
    let joined = merge_adjacent_texts(*nodes.allocator(), new)?;
    let _gone = nodes.splice(start..end, joined)?;
    Ok(())
}
