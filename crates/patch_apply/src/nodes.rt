//! Nodes of an element: texts by number, and the depth of nodes.
ghost use Rattle.std.specs.Prelude.{◌≡◌, ◌<◌, min, suc, length, IfSome};
ghost use Rattle.patch_rules.specs.PatchOperations.{is_space_at, selected_text, has_space_before};
ghost use Rattle.patch_rules.specs.PatchOperations.{text_number, count_texts};
ghost use Rattle.patch_apply.specs.inner.ContentNodes.{is_blank_node, nodes_height};

use patch_parse::is_blank;
use xml_tree::{Node, depth};

// ---- texts

// The number of the k-th text among nodes, counted from 1.
fn text_number(nodes: &[Node], k: u64) -> Option<usize>
    requires { 0 < k }
    ensures exact { result ≡ text_number 0 k nodes.now }
    ensures lies_within { IfSome result (λ i. i < length nodes.now) }
{
    let mut left = k;
    for (i, node) in nodes.iter().enumerate() {
        if node.is_text() {
            if left == 1 {
                return Some(i);
            }
            left -= 1;
        }
    }
    None
}

// The number of texts among nodes.
fn count_texts(nodes: &[Node]) -> usize
    ensures exact { result ≡ count_texts nodes.now }
{
    let mut count = 0;
    for node in nodes {
        if node.is_text() {
            count += 1;
        }
    }
    count
}

/// The text that is meant among nodes: the one at a position, or the only one.
pub(crate) fn selected_text(nodes: &[Node], position: Option<u64>) -> Option<usize>
    ensures number_of_text { result ≡ selected_text position nodes.now }
    ensures lies_within { IfSome result (λ i. i < length nodes.now) }
{
    match position {
        Some(k) => {
            if k == 0 {
                return None;
            }
            text_number(nodes, k)
        }
        None => {
            if count_texts(nodes) != 1 {
                return None;
            }
            text_number(nodes, 1)
        }
    }
}

/// The number after a node.
pub(crate) fn next_number(nodes: &[Node], place: usize) -> usize
    requires { place < length nodes.now }
    ensures next_place { result ≡ suc place }
{
    place + 1
}

// ---- white space

// Whether a node is a text of white space alone.
fn is_blank_node(node: &Node) -> bool
    ensures exact { result ≡ is_blank_node node.now }
{
    match node {
        Node::Elem(_) => false,
        Node::Chars(text) => is_blank(text),
        Node::Comment(_) => false,
    }
}

/// Whether the node of this number is a text of white space alone.
pub(crate) fn is_space_at(nodes: &[Node], place: usize) -> bool
    ensures exact { result ≡ is_space_at place nodes.now }
{
    place < nodes.len() && is_blank_node(&nodes[place])
}

/// Whether the node before this number is a text of white space alone.
pub(crate) fn is_space_before(nodes: &[Node], place: usize) -> bool
    ensures exact { result ≡ has_space_before place nodes.now }
{
    place > 0 && is_space_at(nodes, place - 1)
}

// ---- depth

/// The depth of nodes: how many elements are one in another; the greatest `usize` where there are
/// more.
pub(crate) fn nodes_depth(nodes: &[Node]) -> usize
    ensures exact { result ≡ min (nodes_height nodes.now) usize.MAX }
{
    let mut deepest = 0usize;
    for node in nodes {
        if let Node::Elem(element) = node {
            deepest = deepest.max(depth(element));
        }
    }
    deepest
}
