//! The length of the print of an element, counted from the tree without printing.
ghost use Rattle.std.specs.Prelude.{◌≡◌, min};
ghost use Rattle.xml_names.specs.Markup.{byte_len, tag_front, print_comment};
ghost use Rattle.xml_tree.specs.Print.{print};
ghost use Rattle.xml_tree.specs.inner.Print.{print_node};

use crate::tree::{Element, Node};
use xml_names::{Text, attrs_len, decls_len, escaped_text_len, name_len};

// The length of the name, declarations and attributes of an element.
#[tactic(auto, using(xml_names::proofs::PrintLengths::lengths))]
fn tag_front_len(element: &Element) -> usize
    ensures exact { result
        ≡ min
        (byte_len (tag_front element.now.name element.now.decls element.now.attrs))
        usize.MAX }
{
    let names = name_len(element.name());
    let lists = decls_len(element.decls()).saturating_add(attrs_len(element.attrs()));
    names.saturating_add(lists).saturating_add(1)
}

// The length of a comment.
#[tactic(auto, using(xml_names::proofs::PrintLengths::lengths))]
fn comment_len(text: &Text) -> usize
    ensures exact { result ≡ min (byte_len (print_comment text.now)) usize.MAX }
{
    text.as_str().len().saturating_add(7)
}

/// The length in bytes of the print of an element; `usize::MAX` if it is longer. Does not
/// allocate.
#[cycle(printed)]
#[tactic(auto, using(xml_names::proofs::PrintLengths::lengths))]
pub fn printed_len(element: &Element) -> usize
    ensures exact { result ≡ min (byte_len (print element.now)) usize.MAX }
{
    let tag_front = tag_front_len(element);
    let nodes = element.nodes();
    if nodes.is_empty() {
        return tag_front.saturating_add(2);
    }
    let mut inside = 0usize;
    for node in nodes {
        inside = inside.saturating_add(node_len(node));
    }
    tag_front
        .saturating_add(inside)
        .saturating_add(name_len(element.name()))
        .saturating_add(4)
}

// The length of the print of a node.
#[cycle(printed)]
#[tactic(auto, using(xml_names::proofs::PrintLengths::lengths))]
fn node_len(node: &Node) -> usize
    ensures exact { result ≡ min (byte_len (print_node node.now)) usize.MAX }
{
    match node {
        Node::Elem(element) => printed_len(element),
        Node::Chars(text) => escaped_text_len(text.as_str().as_bytes()),
        Node::Comment(text) => comment_len(text),
    }
}
