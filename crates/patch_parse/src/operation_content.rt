//! The content of an operation (RFC 5261, section 4).
ghost use Rattle.std.specs.Prelude.{◌≡◌, IfOk, chars};
ghost use Rattle.std.specs.List.{list_all};
ghost use Rattle.std.specs.Option.{option_copied};
ghost use Rattle.patch_rules.specs.PatchOperations.{has_only_comments, is_white_space};
ghost use Rattle.patch_rules.specs.PatchOperations.{sole_element, content_value};
ghost use Rattle.patch_parse.specs.inner.OperationContents.{is_element_or_blank, is_comment};
ghost use Rattle.patch_parse.specs.inner.OperationContents.{joined_text};

use std::alloc::{AllocError, Global};
use xml_names::{Text, is_space};
use xml_tokens::empty_text;
use xml_tree::{Element, Node};

// Whether characters are white space alone.
fn is_white_space(text: &str) -> bool
    ensures exact { result ≡ is_white_space (chars text.now) }
{
    text.chars().all(|c| is_space(c))
}

/// Whether a text is white space alone.
pub fn is_blank(text: &Text) -> bool
    ensures exact { result ≡ is_white_space text.now }
{
    is_white_space(text.as_str())
}

// The texts among nodes, joined; none where an element is among them.
fn joined_text(alloc: Global, nodes: &[Node]) -> Result<Option<Text>, AllocError>
    ensures ok { IfOk result (λ text. text ≡ joined_text nodes.now) }
{
    let mut value = empty_text(alloc);
    for node in nodes {
        match node {
            Node::Elem(_) => return Ok(None),
            Node::Chars(text) => value.push_str(text.as_str())?,
            Node::Comment(_) => {}
        }
    }
    Ok(Some(value))
}

/// The texts in an element, joined; none where an element is in it. Comments are ignored.
///
/// # Errors
/// `AllocError` when out of memory.
pub fn content_value(alloc: Global, operation: &Element) -> Result<Option<Text>, AllocError>
    ensures ok { IfOk result (λ value. value ≡ content_value operation.now.content) }
{
    joined_text(alloc, operation.nodes())
}

// Whether a node is an element, a comment or white space.
fn is_element_or_blank(node: &Node) -> bool
    ensures exact { result ≡ is_element_or_blank node.now }
{
    match node {
        Node::Elem(_) => true,
        Node::Chars(text) => is_blank(text),
        Node::Comment(_) => true,
    }
}

// Whether each node is an element, a comment or white space.
fn are_elements_or_blanks(nodes: &[Node]) -> bool
    ensures exact { result ≡ list_all is_element_or_blank nodes.now }
{
    nodes.iter().all(|node| is_element_or_blank(node))
}

/// The one element in an element that has at most white space and comments beside it.
pub fn sole_element(operation: &Element) -> Option<&Element>
    ensures exact { option_copied result ≡ sole_element operation.now.content }
{
    if operation.child_element(1).is_some() {
        return None;
    }
    if !are_elements_or_blanks(operation.nodes()) {
        return None;
    }
    operation.child_element(0)
}

// Whether a node is a comment.
fn is_comment(node: &Node) -> bool
    ensures exact { result ≡ is_comment node.now }
{
    match node {
        Node::Elem(_) => false,
        Node::Chars(_) => false,
        Node::Comment(_) => true,
    }
}

// Whether all nodes are comments.
fn are_comments(nodes: &[Node]) -> bool
    ensures exact { result ≡ list_all is_comment nodes.now }
{
    nodes.iter().all(|node| is_comment(node))
}

/// Whether an element has neither elements nor texts in it.
pub fn has_only_comments(operation: &Element) -> bool
    ensures exact { result ≡ has_only_comments operation.now.content }
{
    are_comments(operation.nodes())
}
