//! Empty elements, which have only a name, built in their final place: among the nodes of their
//! parents.
ghost use Rattle.std.specs.Prelude.{◌≡◌, ◌<◌, ◌++◌, ◌∷◌, [], chars, length, take, vec_capacity};
ghost use Rattle.std.specs.Prelude.{vec_len, OnOk};
ghost use Rattle.xml_tree.specs.Tree.{last, tree_of};
ghost use Rattle.xml_tree.specs.declared.tree.Node.TheVariants.{Elem};
ghost use Rattle.xml_tokens.specs.readers.TokenViews.{raw_name_view};
ghost use Rattle.tree_text.specs.readers.Views.{BeginsWithLocal};

use crate::start_tags::RawStartTag;
use std::alloc::{AllocError, Global};
use xml_grammar::{empty_str, split_first};
use xml_names::{LocalName, Name, Prefix};
use xml_tokens::{RawName, to_owned_name};
use xml_tree::{Element, Node};

/// Reserves capacity for one more node, exactly one where there is none: most elements have one
/// node or none.
#[inline(always)]
fn reserve_one_node(nodes: &mut Vec<Node>) -> Result<(), AllocError>
    ensures same_nodes { OnOk result (nodes.new.items ≡ nodes.old.items) }
    ensures room_for_one { OnOk result (vec_len nodes.new < vec_capacity nodes.new) }
{
    if nodes.is_empty() {
        return nodes.reserve_exact(1);
    }
    nodes.reserve(1)
}

/// Appends an empty element of this name; capacity for it is reserved.
#[inline(always)]
fn push_empty_named(alloc: Global, nodes: &mut Vec<Node>, name: Name)
    requires room_left { vec_len nodes.old < vec_capacity nodes.old }
    ensures appends_bare { nodes.new.items
        ≡ nodes.old.items ++ Elem (tree_of name [] [] (last [])) ∷ [] }
{
    nodes.push_reserved(Node::Elem(Element::new(alloc, name)));
}

/// Appends an empty element of a name of these parts.
#[inline(never)]
fn push_empty_prefixed(
    alloc: Global,
    nodes: &mut Vec<Node>,
    prefix: &str,
    local: &str,
) -> Result<(), AllocError>
    requires room_left { vec_len nodes.old < vec_capacity nodes.old }
    ensures appends_bare { OnOk result
        (nodes.new.items ≡ nodes.old.items ++ Elem
        (tree_of (record { prefix = chars prefix.now; local = chars local.now }) [] [] (last []))
        ∷ []) }
{
    let name = to_owned_name(alloc, &RawName { prefix, local })?;
    push_empty_named(alloc, nodes, name);
    Ok(())
}

/// Appends an empty element of a name without a prefix that the text begins with. Most are short.
#[inline(always)]
fn push_empty_local(
    alloc: Global,
    nodes: &mut Vec<Node>,
    local: &str,
    text: &str,
) -> Result<(), AllocError>
    requires room_left { vec_len nodes.old < vec_capacity nodes.old }
    requires is_front { local.now ≡ take (length local.now) text.now }
    ensures appends_bare { OnOk result
        (nodes.new.items ≡ nodes.old.items ++ Elem
        (tree_of (record { prefix = []; local = chars local.now }) [] [] (last [])) ∷ []) }
{
    let bytes = text.as_bytes();
    if !LocalName::fits_front(local, bytes) {
        return push_empty_prefixed(alloc, nodes, empty_str(), local);
    }
    let name = Name {
        prefix: Prefix::empty(),
        local: LocalName::copy_front(local, bytes),
    };
    push_empty_named(alloc, nodes, name);
    Ok(())
}

/// Appends an empty element with the name of a start tag. Most names have no prefix.
#[inline(always)]
pub fn push_empty_element(
    alloc: Global,
    nodes: &mut Vec<Node>,
    start_tag: &RawStartTag<'_>,
) -> Result<(), AllocError>
    requires is_front { BeginsWithLocal start_tag.now }
    ensures appends_bare { OnOk result
        (nodes.new.items ≡ nodes.old.items ++ Elem
        (tree_of (raw_name_view start_tag.now.written) [] [] (last [])) ∷ []) }
{
    reserve_one_node(nodes)?;
    match split_first(start_tag.written.prefix) {
        Some(_) => push_empty_prefixed(
            alloc,
            nodes,
            start_tag.written.prefix,
            start_tag.written.local,
        ),
        None => push_empty_local(alloc, nodes, start_tag.written.local, start_tag.from),
    }
}
