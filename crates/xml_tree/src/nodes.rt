//! Work on the nodes of an element.
ghost use Rattle.std.specs.Prelude.{◌≡◌, ◌<◌, ◌≤◌, ◌+◌, ◌-◌, suc, length, vec_capacity, Some};
ghost use Rattle.std.specs.Prelude.{IsSome, IsOk, OnOk, OnErr, IfOk, IfErr, slice_get, slice_set};
ghost use Rattle.std.specs.Prelude.{remove, chars};
ghost use Rattle.xml_tree.specs.declared.tree.Node.TheVariants.{Chars};
ghost use Rattle.std.specs.Borrow.{sem};
ghost use Rattle.std.specs.Option.{option_copied};
ghost use Rattle.xml_tree.specs.Tree.{child_elements};
ghost use Rattle.xml_tree.specs.Edits.{TextsMeet, cut, put, with_comment, with_elem, with_text};
ghost use Rattle.xml_tree.specs.Nodes.{AreNormalized, content_of, gap_place, joined_neighbor_texts};
ghost use Rattle.xml_tree.specs.Nodes.{last_elem};
ghost use Rattle.xml_tree.specs.Nodes.{place, text_at};
ghost use Rattle.xml_tree.specs.inner.Nodes.{ends_in_text, without_node};
ghost use Rattle.xml_tree.specs.LastNodeBorrows.{LendsLastElement};
ghost use Rattle.xml_tree.specs.inner.NodeBorrows.{LendsChild};
ghost use Rattle.xml_tree.specs.Reservations.{HasCapacity};

use crate::tree::{Element, Node};
use std::alloc::{AllocError, AllocFailed, Global};
use std::mem;
use xml_names::Text;

/// The place of a child element among nodes, or the number of nodes if it is absent.
pub fn child_place(nodes: &[Node], child: usize) -> usize
    ensures exact { result ≡ place child nodes.now }
    ensures lies_within { result ≤ length nodes.now }
{
    let mut left = child;
    for (i, node) in nodes.iter().enumerate() {
        if let Node::Elem(_) = node {
            if left == 0 {
                return i;
            }
            left -= 1;
        }
    }
    nodes.len()
}

// A child element, if it exists.
#[tactic(auto, using(crate::proofs::Places::places))]
pub(crate) fn find_child(nodes: &[Node], child: usize) -> Option<&Element>
    ensures exact { option_copied result ≡ slice_get (child_elements (content_of nodes.now)) child }
{
    let mut left = child;
    for node in nodes {
        if let Node::Elem(element) = node {
            if left == 0 {
                return Some(element);
            }
            left -= 1;
        }
    }
    None
}

// A child element that exists, for writing.
#[tactic(auto, using(crate::proofs::Places::places))]
pub(crate) fn child_mut(nodes: &mut Vec<Node>, child: usize) -> &mut Element
    requires { child < length (child_elements (content_of nodes.old.items)) }
    ensures* writes_back { sem 𝓛 (LendsChild nodes.entry child result) }
    ensures lends_element { slice_get (child_elements (content_of nodes.old.items)) child
        ≡ Some result.now }
{
    let at = child_place(nodes, child);
    nodes[at].elem_mut()
}

/// The element that is the last node, for writing. Does not allocate.
#[inline(always)]
pub fn last_elem(nodes: &mut Vec<Node>) -> &mut Element
    requires { IsSome (last_elem nodes.old.items) }
    ensures* writes_back { sem 𝓛 (LendsLastElement nodes.entry result) }
    ensures lends_element { last_elem nodes.old.items ≡ Some result.now }
{
    let at = nodes.len() - 1;
    nodes[at].elem_mut()
}

// Appends an element.
#[inline(always)]
#[tactic(auto, using(crate::proofs::Places::places))]
pub(crate) fn push_elem_node(nodes: &mut Vec<Node>, element: Element) -> Result<(), AllocError>
    ensures stays_normal { AreNormalized nodes.old.items → AreNormalized nodes.new.items }
    ensures adds_element { OnOk result
        (content_of nodes.new.items ≡ with_elem element (content_of nodes.old.items)) }
    ensures err_unchanged { OnErr result (content_of nodes.new.items ≡ content_of nodes.old.items) }
{
    nodes.push(Node::Elem(element))?;
    Ok(())
}

// Appends a comment.
#[tactic(auto, using(crate::proofs::Places::places))]
pub(crate) fn push_comment_node(nodes: &mut Vec<Node>, text: Text) -> Result<(), AllocError>
    ensures stays_normal { AreNormalized nodes.old.items → AreNormalized nodes.new.items }
    ensures adds_comment { OnOk result
        (content_of nodes.new.items ≡ with_comment text (content_of nodes.old.items)) }
    ensures err_unchanged { OnErr result (content_of nodes.new.items ≡ content_of nodes.old.items) }
{
    nodes.push(Node::Comment(text))?;
    Ok(())
}

// Whether the last node is a text.
#[tactic(auto, using(crate::proofs::Places::texts))]
pub(crate) fn ends_in_text(nodes: &[Node]) -> bool
    ensures exact { result ≡ ends_in_text nodes.now }
{
    let count = nodes.len();
    if count == 0 {
        return false;
    }
    nodes[count - 1].is_text()
}

// Appends a text, as `push_text` does, and copies it only where it joins another.
#[inline(always)]
#[tactic(auto, using(crate::proofs::Places::texts))]
pub(crate) fn push_owned_text(nodes: &mut Vec<Node>, text: Text) -> Result<(), AllocError>
    ensures stays_normal { AreNormalized nodes.old.items → AreNormalized nodes.new.items }
    ensures adds_text { OnOk result
        (content_of nodes.new.items ≡ with_text text (content_of nodes.old.items)) }
    ensures err_unchanged { OnErr result (content_of nodes.new.items ≡ content_of nodes.old.items) }
{
    if text.is_empty() {
        return Ok(());
    }
    if ends_in_text(nodes) {
        return push_text(nodes, text.as_str());
    }
    nodes.push(Node::Chars(text))?;
    Ok(())
}

// Appends a text: it joins a text that is the last node, and an empty text is ignored.
#[tactic(auto, using(crate::proofs::Places::texts))]
pub(crate) fn push_text(nodes: &mut Vec<Node>, text: &str) -> Result<(), AllocError>
    ensures stays_normal { AreNormalized nodes.old.items → AreNormalized nodes.new.items }
    ensures adds_text { OnOk result
        (content_of nodes.new.items ≡ with_text (chars text.now) (content_of nodes.old.items)) }
    ensures err_unchanged { OnErr result (content_of nodes.new.items ≡ content_of nodes.old.items) }
{
    if text.is_empty() {
        return Ok(());
    }
    if ends_in_text(nodes) {
        let at = nodes.len() - 1;
        return nodes[at].push_str(text);
    }
    let text = Text::from(*nodes.allocator(), text)?;
    nodes.push(Node::Chars(text))?;
    Ok(())
}

// The text at a place among the nodes, if there is one.
pub(crate) fn text_at(nodes: &[Node], place: usize) -> Option<&Text>
    ensures exact { option_copied result ≡ text_at place nodes.now }
{
    if place >= nodes.len() {
        return None;
    }
    nodes[place].text()
}

/// The place of a gap between child elements among nodes: after the child before it.
pub fn place_of_insertion(nodes: &[Node], gap: usize) -> usize
    ensures exact { result ≡ gap_place gap nodes.now }
{
    if gap == 0 {
        0
    } else {
        child_place(nodes, gap - 1) + 1
    }
}

// Inserts an element into a gap.
#[tactic(auto, using(crate::proofs::Places::places))]
pub(crate) fn insert_elem(
    nodes: &mut Vec<Node>,
    gap: usize,
    element: Element,
) -> Result<(), (AllocError, Element)>
    requires { gap ≤ length (child_elements (content_of nodes.old.items)) }
    ensures stays_normal { AreNormalized nodes.old.items → AreNormalized nodes.new.items }
    ensures puts_element { OnOk result
        (content_of nodes.new.items ≡ put gap element (content_of nodes.old.items)) }
    ensures err_unchanged { OnErr result (content_of nodes.new.items ≡ content_of nodes.old.items) }
    ensures err_returns_element { IfErr result (λ refused. refused.1 ≡ element) }
    ensures room_is_ok { length nodes.old.items < vec_capacity nodes.old → IsOk result }
{
    let place = place_of_insertion(nodes, gap);
    match nodes.insert(place, Node::Elem(element)) {
        Ok(()) => Ok(()),
        Err(AllocFailed { value }) => Err((AllocError, value.into_elem())),
    }
}

// Inserts an element into a gap. The nodes move into `room`, which has capacity for them and one
// more.
#[tactic(auto, using(crate::proofs::Places::places))]
pub(crate) fn insert_elem_reserved(
    nodes: &mut Vec<Node>,
    gap: usize,
    element: Element,
    room: Vec<Node>,
)
    requires gap_in_range { gap ≤ length (child_elements (content_of nodes.old.items)) }
    requires room_left { HasCapacity (suc (length nodes.old.items)) room }
    ensures stays_normal { AreNormalized nodes.old.items → AreNormalized nodes.new.items }
    ensures puts_element { content_of nodes.new.items
        ≡ put gap element (content_of nodes.old.items) }
{
    let mut moved = room;
    moved.append(nodes).unwrap();
    *nodes = moved;
    insert_elem(nodes, gap, element).unwrap();
}

// The texts directly before and after a node, joined, where both nodes there are texts.
fn joined_neighbor_texts(
    alloc: Global,
    nodes: &[Node],
    place: usize,
) -> Result<Option<Text>, AllocError>
    ensures ok { IfOk result (λ text. text ≡ joined_neighbor_texts place nodes.now) }
    ensures err_texts_join { OnErr result (IsSome (joined_neighbor_texts place nodes.now)) }
{
    if place == 0 {
        return Ok(None);
    }
    let Some(before) = text_at(nodes, place - 1) else {
        return Ok(None);
    };
    let Some(next) = text_at(nodes, place + 1) else {
        return Ok(None);
    };
    let mut text = before.copy(alloc)?;
    text.push_str(next.as_str())?;
    Ok(Some(text))
}

// Replaces a node and the one before it by a text.
fn replace_two_nodes(nodes: &mut Vec<Node>, place: usize, text: Text)
    requires between { (0 < place) × (place < length nodes.old.items) }
    ensures joint_text { nodes.new.items
        ≡ slice_set (remove nodes.old.items place) (place - 1) (Chars text) }
{
    let _behind = nodes.remove(place);
    let _before = mem::replace(&mut nodes[place - 1], Node::Chars(text));
}

// Removes a node. The texts beside it are replaced by one, if one is given.
fn remove_joined(nodes: &mut Vec<Node>, place: usize, joined: Option<Text>) -> Node
    requires place_exists { place < length nodes.old.items }
    requires between { IsSome joined → (0 < place) × (place + 1 < length nodes.old.items) }
    ensures previous_element { slice_get nodes.old.items place ≡ Some result }
    ensures others_joined { nodes.new.items ≡ without_node place joined nodes.old.items }
{
    let taken = nodes.remove(place);
    match joined {
        Some(text) => replace_two_nodes(nodes, place, text),
        None => {}
    }
    taken
}

// The texts directly beside an element, joined, if there are two: what removing it needs.
pub(crate) fn joined_texts_around(
    alloc: Global,
    nodes: &[Node],
    child: usize,
) -> Result<Option<Text>, AllocError>
    requires { child < length (child_elements (content_of nodes.now)) }
    ensures ok { IfOk result
        (λ text. text ≡ joined_neighbor_texts (place child nodes.now) nodes.now) }
    ensures err_texts_meet { AreNormalized nodes.now
        → OnErr result (TextsMeet child (content_of nodes.now)) }
{
    joined_neighbor_texts(alloc, nodes, child_place(nodes, child))
}

// Removes an element. The texts beside it are replaced by one, if there are two.
pub(crate) fn remove_elem_joining(
    nodes: &mut Vec<Node>,
    child: usize,
    joined: Option<Text>,
) -> Element
    requires place_exists { child < length (child_elements (content_of nodes.old.items)) }
    requires joined_texts { joined
        ≡ joined_neighbor_texts (place child nodes.old.items) nodes.old.items }
    ensures stays_normal { AreNormalized nodes.old.items → AreNormalized nodes.new.items }
    ensures previous_element { slice_get (child_elements (content_of nodes.old.items)) child
        ≡ Some result }
    ensures others_joined { content_of nodes.new.items ≡ cut child (content_of nodes.old.items) }
{
    let place = child_place(nodes, child);
    let taken = remove_joined(nodes, place, joined);
    taken.into_elem()
}

// Removes an element. Texts that meet are joined; only that allocates, before anything changes.
pub(crate) fn remove_elem(nodes: &mut Vec<Node>, child: usize) -> Result<Element, AllocError>
    requires { child < length (child_elements (content_of nodes.old.items)) }
    ensures stays_normal { AreNormalized nodes.old.items → AreNormalized nodes.new.items }
    ensures previous_element { IfOk result
        (λ element. slice_get (child_elements (content_of nodes.old.items)) child ≡ Some element) }
    ensures cuts_element { OnOk result
        (content_of nodes.new.items ≡ cut child (content_of nodes.old.items)) }
    ensures err_unchanged { OnErr result (content_of nodes.new.items ≡ content_of nodes.old.items) }
    ensures err_texts_meet { AreNormalized nodes.old.items
        → OnErr result (TextsMeet child (content_of nodes.old.items)) }
{
    let joined = joined_texts_around(*nodes.allocator(), nodes, child)?;
    Ok(remove_elem_joining(nodes, child, joined))
}
