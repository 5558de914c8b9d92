//! The printed length of a tree after a change, from its length before: only what the change
//! removes and adds is counted.
ghost use Rattle.std.specs.Prelude.{◌≡◌, ◌<◌, ◌+◌, flat_map, length, min, option_to_list};
ghost use Rattle.std.specs.Prelude.{slice_get, true, if◌then◌else◌};
ghost use Rattle.xml_names.specs.Attributes.{has_qname};
ghost use Rattle.std.specs.List.{find};
ghost use Rattle.xml_tree.specs.Tree.{Tree, child_elements_of};
ghost use Rattle.xml_tree.specs.Edits.{cut};
ghost use Rattle.xml_names.specs.Markup.{byte_len, print_attr};
ghost use Rattle.xml_tree.specs.Print.{is_empty, print};
ghost use Rattle.edit_ops.specs.Changes.{FitsTree, edited};
ghost use Rattle.edit_ops.specs.PrintedLengths.{element_len};
ghost use Rattle.edit_ops.specs.inner.LengthChanges.{added_len, end_tag_len, removed_len};
ghost use Rattle.edit_ops.specs.inner.LocalChanges.{FitsLocally};

use crate::change::{Change, site_of};
use xml_names::{Name, attr_len, name_len};
use xml_tree::{Element, element_at, printed_len};

// By how much `>` and the end tag of an element are longer than `/>`.
fn end_tag_len(element: &Element) -> usize
    ensures exact { result ≡ min (end_tag_len element.now.name) usize.MAX }
{
    name_len(element.name()).saturating_add(2)
}

// The length of the end tag that an element gets with its first node.
#[tactic(auto, using(crate::proofs::LengthLemmas::ends))]
fn first_node_len(element: &Element) -> usize
    ensures exact { result
        ≡ min (if is_empty element.now.content then end_tag_len element.now.name else 0) usize.MAX }
{
    if element.nodes().is_empty() {
        end_tag_len(element)
    } else {
        0
    }
}

// The length of the end tag that is removed with a child element, where it is the only node.
#[tactic(auto, using(crate::proofs::LengthLemmas::ends))]
fn last_node_len(element: &Element, child: usize) -> usize
    requires { child < length (child_elements_of element.now) }
    ensures exact { result
        ≡ min (if is_empty (cut child element.now.content) then end_tag_len element.now.name else 0)
        usize.MAX }
{
    if element.nodes().len() == 1 {
        end_tag_len(element)
    } else {
        0
    }
}

// The length of a child element.
#[tactic(auto, using(crate::proofs::LengthLemmas::one))]
fn child_len(element: &Element, child: usize) -> usize
    ensures counts_child { result
        ≡ min (byte_len (flat_map print
        (option_to_list (slice_get (child_elements_of element.now) child)))) usize.MAX }
{
    match element.child_element(child) {
        Some(child_element) => printed_len(child_element),
        None => 0,
    }
}

// The length of an attribute, or 0 if it is absent.
#[tactic(auto, using(crate::proofs::LengthLemmas::one))]
fn present_attr_len(element: &Element, name: &Name) -> usize
    ensures exact { result
        ≡ min (byte_len (flat_map print_attr
        (option_to_list (find (has_qname name.now) element.now.attrs)))) usize.MAX }
{
    match element.attr(name) {
        Some(attr) => attr_len(&attr.name, &attr.value),
        None => 0,
    }
}

// What a removal takes off the print of the element that it is made in.
fn child_and_end_tag_len(element: &Element, child: usize) -> usize
    requires { child < length (child_elements_of element.now) }
    ensures exact { result
        ≡ min (byte_len (flat_map print
        (option_to_list (slice_get (child_elements_of element.now) child)))
        + (if is_empty (cut child element.now.content) then end_tag_len element.now.name else 0))
        usize.MAX }
{
    child_len(element, child).saturating_add(last_node_len(element, child))
}

// What a change takes off the print of the element that it is made in.
#[tactic(auto, using(crate::proofs::WayLemmas::parents))]
fn len_taken_off(element: &Element, change: &Change) -> usize
    requires { FitsLocally change.now element.now }
    ensures exact { result ≡ min (removed_len change.now element.now) usize.MAX }
{
    match change {
        Change::CreateDocument { .. } => 0,
        Change::Insert { .. } => 0,
        Change::Replace { .. } => printed_len(element),
        Change::Remove { at } => match at.split_last() {
            None => unreachable!(),
            Some((_, child)) => child_and_end_tag_len(element, child),
        },
        Change::SetAttr { name, .. } => present_attr_len(element, name),
        Change::DropAttr { name, .. } => present_attr_len(element, name),
        Change::RemoveDocument => 0,
    }
}

// ---- the element that a change inserts

/// The length in bytes of the print of the element that a change creates, inserts or puts in
/// place of another: 0 if there is none, and `usize::MAX` if it is longer. Does not allocate.
pub fn element_len(change: &Change) -> usize
    ensures counts_element { result ≡ min (element_len change.now) usize.MAX }
{
    match change {
        Change::CreateDocument { root } => printed_len(root),
        Change::Insert { element, .. } => printed_len(element),
        Change::Replace { element, .. } => printed_len(element),
        Change::Remove { .. } => 0,
        Change::SetAttr { .. } => 0,
        Change::DropAttr { .. } => 0,
        Change::RemoveDocument => 0,
    }
}

// What a change adds to the element that it is made in, where the element that it inserts has
// `put` bytes.
fn inserted_len(element: &Element, change: &Change, put: usize) -> usize
    requires length_of_part { put ≡ min (element_len change.now) usize.MAX }
    ensures exact { result ≡ min (added_len change.now element.now) usize.MAX }
{
    match change {
        Change::CreateDocument { .. } => 0,
        Change::Insert { .. } => put.saturating_add(first_node_len(element)),
        Change::Replace { .. } => put,
        Change::Remove { .. } => 0,
        Change::SetAttr { name, value, .. } => attr_len(name, value),
        Change::DropAttr { .. } => 0,
        Change::RemoveDocument => 0,
    }
}

// Whether a change replaces the root.
fn replaces_root(change: &Change) -> bool
    ensures leaves_element { result ≡ true → (t : Tree)
        → byte_len (print (edited t change.now)) ≡ element_len change.now }
{
    match change {
        Change::Replace { at, .. } => at.numbers().is_empty(),
        _ => false,
    }
}

/// The length in bytes of the print of a tree after a change, where `len` is its length before,
/// and `put` is `element_len` of the change; `usize::MAX` if it is longer. Only what the change
/// removes, and an attribute that it adds, is counted; the rest of the tree isn't read. Does not
/// allocate.
pub fn printed_len_after(root: &Element, len: usize, change: &Change, put: usize) -> usize
    requires fits { FitsTree root.now change.now }
    requires length_exact { len ≡ byte_len (print root.now) }
    requires length_of_part { put ≡ min (element_len change.now) usize.MAX }
    ensures len_after { result ≡ min (byte_len (print (edited root.now change.now))) usize.MAX }
{
    if replaces_root(change) {
        return put;
    }
    let Some(element) = element_at(root, &site_of(change)) else {
        unreachable!()
    };
    (len - len_taken_off(element, change)).saturating_add(inserted_len(element, change, put))
}
