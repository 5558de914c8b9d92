//! A change in two steps: the first makes all allocations, and only reads the tree; the second
//! can't fail.
ghost use Rattle.std.specs.Prelude.{◌≡◌, ◌<◌, IfErr, IfOk, Vec, length};
ghost use Rattle.std.specs.declared.alloc.Global.{Global as AnyMemory};
ghost use Rattle.xml_tree.specs.Tree.{child_elements_of};
ghost use Rattle.xml_tree.specs.Edits.{TextsMeet, cut_child, last_number};
ghost use Rattle.xml_tree.specs.Reservations.{HasAttrCapacity, HasNodeCapacity};
ghost use Rattle.xml_tree.specs.Reservations.{joined_texts_around};
ghost use Rattle.xml_names.specs.declared.names.Attr.{Attr as AnAttr};
ghost use Rattle.xml_tree.specs.declared.tree.Node.{Node as ANode};
ghost use Rattle.edit_ops.specs.Changes.{FitsTree, NeedsMemory, edited};
ghost use Rattle.edit_ops.specs.MovedPaths.{KeepsOtherElements};
ghost use Rattle.edit_ops.specs.inner.LocalChanges.{FitsLocally, local_result};
ghost use Rattle.edit_ops.specs.StagedChanges.{IsStaged, IsStagedLocally};
ghost use Rattle.edit_ops.specs.inner.LocalChanges.{NeedsMemoryLocally};
ghost use Rattle.edit_ops.specs.declared.staged_change.Staged.TheVariants as staging;

use crate::change::{Change, site_of};
use std::alloc::{AllocError, Global};
use xml_names::{Attr, Name, Text};
use xml_tree::{Element, Node, Path, copy_tree, element_at};

/// What a change inserts into a tree, with all memory reserved that it needs there.
#[derive(Drop)]
pub enum Staged {
    /// An element to insert, and capacity for its parent's nodes and one more.
    Child {
        element: Element,
        room: Vec<Node>,
    },
    /// The replacement of an element.
    Other(Element),
    /// The texts on both sides of an element to be removed, joined, where they meet.
    Joint(Option<Text>),
    /// An attribute to write, and capacity for its element's attributes and one more, if it is
    /// new.
    Attribute {
        name: Name,
        value: Text,
        room: Vec<Attr>,
    },
    /// No memory is needed.
    Nothing,
}

// ---- memory

// A copy of a child, and capacity for its parent's nodes and one more.
fn stage_child(alloc: Global, parent: &Element, element: &Element) -> Result<Staged, AllocError>
    ensures child_with_room { IfOk result
        (λ made. (room : Vec ANode AnyMemory) × (made ≡ staging.Child element.now room)
        × HasNodeCapacity parent.now room) }
{
    let room = Vec::with_capacity(alloc, parent.nodes().len() + 1)?;
    let element = copy_tree(alloc, element)?;
    Ok(Staged::Child { element, room })
}

// Capacity for the attributes of an element and one more, where none of them has this name.
fn room_for_attr(alloc: Global, element: &Element, name: &Name) -> Result<Vec<Attr>, AllocError>
    ensures attr_room { IfOk result (λ room. HasAttrCapacity name.now element.now room) }
{
    match element.attr(name) {
        Some(_) => Ok(Vec::new(alloc)),
        None => Vec::with_capacity(alloc, element.attrs().len() + 1),
    }
}

// Copies of an attribute's name and value, and the capacity that it needs.
fn stage_attribute(
    alloc: Global,
    element: &Element,
    name: &Name,
    value: &Text,
) -> Result<Staged, AllocError>
    ensures attr_with_room { IfOk result
        (λ made. (room : Vec AnAttr AnyMemory) × (made ≡ staging.Attribute name.now value.now room)
        × HasAttrCapacity name.now element.now room) }
{
    let room = room_for_attr(alloc, element, name)?;
    let name = name.copy(alloc)?;
    let value = value.copy(alloc)?;
    Ok(Staged::Attribute { name, value, room })
}

// The texts that meet where the element at a path is removed from its parent, joined.
#[tactic(auto, using(crate::proofs::WayLemmas::parents))]
fn stage_removal(alloc: Global, parent: &Element, place: &Path) -> Result<Staged, AllocError>
    requires below { 0 < length place.now }
    requires place_exists { last_number place.now < length (child_elements_of parent.now) }
    ensures ok { IfOk result
        (λ made. made
        ≡ staging.Joint (joined_texts_around (last_number place.now) parent.now.content)) }
    ensures err_texts_meet { IfErr result
        (λ _. TextsMeet (last_number place.now) parent.now.content) }
{
    match place.split_last() {
        None => unreachable!(),
        Some((_, number)) => Ok(Staged::Joint(parent.joined_texts_around(alloc, number)?)),
    }
}

// What a change inserts into the element that it is made in.
fn stage_here(alloc: Global, here: &Element, change: &Change) -> Result<Staged, AllocError>
    requires { FitsLocally change.now here.now }
    ensures stages_change { IfOk result (λ made. IsStagedLocally change.now here.now made) }
    ensures err_wants_memory { IfErr result (λ _. NeedsMemoryLocally change.now here.now) }
{
    match change {
        Change::CreateDocument { root: _ } => unreachable!(),
        Change::Insert { element, .. } => stage_child(alloc, here, element),
        Change::Replace { element, .. } => {
            let other = copy_tree(alloc, element)?;
            Ok(Staged::Other(other))
        }
        Change::Remove { at } => stage_removal(alloc, here, at),
        Change::SetAttr { name, value, .. } => stage_attribute(alloc, here, name, value),
        Change::DropAttr { .. } => Ok(Staged::Nothing),
        Change::RemoveDocument => unreachable!(),
    }
}

/// Makes all allocations for a change of a tree, which stays as it is: copies of what the change
/// inserts, and where that is an element or a new attribute, capacity for the existing ones and
/// one more. It costs that and the descent to the place of the change.
///
/// # Errors
/// `AllocError` when out of memory. It never comes where an attribute is dropped, and where an
/// element is removed only if texts are directly on both sides of it.
pub fn stage(alloc: Global, root: &Element, change: &Change) -> Result<Staged, AllocError>
    requires { FitsTree root.now change.now }
    ensures stages_change { IfOk result (λ made. IsStaged root.now change.now made) }
    ensures err_wants_memory { IfErr result (λ _. NeedsMemory root.now change.now) }
{
    let Some(here) = element_at(root, &site_of(change)) else {
        unreachable!()
    };
    stage_here(alloc, here, change)
}

// ---- the change

// Removes the element at a path from its parent.
#[tactic(auto, using(crate::proofs::WayLemmas::parents))]
fn remove_element(parent: &mut Element, place: &Path, joined: Option<Text>)
    requires below { 0 < length place.now }
    requires place_exists { last_number place.now < length (child_elements_of parent.old) }
    requires joined_texts { joined
        ≡ joined_texts_around (last_number place.now) parent.old.content }
    ensures exact { parent.new ≡ cut_child (last_number place.now) parent.old }
{
    match place.split_last() {
        None => unreachable!(),
        Some((_, number)) => {
            let _gone = parent.take_kid_joining(number, joined);
        }
    }
}

// Makes a change in the element that it is made in.
fn apply_here(here: &mut Element, change: &Change, staged: Staged)
    requires fits { FitsLocally change.now here.old }
    requires change_staged { IsStagedLocally change.now here.old staged }
    ensures changed_here { here.new ≡ local_result change.now here.old }
{
    match (change, staged) {
        (Change::Insert { gap, .. }, Staged::Child { element, room }) => {
            here.put_kid_reserved(*gap, element, room)
        }
        (Change::Replace { .. }, Staged::Other(element)) => *here = element,
        (Change::Remove { at }, Staged::Joint(joined)) => remove_element(here, at, joined),
        (Change::SetAttr { .. }, Staged::Attribute { name, value, room }) => {
            here.set_attr_reserved(name, value, room)
        }
        (Change::DropAttr { name, .. }, Staged::Nothing) => {
            here.drop_attr(name);
        }
        _ => unreachable!(),
    }
}

/// Makes a change of a tree, where `stage` has made the allocations for it on this very tree.
/// Each element that the change isn't at or inside is then found unchanged where `moved` says.
/// Does not allocate, and moves at most the nodes or attributes of one element.
pub fn apply_staged(root: &mut Element, change: &Change, staged: Staged)
    requires fits { FitsTree root.old change.now }
    requires change_staged { IsStaged root.old change.now staged }
    ensures changed_tree { root.new ≡ edited root.old change.now }
    ensures others_unchanged { KeepsOtherElements root.old change.now root.new }
{
    root.edit_at(
        &site_of(change),
        |here: &mut Element|
            requires fits { FitsLocally change.now here.old }
            requires change_staged { IsStagedLocally change.now here.old staged }
            ensures changed_here { here.new ≡ local_result change.entry.now here.old }
        { apply_here(here, change, staged) },
    )
}
