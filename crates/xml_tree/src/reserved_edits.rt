//! Edits of one element that do not allocate, as all memory that they need was reserved before.
ghost use Rattle.std.specs.Prelude.{◌≡◌, ◌<◌, ◌≤◌, length, IfOk, OnErr, slice_get};
ghost use Rattle.xml_tree.specs.Tree.{child_elements_of};
ghost use Rattle.xml_tree.specs.Edits.{TextsMeet, cut_child, put_kid, set_attr_value};
ghost use Rattle.xml_tree.specs.Reservations.{HasAttrCapacity, HasNodeCapacity};
ghost use Rattle.xml_tree.specs.Reservations.{joined_texts_around};

use crate::attrs;
use crate::nodes::{insert_elem_reserved, joined_texts_around, remove_elem_joining};
use crate::tree::{Element, Node};
use std::alloc::{AllocError, Global};
use xml_names::{Attr, Name, Text};

impl Element {
    /// Inserts an element into a gap, as `put_kid` does. The nodes move into `room`, which is
    /// empty and has capacity for them and one more. Does not allocate.
    pub fn put_kid_reserved(&mut self, gap: usize, element: Element, room: Vec<Node>)
        requires gap_in_range { gap ≤ length (child_elements_of self.old) }
        requires room_left { HasNodeCapacity self.old room }
        ensures exact { self.new ≡ put_kid gap element self.old }
    {
        insert_elem_reserved(&mut self.nodes, gap, element, room)
    }

    /// The texts directly on both sides of a child element, joined, which removing it needs: None
    /// if there are not two. The child exists.
    ///
    /// # Errors
    /// `AllocError` when out of memory, possible only where there are two.
    pub fn joined_texts_around(
        &self,
        alloc: Global,
        child: usize,
    ) -> Result<Option<Text>, AllocError>
        requires { child < length (child_elements_of self.now) }
        ensures ok { IfOk result (λ text. text ≡ joined_texts_around child self.now.content) }
        ensures err_texts_meet { OnErr result (TextsMeet child self.now.content) }
    {
        joined_texts_around(alloc, &self.nodes, child)
    }

    /// Removes a child element, counted from 0, as `take_kid` does. The texts that meet are
    /// replaced by `concat`, the result of `joined_texts_around`. Does not allocate.
    pub fn take_kid_joining(&mut self, child: usize, joined: Option<Text>) -> Element
        requires place_exists { child < length (child_elements_of self.old) }
        requires joined_texts { joined ≡ joined_texts_around child self.old.content }
        ensures previous_element { slice_get (child_elements_of self.old) child ≡ Some result }
        ensures others_joined { self.new ≡ cut_child child self.old }
    {
        remove_elem_joining(&mut self.nodes, child, joined)
    }

    /// Writes the attribute of this prefix and local name, as `set_attr` does. If it is new, the
    /// attributes move into `room`, which is empty and then has capacity for them and one more.
    /// Does not allocate.
    pub fn set_attr_reserved(&mut self, name: Name, value: Text, room: Vec<Attr>)
        requires { HasAttrCapacity name self.old room }
        ensures writes_attribute { self.new ≡ set_attr_value name value self.old }
    {
        attrs::set_in_room(&mut self.attrs, name, value, room)
    }
}
