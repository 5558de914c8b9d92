//! Edits of one element, and of the element at a path. Each contract gives the whole new tree.
ghost use Rattle.std.specs.Prelude.{◌≡◌, ◌<◌, ◌≤◌, length, Some, None, IsSome, IsSomeAnd, IfOk};
ghost use Rattle.std.specs.Prelude.{IfErr, OnOk, OnErr, option_map, slice_get};
ghost use Rattle.xml_names.specs.Attributes.{has_qname};
ghost use Rattle.std.specs.List.{find, remove};
ghost use Rattle.std.specs.Option.{option_copied};
ghost use Rattle.xml_tree.specs.Tree.{at, child_elements_of};
ghost use Rattle.xml_tree.specs.Edits.{TextsMeet, TextsMeetAt, attr_at, change_attr, cut_child};
ghost use Rattle.xml_tree.specs.Edits.{cut_out, drop_attr_at, drop_attr, put_in, put_kid, put_over};
ghost use Rattle.xml_tree.specs.Edits.{set_attr_at, take_in, set_attr_value};
ghost use Rattle.xml_tree.specs.Nodes.{exchange_nodes, nodes_of};

use crate::attrs;
use crate::attrs::find_attr;
use crate::node_splices::exchange_node_range;
use crate::nodes::{insert_elem, remove_elem};
use crate::path::Path;
use crate::tree::{Element, Node};
use std::alloc::AllocError;
use std::mem;
use xml_names::{Attr, Name, Text};

/// Edits of its nodes.
impl Element {
    /// Inserts an element into a gap: gap 0 is before all nodes, gap `j` directly after the
    /// `j`-th child element.
    ///
    /// # Errors
    /// `AllocError` when out of memory. The element comes back, and this one is unchanged.
    pub fn put_kid(&mut self, gap: usize, element: Element) -> Result<(), (AllocError, Element)>
        requires { gap ≤ length (child_elements_of self.old) }
        ensures puts_element { OnOk result (self.new ≡ put_kid gap element self.old) }
        ensures err_unchanged { OnErr result (self.new ≡ self.old) }
        ensures err_returns_element { IfErr result (λ refused. refused.1 ≡ element) }
    {
        insert_elem(&mut self.nodes, gap, element)
    }

    /// Removes a child element, counted from 0, and joins texts that meet.
    ///
    /// # Errors
    /// `AllocError` when out of memory, possible only if texts are directly on both sides of the
    /// element. Nothing has changed then.
    pub fn take_kid(&mut self, child: usize) -> Result<Element, AllocError>
        requires { child < length (child_elements_of self.old) }
        ensures previous_element { IfOk result
            (λ child_element. slice_get (child_elements_of self.old) child ≡ Some child_element) }
        ensures cuts_element { OnOk result (self.new ≡ cut_child child self.old) }
        ensures err_unchanged { OnErr result (self.new ≡ self.old) }
        ensures err_texts_meet { OnErr result (TextsMeet child self.old.content) }
    {
        remove_elem(&mut self.nodes, child)
    }

    /// Replaces the nodes from one place to before another. Texts that meet are joined, and empty
    /// ones are dropped.
    ///
    /// # Errors
    /// `AllocError` when out of memory; the element is then unchanged.
    pub fn exchange_nodes(
        &mut self,
        from: usize,
        to: usize,
        nodes: Vec<Node>,
    ) -> Result<(), AllocError>
        requires range_ordered { from ≤ to }
        requires within { to ≤ length (nodes_of self.old.content) }
        ensures replaces_nodes { OnOk result
            (self.new ≡ exchange_nodes from to nodes.items self.old) }
        ensures err_unchanged { OnErr result (self.new ≡ self.old) }
    {
        exchange_node_range(&mut self.nodes, from, to, nodes)
    }
}

/// Edits of its attributes.
impl Element {
    /// The attribute of this prefix and local name, borrowed: None if there is none. Does not
    /// allocate.
    pub fn attr(&self, name: &Name) -> Option<&Attr>
        ensures exact { option_copied result ≡ find (has_qname name.now) self.now.attrs }
    {
        find_attr(&self.attrs, name)
    }

    /// Replaces the value of an attribute, counted from 0, and returns the old one. Does not
    /// allocate.
    pub fn exchange_value(&mut self, at: usize, value: Text) -> Text
        requires { at < length self.old.attrs }
        ensures former_value { option_map (λ attr. attr.value) (slice_get self.old.attrs at)
            ≡ Some result }
        ensures value_replaced { self.new ≡ change_attr at value self.old }
    {
        attrs::exchange_value(&mut self.attrs, at, value)
    }

    /// Removes an attribute, counted from 0. Does not allocate.
    pub fn take_attr(&mut self, at: usize) -> Attr
        requires { at < length self.old.attrs }
        ensures attribute_taken { slice_get self.old.attrs at ≡ Some result }
        ensures attribute_is_gone { self.new
            ≡ record self.old { attrs = remove self.old.attrs at } }
    {
        attrs::take_at(&mut self.attrs, at)
    }

    /// Writes the attribute of this prefix and local name, after the others if it is new, and
    /// returns the old value.
    ///
    /// # Errors
    /// `AllocError` when out of memory, possible only for a new attribute. The element is then
    /// unchanged.
    pub fn set_attr(&mut self, name: Name, value: Text) -> Result<Option<Text>, AllocError>
        ensures former_value { IfOk result
            (λ old. old ≡ option_map (λ attr. attr.value)
            (find (has_qname name) self.old.attrs)) }
        ensures writes_attribute { OnOk result (self.new ≡ set_attr_value name value self.old) }
        ensures err_unchanged { OnErr result (self.new ≡ self.old) }
        ensures err_if_new { OnErr result (find (has_qname name) self.old.attrs ≡ None) }
    {
        attrs::set(&mut self.attrs, name, value)
    }

    /// Removes the attribute of this prefix and local name: None if there is none. Does not
    /// allocate.
    pub fn drop_attr(&mut self, name: &Name) -> Option<Attr>
        ensures attribute_taken { result ≡ find (has_qname name.now) self.old.attrs }
        ensures attribute_is_gone { self.new ≡ drop_attr name.now self.old }
    {
        attrs::take(&mut self.attrs, name)
    }
}

/// Edits of the element at a path, which must exist.
impl Element {
    /// Inserts an element into a gap of the element at a path.
    ///
    /// # Errors
    /// `AllocError` when out of memory. The element comes back, and the tree is unchanged.
    pub fn put_in(
        &mut self,
        path: &Path,
        gap: usize,
        element: Element,
    ) -> Result<(), (AllocError, Element)>
        requires { IsSomeAnd (at path.now self.old)
            (λ parent. gap ≤ length (child_elements_of parent)) }
        ensures puts_element { OnOk result (self.new ≡ put_in path.now gap element self.old) }
        ensures err_unchanged { OnErr result (self.new ≡ self.old) }
        ensures err_returns_element { IfErr result (λ refused. refused.1 ≡ element) }
    {
        self.edit_at(
            path,
            |here: &mut Element| -> Result<(), (AllocError, Element)>
                requires { gap ≤ length (child_elements_of here.old) }
                ensures puts_element { OnOk result (here.new ≡ put_kid gap element here.old) }
                ensures err_unchanged { OnErr result (here.new ≡ here.old) }
                ensures err_returns_element { IfErr result (λ refused. refused.1 ≡ element) }
            { here.put_kid(gap, element) },
        )
    }

    /// Replaces the element at a path, and returns the old one. Does not allocate.
    pub fn put_over(&mut self, path: &Path, element: Element) -> Element
        requires { IsSome (at path.now self.old) }
        ensures former_element { at path.now self.old ≡ Some result }
        ensures element_replaced { self.new ≡ put_over path.now element self.old }
    {
        self.edit_at(
            path,
            |here: &mut Element| -> Element
                ensures former_element { result ≡ here.old }
                ensures element_replaced { here.new ≡ element }
            { mem::replace(here, element) },
        )
    }

    // Removes a child element of the element at a path, counted from 0, and joins texts that meet.
    // An error is out of memory, possible only if texts are directly on both sides of the child;
    // nothing has changed then.
    fn take_in(&mut self, path: &Path, child: usize) -> Result<Element, AllocError>
        requires { IsSomeAnd (at path.now self.old)
            (λ parent. child < length (child_elements_of parent)) }
        ensures previous_element { IfOk result (λ child_element. IsSomeAnd (at path.now self.old)
            (λ parent. slice_get (child_elements_of parent) child ≡ Some child_element)) }
        ensures cuts_element { OnOk result (self.new ≡ take_in path.now child self.old) }
        ensures err_unchanged { OnErr result (self.new ≡ self.old) }
        ensures err_texts_meet { OnErr result (IsSomeAnd (at path.now self.old)
            (λ parent. TextsMeet child parent.content)) }
    {
        self.edit_at(
            path,
            |here: &mut Element| -> Result<Element, AllocError>
                requires { child < length (child_elements_of here.old) }
                ensures previous_element { IfOk result
                    (λ child_element. slice_get (child_elements_of here.old) child
                    ≡ Some child_element) }
                ensures cuts_element { OnOk result (here.new ≡ cut_child child here.old) }
                ensures err_unchanged { OnErr result (here.new ≡ here.old) }
                ensures err_texts_meet { OnErr result (TextsMeet child here.old.content) }
            { here.take_kid(child) },
        )
    }

    /// Removes the element at a path, which isn't the root, and joins texts that meet.
    ///
    /// # Errors
    /// `AllocError` when out of memory, possible only if texts are directly on both sides of the
    /// element. Nothing has changed then.
    pub fn cut_out(&mut self, path: &Path) -> Result<Element, AllocError>
        requires below { 0 < length path.now }
        requires place_exists { IsSome (at path.now self.old) }
        ensures previous_element { IfOk result (λ cut. at path.now self.old ≡ Some cut) }
        ensures cuts_element { OnOk result (self.new ≡ cut_out path.now self.old) }
        ensures err_unchanged { OnErr result (self.new ≡ self.old) }
        ensures err_texts_meet { OnErr result (TextsMeetAt path.now self.old) }
    {
        match path.split_last() {
            None => unreachable!(),
            Some((parent, child)) => self.take_in(&parent, child),
        }
    }

    /// Writes an attribute of the element at a path, as `set_attr` does.
    ///
    /// # Errors
    /// `AllocError` when out of memory, possible only for a new attribute. The tree is then
    /// unchanged.
    pub fn set_attr_at(
        &mut self,
        path: &Path,
        name: Name,
        value: Text,
    ) -> Result<Option<Text>, AllocError>
        requires { IsSome (at path.now self.old) }
        ensures former_value { IfOk result
            (λ old. old ≡ option_map (λ attr. attr.value) (attr_at path.now name self.old)) }
        ensures writes_attribute { OnOk result
            (self.new ≡ set_attr_at path.now name value self.old) }
        ensures err_unchanged { OnErr result (self.new ≡ self.old) }
        ensures err_if_new { OnErr result (attr_at path.now name self.old ≡ None) }
    {
        self.edit_at(
            path,
            |here: &mut Element| -> Result<Option<Text>, AllocError>
                ensures former_value { IfOk result
                    (λ old. old ≡ option_map (λ attr. attr.value)
                    (find (has_qname name) here.old.attrs)) }
                ensures writes_attribute { OnOk result
                    (here.new ≡ set_attr_value name value here.old) }
                ensures err_unchanged { OnErr result (here.new ≡ here.old) }
                ensures err_if_new { OnErr result
                    (find (has_qname name) here.old.attrs ≡ None) }
            { here.set_attr(name, value) },
        )
    }

    /// Removes an attribute of the element at a path, as `drop_attr` does. Does not allocate.
    pub fn drop_attr_at(&mut self, path: &Path, name: &Name) -> Option<Attr>
        requires { IsSome (at path.now self.old) }
        ensures attribute_taken { result ≡ attr_at path.now name.now self.old }
        ensures attribute_is_gone { self.new ≡ drop_attr_at path.now name.now self.old }
    {
        self.edit_at(
            path,
            |here: &mut Element| -> Option<Attr>
                ensures attribute_taken { result
                    ≡ find (has_qname name.entry.now) here.old.attrs }
                ensures attribute_is_gone { here.new ≡ drop_attr name.entry.now here.old }
            { here.drop_attr(name) },
        )
    }
}
