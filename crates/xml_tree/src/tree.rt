//! Elements and their nodes.
ghost use Rattle.std.specs.Prelude.{◌≡◌, ◌<◌, [], ◌∷◌, ◌++◌, OnOk, OnErr, IsSome, Some, true};
ghost use Rattle.std.specs.Prelude.{chars, slice_get};
ghost use Rattle.std.specs.Option.{option_copied};
ghost use Rattle.xml_tree.specs.Tree.{height};

use crate::attrs;
use crate::nodes::{
    child_mut, find_child, push_comment_node, push_elem_node, push_owned_text, push_text,
};
use crate::path::Path;
use std::alloc::{AllocError, Global};
use std::marker::Model;
use std::mem;
use xml_names::{Attr, Decl, Name, Text, push_decl};

/// A node of an element.
#[cycle(tree)]
#[derive(Drop)]
pub enum Node {
    Elem(Element),
    Chars(Text),
    Comment(Text),
}

/// An element. Contracts see a plain tree: its name, declarations, attributes and content. No
/// text in it is empty, and no two texts are adjacent.
#[cycle(tree)]
#[derive(Drop)]
pub struct Element {
    pub(crate) name: Name,
    pub(crate) decls: Vec<Decl>,
    pub(crate) attrs: Vec<Attr>,
    pub(crate) nodes: Vec<Node>,
}

impl Model for Element {
    ghost use Rattle.xml_tree.specs.Tree.{Tree, tree_of, height};
    ghost use Rattle.xml_tree.specs.inner.TreeCodes.{tree_code};

    ghost Value = { Tree };

    ghost coded = { tree_code };

    ghost use Rattle.xml_tree.specs.Nodes.{content_of, AreNormalized};

    ghost view = { λ e. tree_of e.name e.decls.items e.attrs.items (content_of e.nodes.items) };

    ghost invariant = { λ e. AreNormalized e.nodes.items };

    ghost size = { height };

    ghost use Rattle.std.proofs.Common.{arith};
    ghost use Rattle.xml_tree.specs.inner.Heights.{most_le-content_height};

    ghost size_decreases = { λ e h. omega (arith, most_le-content_height e.nodes.items) };
}

/// Making an element, part by part.
impl Element {
    ghost use Rattle.xml_tree.specs.Tree.{last, tree_of};
    ghost use Rattle.std.specs.Prelude.{IsTrue};
    ghost use Rattle.xml_names.specs.Comments.{is_comment};
    ghost use Rattle.xml_tree.specs.Edits.{with_comment, with_elem, with_text};

    /// An element with this name and nothing else. Does not allocate; what is added later is
    /// allocated from `alloc`.
    #[inline(always)]
    pub fn new(alloc: Global, name: Name) -> Element
        ensures named_alone { result ≡ tree_of name [] [] (last []) }
    {
        Element {
            name,
            decls: Vec::new(alloc),
            attrs: Vec::new(alloc),
            nodes: Vec::new(alloc),
        }
    }

    /// Appends a declaration.
    ///
    /// # Errors
    /// `AllocError` when out of memory; the element is then unchanged, as at each call below.
    pub fn push_decl(&mut self, decl: Decl) -> Result<(), AllocError>
        ensures adds_declaration { OnOk result
            (self.new ≡ record self.old { decls = self.old.decls ++ decl ∷ [] }) }
        ensures err_unchanged { OnErr result (self.new ≡ self.old) }
    {
        push_decl(&mut self.decls, decl)
    }

    /// Appends an attribute.
    ///
    /// # Errors
    /// `AllocError` when out of memory.
    pub fn push_attr(&mut self, attr: Attr) -> Result<(), AllocError>
        ensures adds_attribute { OnOk result
            (self.new ≡ record self.old { attrs = self.old.attrs ++ attr ∷ [] }) }
        ensures err_unchanged { OnErr result (self.new ≡ self.old) }
    {
        attrs::push(&mut self.attrs, attr)
    }

    /// Appends an element.
    ///
    /// # Errors
    /// `AllocError` when out of memory.
    #[inline(always)]
    pub fn push_elem(&mut self, element: Element) -> Result<(), AllocError>
        ensures adds_element { OnOk result
            (self.new ≡ record self.old { content = with_elem element self.old.content }) }
        ensures err_unchanged { OnErr result (self.new ≡ self.old) }
    {
        push_elem_node(&mut self.nodes, element)
    }

    /// Appends a text. It joins a text that is the last node, and an empty text is ignored.
    ///
    /// # Errors
    /// `AllocError` when out of memory.
    pub fn push_chars(&mut self, text: &str) -> Result<(), AllocError>
        ensures appends_chars { OnOk result
            (self.new ≡ record self.old { content = with_text (chars text.now) self.old.content }) }
        ensures err_unchanged { OnErr result (self.new ≡ self.old) }
    {
        push_text(&mut self.nodes, text)
    }

    /// Appends a text, as `push_chars` does, and copies it only where it joins another.
    ///
    /// # Errors
    /// `AllocError` when out of memory.
    #[inline(always)]
    pub fn push_text(&mut self, text: Text) -> Result<(), AllocError>
        ensures adds_text { OnOk result
            (self.new ≡ record self.old { content = with_text text self.old.content }) }
        ensures err_unchanged { OnErr result (self.new ≡ self.old) }
    {
        push_owned_text(&mut self.nodes, text)
    }

    /// Appends a comment. Its text consists of Chars other than CR, has no `--`, and doesn't end
    /// in `-`.
    ///
    /// # Errors
    /// `AllocError` when out of memory.
    pub fn push_comment(&mut self, text: Text) -> Result<(), AllocError>
        requires { IsTrue (is_comment text) }
        ensures adds_comment { OnOk result
            (self.new ≡ record self.old { content = with_comment text self.old.content }) }
        ensures err_unchanged { OnErr result (self.new ≡ self.old) }
    {
        push_comment_node(&mut self.nodes, text)
    }
}

/// Its parts, borrowed. These calls do not allocate.
impl Element {
    ghost use Rattle.std.specs.Prelude.{All};
    ghost use Rattle.xml_tree.specs.Tree.{child_elements_of};
    ghost use Rattle.xml_tree.specs.Nodes.{nodes_of, content_of, node_height, AreNormalized};

    /// The name.
    pub fn name(&self) -> &Name
        ensures exact { result.now ≡ self.now.name }
    {
        &self.name
    }

    /// The declarations, in the order in which they are written.
    pub fn decls(&self) -> &[Decl]
        ensures exact { result.now ≡ self.now.decls }
    {
        &self.decls
    }

    /// The attributes, in the order in which they are written.
    pub fn attrs(&self) -> &[Attr]
        ensures exact { result.now ≡ self.now.attrs }
    {
        &self.attrs
    }

    /// The nodes of its content. Each has fewer levels than the element, so a recursion over them
    /// ends.
    pub fn nodes(&self) -> &[Node]
        ensures content_nodes { result.now ≡ nodes_of self.now.content }
        ensures nodes_content { content_of result.now ≡ self.now.content }
        ensures is_no_higher { All (λ node. node_height node < height self.now) result.now }
        ensures nodes_are_normal { AreNormalized result.now }
    {
        &self.nodes
    }

    /// A child element, counted from 0: None exactly when there are fewer. Does not allocate.
    pub fn child_element(&self, child: usize) -> Option<&Element>
        ensures exact { option_copied result ≡ slice_get (child_elements_of self.now) child }
    {
        find_child(&self.nodes, child)
    }
}

/// Moving its nodes out and in. These calls do not allocate.
impl Element {
    ghost use Rattle.xml_tree.specs.Tree.{last};
    ghost use Rattle.xml_tree.specs.Nodes.{content_of, AreNormalized};

    /// Takes the nodes out of the element, which then has none.
    #[inline(always)]
    pub fn take_nodes(&mut self) -> Vec<Node>
        ensures nodes_content { content_of result.items ≡ self.old.content }
        ensures nodes_are_normal { AreNormalized result.items }
        ensures leaves_none { self.new ≡ record self.old { content = last [] } }
    {
        let none = Vec::new(*self.nodes.allocator());
        mem::replace(&mut self.nodes, none)
    }

    /// Puts nodes into an element that has none.
    #[inline(always)]
    pub fn put_nodes(&mut self, nodes: Vec<Node>)
        requires empty { self.old.content ≡ last [] }
        requires normal { AreNormalized nodes.items }
        ensures exact { self.new ≡ record self.old { content = content_of nodes.items } }
    {
        let none = mem::replace(&mut self.nodes, nodes);
        none.destroy_empty();
    }
}

/// An edit at any place.
impl Element {
    ghost use Rattle.std.specs.Fn.{FnOnceTakesAtMut};
    ghost use Rattle.xml_tree.specs.Tree.{at};
    ghost use Rattle.xml_tree.specs.EditsAt.{EditsAt};

    /// Calls a closure once, with the element at a path, and returns its result. What the closure
    /// leaves there is the only change. Does not allocate itself.
    pub fn edit_at<R, F: FnOnce(&mut Element) -> R>(&mut self, path: &Path, edit: F) -> R
        requires place_exists { IsSome (at path.now self.old) }
        requires callable { (e : _) → at path.now self.old ≡ Some e
            → FnOnceTakesAtMut F.FnOnce edit e }
        ensures edits_element { EditsAt F.FnOnce edit path.now self.old result self.new }
    {
        self.edit_below(path.numbers(), edit)
    }

    // `edit_at`, by the numbers of a path.
    pub(crate) fn edit_below<R, F: FnOnce(&mut Element) -> R>(
        &mut self,
        path: &[usize],
        edit: F,
    ) -> R
        requires place_exists { IsSome (at path.now self.old) }
        requires callable { (e : _) → at path.now self.old ≡ Some e
            → FnOnceTakesAtMut F.FnOnce edit e }
        ensures edits_element { EditsAt F.FnOnce edit path.now self.old result self.new }
    {
        match path.split_first() {
            None => edit(self),
            Some((first, rest)) => {
                let child_element = child_mut(&mut self.nodes, *first);
                child_element.edit_below(rest, edit)
            }
        }
    }
}

/// Kinds of nodes.
impl Node {
    ghost use Rattle.std.specs.Borrow.{sem};
    ghost use Rattle.xml_tree.specs.inner.NodeBorrows.{LendsElem};
    ghost use Rattle.xml_tree.specs.Nodes.{elem_of, is_text, text_of};
    ghost use Rattle.xml_tree.specs.inner.Nodes.{with_text_appended};

    pub(crate) fn elem_mut(&mut self) -> &mut Element
        requires { IsSome (elem_of self.old) }
        ensures* writes_back { sem 𝓛 (LendsElem self.entry result) }
        ensures lends_element { elem_of self.old ≡ Some result.now }
    {
        match self {
            Node::Elem(element) => element,
            Node::Chars(_) => unreachable!(),
            Node::Comment(_) => unreachable!(),
        }
    }

    /// Whether the node is a text. Does not allocate.
    pub fn is_text(&self) -> bool
        ensures exact { result ≡ is_text self.now }
    {
        match self {
            Node::Elem(_) => false,
            Node::Chars(_) => true,
            Node::Comment(_) => false,
        }
    }

    // The text, if the node is one.
    pub(crate) fn text(&self) -> Option<&Text>
        ensures exact { option_copied result ≡ text_of self.now }
    {
        match self {
            Node::Elem(_) => None,
            Node::Chars(text) => Some(text),
            Node::Comment(_) => None,
        }
    }

    // The element; the node is one.
    pub(crate) fn into_elem(self) -> Element
        requires { IsSome (elem_of self) }
        ensures element_it_was { elem_of self ≡ Some result }
    {
        match self {
            Node::Elem(element) => element,
            Node::Chars(_) => unreachable!(),
            Node::Comment(_) => unreachable!(),
        }
    }

    // Appends to the text; the node is one.
    pub(crate) fn push_str(&mut self, text: &str) -> Result<(), AllocError>
        requires { is_text self.old ≡ true }
        ensures appends_chars { OnOk result
            (self.new ≡ with_text_appended (chars text.now) self.old) }
        ensures err_unchanged { OnErr result (self.new ≡ self.old) }
    {
        match self {
            Node::Elem(_) => unreachable!(),
            Node::Chars(chars) => chars.push_str(text),
            Node::Comment(_) => unreachable!(),
        }
    }
}
