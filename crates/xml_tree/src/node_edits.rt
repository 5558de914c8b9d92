//! Inserting and removing nodes of an element.
ghost use Rattle.std.specs.Prelude.{◌≡◌, ◌≤◌, [], length, OnOk, OnErr};
ghost use Rattle.xml_tree.specs.Nodes.{exchange_nodes, nodes_of};

use crate::tree::{Element, Node};
use std::alloc::AllocError;

impl Element {
    /// Inserts nodes before the node of this number, or after all nodes. Texts that meet are
    /// joined, and empty ones are dropped.
    ///
    /// # Errors
    /// `AllocError` when out of memory; the element is then unchanged.
    pub fn insert_nodes(&mut self, before: usize, nodes: Vec<Node>) -> Result<(), AllocError>
        requires { before ≤ length (nodes_of self.old.content) }
        ensures ok { OnOk result (self.new ≡ exchange_nodes before before nodes.items self.old) }
        ensures err_unchanged { OnErr result (self.new ≡ self.old) }
    {
        self.exchange_nodes(before, before, nodes)
    }

    /// Removes the nodes from one place to before another. Texts that meet are joined.
    ///
    /// # Errors
    /// `AllocError` when out of memory; the element is then unchanged.
    pub fn cut_nodes(&mut self, from: usize, to: usize) -> Result<(), AllocError>
        requires range_ordered { from ≤ to }
        requires within { to ≤ length (nodes_of self.old.content) }
        ensures ok { OnOk result (self.new ≡ exchange_nodes from to [] self.old) }
        ensures err_unchanged { OnErr result (self.new ≡ self.old) }
    {
        let none = Vec::new(*self.nodes.allocator());
        self.exchange_nodes(from, to, none)
    }
}
