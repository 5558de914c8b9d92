//! The declarations of an element, replaced as a whole.
ghost use Rattle.std.specs.Prelude.{◌≡◌};

use crate::tree::Element;
use std::mem;
use xml_names::Decl;

impl Element {
    /// Replaces the declarations by others, and returns the old ones. Does not allocate.
    pub fn exchange_decls(&mut self, decls: Vec<Decl>) -> Vec<Decl>
        ensures former_declarations { result.items ≡ self.old.decls }
        ensures replaces_declarations { self.new ≡ record self.old { decls = decls.items } }
    {
        mem::replace(&mut self.decls, decls)
    }
}
