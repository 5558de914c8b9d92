//! The declarations of the open elements, and the namespaces that they bind.
ghost use Rattle.std.specs.Prelude.{◌≡◌, ◌++◌, ◌<◌, ◌∷◌, [], option_map, Some, IfOk, OnOk, length};
ghost use Rattle.xml_names.specs.Scopes.{bound_uri};
ghost use Rattle.xml_names.specs.declared.names.Decl.{Decl};
ghost use Rattle.tree_text.specs.readers.Bindings.{AreOpenNamespaces, lists, namespace_number};

use crate::namespaces::Namespaces;
use std::alloc::{AllocError, Global};
use xml_names::{Decl, Prefix, copy_decls};
use xml_tree::Scope;

/// The declarations in force at a place.
#[derive(Drop)]
pub struct Bindings {
    /// The declarations of the elements around it, outermost first.
    pub open: Vec<Vec<Decl>>,
    /// The namespaces of these declarations.
    pub namespaces: Namespaces,
}

impl Bindings {
    /// No declarations.
    fn new(alloc: Global) -> Result<Bindings, AllocError>
        ensures binds_nothing { IfOk result (λ made. lists made ≡ []) }
        ensures lists_in_step { IfOk result AreOpenNamespaces }
    {
        Ok(Bindings {
            open: Vec::new(alloc),
            namespaces: Namespaces::new(alloc)?,
        })
    }

    /// The declarations of a scope.
    pub fn from_scope(alloc: Global, scope: &Scope<'_>) -> Result<Bindings, AllocError>
        ensures given_scope { IfOk result (λ made. lists made ≡ scope.now) }
        ensures lists_in_step { IfOk result AreOpenNamespaces }
    {
        let mut made = Bindings::new(alloc)?;
        for decls in scope.lists() {
            made.enter(alloc, copy_decls(alloc, decls)?)?;
        }
        Ok(made)
    }

    /// Enters an element with these declarations.
    #[inline(always)]
    pub fn enter(&mut self, alloc: Global, decls: Vec<Decl>) -> Result<(), AllocError>
        requires { AreOpenNamespaces self.old }
        ensures scope_grows { OnOk result (lists self.new ≡ lists self.old ++ decls.items ∷ []) }
        ensures lists_in_step { OnOk result (AreOpenNamespaces self.new) }
    {
        self.namespaces.declare_all(alloc, &decls)?;
        self.open.push(decls)?;
        Ok(())
    }

    /// Leaves the innermost element, and returns its declarations.
    #[inline(always)]
    pub fn leave(&mut self) -> Vec<Decl>
        requires namespaces_in_step { AreOpenNamespaces self.old }
        requires nonempty { 0 < length self.old.open.items }
        ensures scope_shrinks { lists self.old ≡ lists self.new ++ result.items ∷ [] }
        ensures lists_in_step { AreOpenNamespaces self.new }
    {
        let decls = self.open.pop().unwrap();
        self.namespaces.undeclare_all(&decls);
        decls
    }

    /// The number of the namespace that a prefix is bound to; the empty prefix is the default
    /// namespace.
    pub fn namespace(&self, prefix: &Prefix) -> Option<usize>
        requires { AreOpenNamespaces self.now }
        ensures exact { option_map Some result
            ≡ option_map (namespace_number self.now.namespaces)
            (bound_uri (lists self.now) prefix.now) }
    {
        self.namespaces.number_of_prefix(prefix)
    }
}
