//! Scopes: what prefixes are bound to (Namespaces in XML 1.0, sections 2.2, 3, 5 and 6).
ghost use Rattle.std.specs.Prelude.{◌≡◌, ◌<◌, ◌++◌, [], ◌∷◌, length, map, option_map, chars, IfOk};
ghost use Rattle.std.specs.Option.{option_copied};
ghost use Rattle.xml_tree.specs.Tree.{at};
ghost use Rattle.xml_names.specs.Scopes.{in_scope_bindings, bound_uri, declared_uri, scope_decls};
ghost use Rattle.xml_names.specs.Scopes.{non_empty_uri};
ghost use Rattle.xml_names.specs.Scopes.{xml_uri};
ghost use Rattle.xml_tree.specs.TreeScopes.{scope_at};

use crate::path::Path;
use crate::tree::Element;
use std::alloc::{AllocError, Global};
use std::marker::Model;
use xml_names::{
    Decl, Text, in_scope_bindings, is_xml_prefix, nearest_uri, non_empty_uri, xml_uri,
};

/// The greatest number of lists of declarations in a scope.
pub const SCOPE_LIMIT: usize = 67;

/// Lists of declarations, borrowed, outermost first. Contracts see them as a list of lists; in
/// each a later declaration is nearer.
#[derive(Drop)]
pub struct Scope<'a> {
    lists: [&'a [Decl]; SCOPE_LIMIT],
    len: usize,
}

impl<'a> Model for Scope<'a> {
    ghost use Rattle.std.specs.Prelude.{◌≤◌, List, map, take};
    ghost use Rattle.std.specs.Coded.{coded_list};
    ghost use Rattle.xml_names.specs.inner.ValueCodes.{decls_code};
    ghost use Rattle.xml_names.specs.declared.names.Decl.{Decl};
    ghost use Rattle.xml_tree.specs.declared.scope.TheConstants.{SCOPE_LIMIT};

    ghost Value = { List (List Decl) };

    ghost coded = { coded_list decls_code };

    ghost view = { λ s. map (λ x. x.now) (take s.len s.lists) };

    ghost invariant = { λ s. s.len ≤ SCOPE_LIMIT };
}

impl<'a> Scope<'a> {
    /// The scope without declarations. Does not allocate.
    pub fn empty() -> Scope<'a>
        ensures declares_nothing { result ≡ [] }
    {
        Scope {
            lists: [&[]; SCOPE_LIMIT],
            len: 0,
        }
    }

    /// The scope at an element: the declarations of all elements on its path, its own included.
    /// None exactly when no element is at the path. Does not allocate.
    pub fn at(root: &'a Element, path: &Path) -> Option<Scope<'a>>
        ensures exact { result
            ≡ option_map (λ _. scope_at path.now root.now) (at path.now root.now) }
    {
        let mut here = root;
        let mut scope = Scope::empty().with(root.decls());
        for number in path.numbers() {
            here = here.child_element(*number)?;
            scope = scope.with(here.decls());
        }
        Some(scope)
    }

    /// The scope with one more list, which is the innermost. Does not allocate.
    pub fn with(&self, decls: &'a [Decl]) -> Scope<'a>
        requires { length self.now < SCOPE_LIMIT }
        ensures exact { result ≡ self.now ++ decls.now ∷ [] }
    {
        let mut lists = self.lists;
        lists[self.len] = decls;
        Scope {
            lists,
            len: self.len + 1,
        }
    }

    /// An equal scope, which borrows the same lists. Does not allocate.
    pub fn copy(&self) -> Scope<'a>
        ensures exact { result ≡ self.now }
    {
        Scope {
            lists: self.lists,
            len: self.len,
        }
    }

    /// How many lists it holds. Does not allocate.
    pub fn depth(&self) -> usize
        ensures exact { result ≡ length self.now }
    {
        self.len
    }

    /// The lists, outermost first. Does not allocate.
    pub fn lists(&self) -> &[&'a [Decl]]
        ensures exact { map (λ x. x.now) result.now ≡ self.now }
    {
        &self.lists[..self.len]
    }

    /// All bindings in scope without the binding of `xml`: the default first, then the prefixes
    /// by code point.
    ///
    /// # Errors
    /// `AllocError` when out of memory.
    pub fn bindings(&self, alloc: Global) -> Result<Vec<Decl>, AllocError>
        ensures ok { IfOk result (λ made. made.items ≡ in_scope_bindings self.now) }
    {
        in_scope_bindings(alloc, &self.lists[..self.len])
    }

    /// The URI that a prefix is bound to; the empty prefix is the default namespace. Does not
    /// allocate.
    pub fn resolve(&self, prefix: &str) -> Option<&'a str>
        ensures resolves_as_bound { option_map (λ uri. chars uri.now) result
            ≡ bound_uri self.now (chars prefix.now) }
    {
        if is_xml_prefix(prefix) {
            return Some(xml_uri());
        }
        non_empty_uri(self.nearest_uri(prefix))
    }

    // The URI in the nearest declaration of a prefix.
    pub(crate) fn nearest_uri(&self, prefix: &str) -> Option<&'a Text>
        ensures exact { option_copied result
            ≡ declared_uri (scope_decls self.now) (chars prefix.now) }
    {
        nearest_uri(&self.lists[..self.len], prefix)
    }
}
